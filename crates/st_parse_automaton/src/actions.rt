//! What brackets and leads add to the actions.

ghost use Rattle.std.specs.Prelude.{◌≡◌, ◌++◌, ◌∷◌, IfOk, reverse};
ghost use Rattle.st_parse_automaton.specs.inner.PartAutomaton as parts;

use crate::close::closes;
use crate::part_automaton::{Filling, Frame, Lead, PartKind};
use st_grammar::{Action, Bracket, TokenRef};
use st_num::{NoMemory, Row, Token};

/// What stands before the parts of a bracket that opens there.
pub(crate) fn open<'a>(
    kind: PartKind,
    token: &Token,
    actions: &mut Row<Action<'a>>,
) -> Result<(), NoMemory>
    ensures { IfOk result (λ _. actions.new ≡ actions.old ++ parts.opening kind token.now) }
{
    match kind {
        PartKind::Plain(Bracket::Round) | PartKind::Arguments => {
            actions.push(Action::Open(token.at))
        }
        PartKind::Plain(Bracket::Brace) => actions.push(Action::OpenFields(token.at)),
        PartKind::Plain(_) | PartKind::Length => actions.push(Action::Here(token.at)),
        PartKind::Index => actions.push(Action::OpenPath),
        PartKind::Segment | PartKind::Update(_) | PartKind::Below => Ok(()),
    }
}

/// The name of a field, in braces alone.
pub(crate) fn label<'a>(
    kind: PartKind,
    token: &'a Token,
    actions: &mut Row<Action<'a>>,
) -> Result<(), NoMemory>
    ensures { IfOk result (λ _. actions.new ≡ actions.old ++ parts.naming kind token.now) }
{
    match kind {
        PartKind::Plain(Bracket::Brace) => actions.push(Action::Label(TokenRef::new(token))),
        _ => Ok(()),
    }
}

/// The name of an index goes with the count that stands directly behind `^`.
pub(crate) fn index_label<'a>(
    frames: &[Frame],
    token: &'a Token,
    actions: &mut Row<Action<'a>>,
) -> Result<(), NoMemory>
    ensures { IfOk result (λ _.
        actions.new ≡ actions.old ++ parts.index_label token.now (reverse frames.now)) }
{
    match frames.last() {
        Some(Frame::Timing) => actions.push(Action::Label(TokenRef::new(token))),
        Some(Frame::Within(_, _, _, _)) | Some(Frame::Over(_, _)) | None => Ok(()),
    }
}

/// The action of a count, with an index or without.
pub(crate) fn count<'a>(indexed: bool) -> Action<'a>
    ensures { result ≡ parts.count_act indexed }
{
    if indexed {
        Action::Below
    } else {
        Action::Times
    }
}

/// Ends what leads to a last part: a sign joins its sides or is a prefix, a sequence ends.
fn end_lead<'a>(lead: Lead, actions: &mut Row<Action<'a>>) -> Result<(), NoMemory>
    ensures { IfOk result (λ _. actions.new ≡ actions.old ++ parts.lead_end lead) }
{
    match lead {
        Lead::Left(mark) => actions.push(Action::Join(mark)),
        Lead::Ahead(mark) => actions.push(Action::Prefix(mark)),
        Lead::Items => {
            actions.push(Action::Part)?;
            actions.push(Action::EndSequence)
        }
    }
}

/// Ends what binds tighter than this level.
#[tactic(auto, using(crate::proofs::Lowering::lowering_stays, crate::proofs::Lowering::lowering_goes))]
pub(crate) fn end_leads<'a>(
    level: u8,
    frames: &[Frame],
    actions: &mut Row<Action<'a>>,
) -> Result<(), NoMemory>
    ensures { IfOk result (λ _.
        actions.new ≡ actions.old ++ parts.lowering level (reverse frames.now)) }
{
    let mut rest = frames;
    'open: while let Some((frame, front)) = rest.split_last() {
        let Some(lead) = closes(*frame, level) else {
            return Ok(());
        };
        end_lead(lead, actions)?;
        rest = front;
    }
    Ok(())
}

/// The end of one more part of a bracket.
pub(crate) fn end_part<'a>(kind: PartKind, actions: &mut Row<Action<'a>>) -> Result<(), NoMemory>
    ensures { IfOk result (λ _. actions.new ≡ actions.old ++ parts.part_end kind) }
{
    match kind {
        PartKind::Plain(Bracket::Round) | PartKind::Arguments => actions.push(Action::Part),
        PartKind::Plain(Bracket::Brace) => actions.push(Action::Field),
        PartKind::Plain(_)
        | PartKind::Length
        | PartKind::Index
        | PartKind::Segment
        | PartKind::Update(_)
        | PartKind::Below => Ok(()),
    }
}

/// The action of a position in a part, or of a position and how many elements.
fn position<'a>(filling: Filling) -> Action<'a>
    ensures { result ≡ parts.at_act filling }
{
    match filling {
        Filling::Parts => Action::Slice,
        Filling::Empty | Filling::Begun => Action::At,
    }
}

/// The action of a position as a step of a path, or of a position and how many elements.
fn step_position<'a>(filling: Filling) -> Action<'a>
    ensures { result ≡ parts.step_act filling }
{
    match filling {
        Filling::Parts => Action::StepSlice,
        Filling::Empty | Filling::Begun => Action::StepAt,
    }
}

/// The end of a bracket that is filled so.
pub(crate) fn end_bracket<'a>(
    kind: PartKind,
    filling: Filling,
    actions: &mut Row<Action<'a>>,
) -> Result<(), NoMemory>
    ensures { IfOk result (λ _. actions.new ≡ actions.old ++ parts.kind_end kind filling) }
{
    match kind {
        PartKind::Plain(Bracket::Round) => actions.push(Action::EndParens),
        PartKind::Plain(Bracket::Brace) => actions.push(Action::EndFields),
        PartKind::Plain(bracket) => actions.push(Action::Enclose(bracket)),
        PartKind::Length => actions.push(Action::Length),
        PartKind::Arguments => actions.push(Action::EndCall),
        PartKind::Index => actions.push(position(filling)),
        PartKind::Segment => actions.push(step_position(filling)),
        PartKind::Update(mark) => actions.push(Action::Change(mark)),
        PartKind::Below => Ok(()),
    }
}

/// These actions, and those that are added behind them.
pub fn with_actions<'a>(
    actions: Row<Action<'a>>,
    added: Row<Action<'a>>,
) -> Result<Row<Action<'a>>, NoMemory>
    ensures { IfOk result (λ all. all ≡ actions.entry ++ added.entry) }
{
    let mut all = actions.into_vec();
    let mut more = added.into_vec();
    all.append(&mut more)?;
    Ok(Row::from_vec(all))
}
