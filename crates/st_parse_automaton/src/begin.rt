//! What begins where an operand is expected.

ghost use Rattle.std.specs.Prelude.{◌≡◌, ◌++◌, ◌∷◌, IfOk, reverse};
ghost use Rattle.std.specs.Prelude as Prelude;
ghost use Rattle.st_num.specs.declared.token.Token.{Token};
ghost use Rattle.st_parse_automaton.specs.inner.PartAutomaton as parts;
ghost use Rattle.st_parse_automaton.specs.inner.Readings.{reached};

use crate::actions::open;
use crate::close::settle;
use crate::frame::{kind_expected, kind_sort, leaf_part, least, top};
use crate::part_automaton::{Expected, Filling, Frame, Lead, Part, PartKind, Reading, Shape};
use st_grammar::{Action, Bracket, Closing, Sort, TokenRef};
use st_num::{Mark, NoMemory, Row, Token};

/// A bracket opens in a part of this sort.
pub(crate) fn opened<'a>(
    kind: PartKind,
    sort: Sort,
    mut frames: Row<Frame>,
    token: &Token,
    actions: &mut Row<Action<'a>>,
) -> Result<Option<Reading>, NoMemory>
    ensures { IfOk result (λ next. reached next actions.new
        ≡ parts.leads actions.old token.now
        (Prelude.Some (parts.opens kind sort (reverse frames)))) }
{
    open(kind, token, actions)?;
    let inner = kind_sort(sort, kind);
    frames.push(Frame::Within(kind, Filling::Empty, true, inner))?;
    Ok(Some(Reading {
        expected: kind_expected(kind),
        frames,
    }))
}

/// What a token that opens a bracket makes where an operand is expected.
fn begin_opening<'a>(
    base: Sort,
    bracket: Bracket,
    frames: Row<Frame>,
    token: &Token,
    actions: &mut Row<Action<'a>>,
) -> Result<Option<Reading>, NoMemory>
    ensures { IfOk result (λ next. reached next actions.new
        ≡ parts.leads actions.old token.now (parts.begin_opening base bracket (reverse frames))) }
{
    let sort = top(base, &frames);
    if sort.is_count() && matches!(bracket, Bracket::Round) {
        return Ok(Some(Reading {
            expected: Expected::Index,
            frames,
        }));
    }
    if !sort.encloses(bracket) {
        return Ok(None);
    }
    opened(PartKind::Plain(bracket), sort, frames, token, actions)
}

/// `)` closes the arguments of a function, which are none.
fn no_arguments<'a>(
    mut frames: Row<Frame>,
    actions: &mut Row<Action<'a>>,
) -> Result<Option<Reading>, NoMemory>
    ensures { (x : Token) → IfOk result (λ next. reached next actions.new
        ≡ parts.leads actions.old x (parts.no_arguments (reverse frames))) }
{
    match frames.pop() {
        Some(Frame::Within(PartKind::Arguments, Filling::Empty, _, _)) => {
            actions.push(Action::EndCall)?;
            let next = settle(Part::Whole, false, frames, actions)?;
            Ok(Some(next))
        }
        _ => Ok(None),
    }
}

/// A bar opens a length where an operand is expected, and `)` closes arguments that are none.
fn begin_closing<'a>(
    base: Sort,
    closing: Closing,
    frames: Row<Frame>,
    token: &Token,
    actions: &mut Row<Action<'a>>,
) -> Result<Option<Reading>, NoMemory>
    ensures { IfOk result (λ next. reached next actions.new
        ≡ parts.leads actions.old token.now (parts.begin_closing base closing (reverse frames))) }
{
    match closing {
        Closing::ByBar => {
            let sort = top(base, &frames);
            if !sort.computes() {
                return Ok(None);
            }
            opened(PartKind::Length, sort, frames, token, actions)
        }
        Closing::ByRound => no_arguments(frames, actions),
        Closing::BySquare | Closing::ByBrace => Ok(None),
    }
}

/// A sign without a left side, where it begins an operand.
fn begin_sign<'a>(
    base: Sort,
    mark: Mark,
    mut frames: Row<Frame>,
    token: &Token,
    actions: &mut Row<Action<'a>>,
) -> Result<Option<Reading>, NoMemory>
    ensures { IfOk result (λ next. reached next actions.new
        ≡ parts.leads actions.old token.now (parts.begin_sign base mark (reverse frames))) }
{
    let sort = top(base, &frames);
    let level = mark.prefix_level();
    if !(sort.has_level(level) && least(&frames) <= level) {
        return Ok(None);
    }
    actions.push(Action::Here(token.at))?;
    frames.push(Frame::Over(Lead::Ahead(mark), sort))?;
    Ok(Some(Reading {
        expected: Expected::Operand,
        frames,
    }))
}

/// What a token makes where an operand is expected.
pub(crate) fn begin<'a>(
    base: Sort,
    frames: Row<Frame>,
    shape: Shape,
    token: &'a Token,
    actions: &mut Row<Action<'a>>,
) -> Result<Option<Reading>, NoMemory>
    ensures { IfOk result (λ next. reached next actions.new
        ≡ parts.leads actions.old token.now (parts.begin base (reverse frames) shape)) }
{
    match shape {
        Shape::Single(leaf) => {
            if !top(base, &frames).takes(leaf) {
                return Ok(None);
            }
            actions.push(Action::Operand(leaf, TokenRef::new(token)))?;
            let next = settle(leaf_part(leaf), false, frames, actions)?;
            Ok(Some(next))
        }
        Shape::Sign(mark) => begin_sign(base, mark, frames, token, actions),
        Shape::Open(bracket, _) => begin_opening(base, bracket, frames, token, actions),
        Shape::Close(closing) => begin_closing(base, closing, frames, token, actions),
        Shape::Dot(_) | Shape::Other => Ok(None),
    }
}
