//! What a token closes.

ghost use Rattle.std.specs.Prelude.{◌≡◌, ◌++◌, ◌∷◌, IfOk, reverse};
ghost use Rattle.st_num.specs.declared.token.Token.{Token};
ghost use Rattle.st_parse_automaton.specs.inner.PartAutomaton as parts;
ghost use Rattle.st_parse_automaton.specs.inner.Readings.{reading_of, reached, lowered_of};

use crate::actions::{count, end_bracket, end_part};
use crate::frame::{
    TIGHT, agree, kind_closing, kind_part, kind_style, lead_level, least, reach, reads_type, top,
};
use crate::part_automaton::{Expected, Filling, Frame, Lead, Part, PartKind, Reading};
use st_grammar::{Action, Closing, Sort, Style, is_colon, is_comma, left_of};
use st_num::{Mark, NoMemory, Row};

/// A part with its level, and what is open round it.
#[derive(Drop)]
pub struct Lowered {
    pub level: u8,
    pub part: Part,
    pub frames: Row<Frame>,
}

/// A part that is read settles: behind `^` it is the count, with an index or without.
pub(crate) fn settle<'a>(
    part: Part,
    indexed: bool,
    mut frames: Row<Frame>,
    actions: &mut Row<Action<'a>>,
) -> Result<Reading, NoMemory>
    ensures next { IfOk result (λ reading.
        reading_of reading ≡ parts.settle part (reverse frames)) }
    ensures acts { IfOk result (λ _.
        actions.new ≡ actions.old ++ parts.settling indexed (reverse frames)) }
{
    match frames.pop() {
        Some(Frame::Timing) => {
            actions.push(count(indexed))?;
            Ok(Reading {
                expected: Expected::Next(Part::Whole),
                frames,
            })
        }
        Some(frame) => {
            frames.push(frame)?;
            Ok(Reading {
                expected: Expected::Next(part),
                frames,
            })
        }
        None => Ok(Reading {
            expected: Expected::Next(part),
            frames,
        }),
    }
}

/// Closes what binds tighter than this level.
pub(crate) fn lower(level: u8, part: Part, mut frames: Row<Frame>) -> Result<Lowered, NoMemory>
    ensures { IfOk result (λ lowered.
        lowered_of lowered ≡ parts.lower level 20 part (reverse frames)) }
{
    let mut part = part;
    let mut at = TIGHT;
    'open: while let Some(frame) = frames.pop() {
        let Some(lead) = closes(frame, level) else {
            frames.push(frame)?;
            return Ok(Lowered {
                level: at,
                part,
                frames,
            });
        };
        at = lead_level(lead);
        part = Part::Whole;
    }
    Ok(Lowered {
        level: at,
        part,
        frames,
    })
}

/// What leads to a last part in the frame, where such a level closes it over the part.
pub(crate) fn closes(frame: Frame, level: u8) -> Option<Lead>
    ensures { result ≡ parts.closes frame level }
{
    match frame {
        Frame::Over(lead, _) => {
            if reach(lead) <= level {
                None
            } else {
                Some(lead)
            }
        }
        Frame::Within(_, _, _, _) | Frame::Timing => None,
    }
}

/// Ends the innermost bracket with a part that is read, where it closes so.
pub(crate) fn close<'a>(
    closing: Closing,
    lowered: Lowered,
    actions: &mut Row<Action<'a>>,
) -> Result<Option<Reading>, NoMemory>
    ensures { (x : Token) → IfOk result (λ next. reached next actions.new
        ≡ parts.leads actions.old x (parts.close closing (lowered_of lowered))) }
{
    let Lowered {
        part,
        mut frames,
        ..
    } = lowered;
    match frames.pop() {
        Some(Frame::Within(kind, filling, types, _)) => {
            if !agree(kind_closing(kind), closing) {
                return Ok(None);
            }
            end_part(kind, actions)?;
            let types = types && reads_type(part);
            let shut = shut(kind, filling, types, frames, actions)?;
            Ok(Some(shut))
        }
        Some(Frame::Over(_, _)) | Some(Frame::Timing) | None => Ok(None),
    }
}

/// A bracket with its parts has closed: it is a step of a path, or a part that is read.
fn shut<'a>(
    kind: PartKind,
    filling: Filling,
    types: bool,
    frames: Row<Frame>,
    actions: &mut Row<Action<'a>>,
) -> Result<Reading, NoMemory>
    ensures next { IfOk result (λ reading.
        reading_of reading ≡ parts.shut kind types (reverse frames)) }
    ensures acts { IfOk result (λ _.
        actions.new ≡ actions.old ++ parts.shutting kind filling (reverse frames)) }
{
    end_bracket(kind, filling, actions)?;
    match kind {
        PartKind::Segment => Ok(Reading {
            expected: Expected::Step(true),
            frames,
        }),
        PartKind::Below => settle(kind_part(kind, types), true, frames, actions),
        PartKind::Plain(_)
        | PartKind::Length
        | PartKind::Arguments
        | PartKind::Index
        | PartKind::Update(_) => settle(kind_part(kind, types), false, frames, actions),
    }
}

/// What is expected behind a sign that sets off a next part, the first or a later one.
fn next_expected(style: Style, mark: Mark, first: bool) -> Option<Expected>
    ensures { result ≡ parts.next_expected style mark first }
{
    match style {
        Style::Parts if is_comma(mark) => Some(Expected::Operand),
        Style::Fields if is_comma(mark) => Some(Expected::Label),
        Style::Ends if first && is_colon(mark) => Some(Expected::Operand),
        Style::Parts | Style::Fields | Style::Ends | Style::Lone | Style::Run => None,
    }
}

/// Whether the part that is read in a bracket is its first one.
fn is_first(filling: Filling) -> bool
    ensures { result ≡ parts.is_first filling }
{
    match filling {
        Filling::Parts => false,
        Filling::Empty | Filling::Begun => true,
    }
}

/// A sign that sets off a next part of the innermost bracket.
fn separate<'a>(
    base: Sort,
    mark: Mark,
    lowered: Lowered,
    actions: &mut Row<Action<'a>>,
) -> Result<Option<Reading>, NoMemory>
    ensures { (x : Token) → IfOk result (λ next. reached next actions.new
        ≡ parts.leads actions.old x (parts.separate base mark (lowered_of lowered))) }
{
    let Lowered {
        part,
        mut frames,
        ..
    } = lowered;
    match frames.pop() {
        Some(Frame::Within(kind, filling, types, sort)) => {
            let style = kind_style(top(base, &frames), kind);
            let Some(expected) = next_expected(style, mark, is_first(filling)) else {
                return Ok(None);
            };
            end_part(kind, actions)?;
            let types = types && reads_type(part);
            frames.push(Frame::Within(kind, Filling::Parts, types, sort))?;
            Ok(Some(Reading { expected, frames }))
        }
        Some(Frame::Over(_, _)) | Some(Frame::Timing) | None => Ok(None),
    }
}

/// Whether the sign stands between two sides there.
fn joins(base: Sort, mark: Mark, frames: &Row<Frame>) -> bool
    ensures { result ≡ parts.is_joined base mark (reverse frames.now) }
{
    let level = mark.level();
    top(base, frames).has_level(level) && least(frames) <= level
}

/// A sign between two sides, or else before a next part of the innermost bracket.
pub(crate) fn join<'a>(
    base: Sort,
    mark: Mark,
    lowered: Lowered,
    actions: &mut Row<Action<'a>>,
) -> Result<Option<Reading>, NoMemory>
    ensures { (x : Token) → IfOk result (λ next. reached next actions.new
        ≡ parts.leads actions.old x (parts.join base mark (lowered_of lowered))) }
{
    if !joins(base, mark, &lowered.frames) {
        return separate(base, mark, lowered, actions);
    }
    if left_of(mark) > lowered.level {
        return Ok(None);
    }
    let mut frames = lowered.frames;
    let sort = top(base, &frames);
    frames.push(Frame::Over(Lead::Left(mark), sort))?;
    Ok(Some(Reading {
        expected: Expected::Operand,
        frames,
    }))
}
