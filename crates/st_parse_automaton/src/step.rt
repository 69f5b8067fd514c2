//! One token of a part.

ghost use Rattle.std.specs.Prelude.{◌≡◌, ◌++◌, ◌∷◌, IfOk, reverse};
ghost use Rattle.st_num.specs.declared.token.Token.{Token};
ghost use Rattle.st_parse_automaton.specs.inner.PartAutomaton as parts;
ghost use Rattle.st_parse_automaton.specs.inner.Readings.{reading_of, reached};

use crate::actions::{end_leads, index_label, label};
use crate::begin::{begin, opened};
use crate::close::{close, closes, join, lower};
use crate::frame::{
    TIGHT, dotted, follows, is_function, lead_level, marked, may_dot, may_iterate, top,
};
use crate::part_automaton::{Expected, Filling, Frame, Lead, Part, PartKind, Reading, Shape};
use st_grammar::{Action, Bracket, Closing, Leaf, Sort, TokenRef, is_caret, is_change, is_less};
use st_num::{Mark, NoMemory, Row, Token};

/// What is open, with one more element of a sequence, which ends.
fn extend<'a>(
    base: Sort,
    mut frames: Row<Frame>,
    actions: &mut Row<Action<'a>>,
) -> Result<Row<Frame>, NoMemory>
    ensures open { IfOk result (λ extended.
        reverse extended ≡ parts.extend base (reverse frames)) }
    ensures acts { IfOk result (λ _.
        actions.new ≡ actions.old ++ parts.extending (reverse frames)) }
{
    let sort = top(base, &frames);
    match frames.pop() {
        Some(Frame::Over(Lead::Items, items)) => {
            actions.push(Action::Part)?;
            frames.push(Frame::Over(Lead::Items, items))?;
            Ok(frames)
        }
        Some(frame) => {
            actions.push(Action::First)?;
            frames.push(frame)?;
            frames.push(Frame::Over(Lead::Items, sort))?;
            Ok(frames)
        }
        None => {
            actions.push(Action::First)?;
            frames.push(Frame::Over(Lead::Items, sort))?;
            Ok(frames)
        }
    }
}

/// The level of the sign between two sides in such a part, or 0 where it is none.
fn pull(sort: Sort, mark: Mark) -> u8
    ensures { result ≡ parts.pull sort mark }
{
    let level = mark.level();
    if sort.has_level(level) { level } else { 0 }
}

/// A sign behind a part that closes what binds tighter, and joins the part or sets it off.
fn lower_sign<'a>(
    base: Sort,
    mark: Mark,
    part: Part,
    frames: Row<Frame>,
    actions: &mut Row<Action<'a>>,
) -> Result<Option<Reading>, NoMemory>
    ensures { (x : Token) → IfOk result (λ next. reached next actions.new
        ≡ parts.leads actions.old x (parts.lower_sign base mark part (reverse frames))) }
{
    let level = pull(top(base, &frames), mark);
    end_leads(level, frames.as_slice(), actions)?;
    let lowered = lower(level, part, frames)?;
    join(base, mark, lowered, actions)
}

/// A sign behind a part: it iterates it, wants a count, joins it or sets it off.
fn behind_sign<'a>(
    base: Sort,
    mark: Mark,
    part: Part,
    mut frames: Row<Frame>,
    actions: &mut Row<Action<'a>>,
) -> Result<Option<Reading>, NoMemory>
    ensures { (x : Token) → IfOk result (λ next. reached next actions.new
        ≡ parts.leads actions.old x (parts.behind_sign base mark part (reverse frames))) }
{
    let sort = top(base, &frames);
    if may_iterate(sort, part, mark) {
        actions.push(Action::Mark(mark))?;
        return Ok(Some(Reading {
            expected: Expected::Next(marked(mark, part)),
            frames,
        }));
    }
    if sort.is_expression() && is_caret(mark) {
        frames.push(Frame::Timing)?;
        return Ok(Some(Reading {
            expected: Expected::Operand,
            frames,
        }));
    }
    lower_sign(base, mark, part, frames, actions)
}

/// A closing token behind a part: it closes all that leads to the part, and the innermost bracket.
fn behind_closing<'a>(
    closing: Closing,
    part: Part,
    frames: Row<Frame>,
    actions: &mut Row<Action<'a>>,
) -> Result<Option<Reading>, NoMemory>
    ensures { (x : Token) → IfOk result (λ next. reached next actions.new
        ≡ parts.leads actions.old x (parts.behind_closing closing part (reverse frames))) }
{
    end_leads(0, frames.as_slice(), actions)?;
    let lowered = lower(0, part, frames)?;
    close(closing, lowered, actions)
}

/// `[` behind a part; no path stands in arithmetic.
fn behind_square<'a>(
    base: Sort,
    frames: Row<Frame>,
    token: &'a Token,
    actions: &mut Row<Action<'a>>,
) -> Result<Option<Reading>, NoMemory>
    ensures { IfOk result (λ next. reached next actions.new
        ≡ parts.leads actions.old token.now (parts.behind_square base (reverse frames))) }
{
    let sort = top(base, &frames);
    if sort.is_expression() {
        actions.push(Action::OpenPath)?;
        return Ok(Some(Reading {
            expected: Expected::Step(false),
            frames,
        }));
    }
    if !sort.computes() {
        return Ok(None);
    }
    opened(PartKind::Index, sort, frames, token, actions)
}

/// `(` behind a part begins the arguments of a function, which it touches.
fn behind_round<'a>(
    base: Sort,
    touching: bool,
    part: Part,
    frames: Row<Frame>,
    token: &'a Token,
    actions: &mut Row<Action<'a>>,
) -> Result<Option<Reading>, NoMemory>
    ensures { IfOk result (λ next. reached next actions.new
        ≡ parts.leads actions.old token.now (parts.behind_round base touching part (reverse frames))) }
{
    let sort = top(base, &frames);
    if !(is_function(part) && (sort.computes() && touching)) {
        return Ok(None);
    }
    opened(PartKind::Arguments, sort, frames, token, actions)
}

/// A token behind a part, where it begins no next element of a sequence.
fn behind<'a>(
    base: Sort,
    part: Part,
    frames: Row<Frame>,
    shape: Shape,
    token: &'a Token,
    actions: &mut Row<Action<'a>>,
) -> Result<Option<Reading>, NoMemory>
    ensures { IfOk result (λ next. reached next actions.new
        ≡ parts.leads actions.old token.now (parts.behind base part (reverse frames) shape)) }
{
    match shape {
        Shape::Dot(touching) => {
            if !may_dot(top(base, &frames), part, touching) {
                return Ok(None);
            }
            actions.push(Action::Dot(TokenRef::new(token)))?;
            Ok(Some(Reading {
                expected: Expected::Next(dotted(part, touching)),
                frames,
            }))
        }
        Shape::Sign(mark) => behind_sign(base, mark, part, frames, actions),
        Shape::Open(Bracket::Square, _) => behind_square(base, frames, token, actions),
        Shape::Open(Bracket::Round, touching) => {
            behind_round(base, touching, part, frames, token, actions)
        }
        Shape::Close(closing) => behind_closing(closing, part, frames, actions),
        Shape::Open(_, _) | Shape::Single(_) | Shape::Other => Ok(None),
    }
}

/// The next element of a sequence begins with a token.
fn begin_next<'a>(
    base: Sort,
    frames: Row<Frame>,
    shape: Shape,
    token: &'a Token,
    actions: &mut Row<Action<'a>>,
) -> Result<Option<Reading>, NoMemory>
    ensures { IfOk result (λ next. reached next actions.new
        ≡ parts.leads actions.old token.now (parts.begin_next base (reverse frames) shape)) }
{
    let extended = extend(base, frames, actions)?;
    begin(base, extended, shape, token, actions)
}

/// A token behind a part.
fn after<'a>(
    base: Sort,
    part: Part,
    frames: Row<Frame>,
    shape: Shape,
    token: &'a Token,
    actions: &mut Row<Action<'a>>,
) -> Result<Option<Reading>, NoMemory>
    ensures { IfOk result (λ next. reached next actions.new
        ≡ parts.leads actions.old token.now (parts.after base part (reverse frames) shape)) }
{
    if follows(top(base, &frames), part, shape) {
        begin_next(base, frames, shape, token, actions)
    } else {
        behind(base, part, frames, shape, token, actions)
    }
}

/// Behind `[` and no step of a path: an expression.
fn in_index<'a>(
    base: Sort,
    stepped: bool,
    mut frames: Row<Frame>,
    shape: Shape,
    token: &'a Token,
    actions: &mut Row<Action<'a>>,
) -> Result<Option<Reading>, NoMemory>
    ensures { IfOk result (λ next. reached next actions.new
        ≡ parts.leads actions.old token.now (parts.in_index base stepped (reverse frames) shape)) }
{
    if stepped {
        return Ok(None);
    }
    frames.push(Frame::Within(
        PartKind::Index,
        Filling::Empty,
        true,
        Sort::Expression(false),
    ))?;
    begin(base, frames, shape, token, actions)
}

/// A token in a path: a step, or a sign of change and the new value.
fn in_path<'a>(
    base: Sort,
    stepped: bool,
    frames: Row<Frame>,
    shape: Shape,
    token: &'a Token,
    actions: &mut Row<Action<'a>>,
) -> Result<Option<Reading>, NoMemory>
    ensures { IfOk result (λ next. reached next actions.new
        ≡ parts.leads actions.old token.now (parts.in_path base stepped (reverse frames) shape)) }
{
    let sort = top(base, &frames);
    match shape {
        Shape::Dot(_) => {
            actions.push(Action::StepField(TokenRef::new(token)))?;
            Ok(Some(Reading {
                expected: Expected::Step(true),
                frames,
            }))
        }
        Shape::Open(Bracket::Square, _) => opened(PartKind::Segment, sort, frames, token, actions),
        Shape::Sign(mark) if stepped && is_change(mark) => {
            opened(PartKind::Update(mark), sort, frames, token, actions)
        }
        Shape::Sign(_) | Shape::Open(_, _) | Shape::Single(_) | Shape::Close(_) | Shape::Other => {
            in_index(base, stepped, frames, shape, token, actions)
        }
    }
}

/// Whether it is the name of a field.
pub(crate) fn is_label(shape: Shape) -> bool
    ensures { result ≡ parts.is_label shape }
{
    matches!(shape, Shape::Single(Leaf::Atom | Leaf::Variable))
}

/// How far a bracket is filled behind the name of a field.
fn named(filling: Filling) -> Filling
    ensures { result ≡ parts.named filling }
{
    match filling {
        Filling::Parts => Filling::Parts,
        Filling::Empty | Filling::Begun => Filling::Begun,
    }
}

/// The name of a field, in the innermost bracket.
fn name_field<'a>(
    mut frames: Row<Frame>,
    shape: Shape,
    token: &'a Token,
    actions: &mut Row<Action<'a>>,
) -> Result<Option<Reading>, NoMemory>
    ensures { IfOk result (λ next. reached next actions.new
        ≡ parts.leads actions.old token.now (parts.name_field (reverse frames) shape)) }
{
    match frames.pop() {
        Some(Frame::Within(kind, filling, types, sort)) => {
            if !is_label(shape) {
                return Ok(None);
            }
            label(kind, token, actions)?;
            frames.push(Frame::Within(kind, named(filling), types, sort))?;
            Ok(Some(Reading {
                expected: Expected::Operand,
                frames,
            }))
        }
        Some(Frame::Over(_, _)) | Some(Frame::Timing) | None => Ok(None),
    }
}

/// The name of an index behind `^ (`.
fn name_index<'a>(
    frames: Row<Frame>,
    shape: Shape,
    token: &'a Token,
    actions: &mut Row<Action<'a>>,
) -> Result<Option<Reading>, NoMemory>
    ensures { IfOk result (λ next. reached next actions.new
        ≡ parts.leads actions.old token.now (parts.name_index (reverse frames) shape)) }
{
    match shape {
        Shape::Single(Leaf::Low) => {
            index_label(frames.as_slice(), token, actions)?;
            Ok(Some(Reading {
                expected: Expected::Less,
                frames,
            }))
        }
        _ => Ok(None),
    }
}

/// The `<` behind `^ (` and the name of an index: the bound is due.
fn bound_index<'a>(
    base: Sort,
    frames: Row<Frame>,
    shape: Shape,
    token: &'a Token,
    actions: &mut Row<Action<'a>>,
) -> Result<Option<Reading>, NoMemory>
    ensures { IfOk result (λ next. reached next actions.new
        ≡ parts.leads actions.old token.now (parts.bound_index base (reverse frames) shape)) }
{
    match shape {
        Shape::Sign(mark) if is_less(mark) => {
            let sort = top(base, &frames);
            opened(PartKind::Below, sort, frames, token, actions)
        }
        _ => Ok(None),
    }
}

/// Takes one more token of a part, if it may stand there, and adds its actions.
pub(crate) fn step<'a>(
    base: Sort,
    reading: Reading,
    shape: Shape,
    token: &'a Token,
    actions: &mut Row<Action<'a>>,
) -> Result<Option<Reading>, NoMemory>
    ensures { IfOk result (λ next. reached next actions.new
        ≡ parts.leads actions.old token.now (parts.step base (reading_of reading) shape)) }
{
    let Reading { expected, frames } = reading;
    match expected {
        Expected::Operand => begin(base, frames, shape, token, actions),
        Expected::Next(part) => after(base, part, frames, shape, token, actions),
        Expected::Label => name_field(frames, shape, token, actions),
        Expected::Step(stepped) => in_path(base, stepped, frames, shape, token, actions),
        Expected::Index => name_index(frames, shape, token, actions),
        Expected::Less => bound_index(base, frames, shape, token, actions),
    }
}

/// The part that is read, where it may end here.
pub fn finish(reading: &Reading) -> Option<Part>
    ensures { result ≡ parts.finish (reading_of reading.now) }
{
    match reading.expected {
        Expected::Next(part) => ended(part, reading.frames.as_slice()),
        Expected::Operand
        | Expected::Label
        | Expected::Step(_)
        | Expected::Index
        | Expected::Less => None,
    }
}

/// The part with all that leads to it, where no bracket is open.
fn ended(part: Part, frames: &[Frame]) -> Option<Part>
    ensures { result ≡ parts.ended (parts.lower 0 20 part (reverse frames.now)) }
{
    let mut whole = part;
    let mut level = TIGHT;
    let mut rest = frames;
    'open: while let Some((frame, front)) = rest.split_last() {
        let Some(lead) = closes(*frame, 0) else {
            return None;
        };
        whole = Part::Whole;
        level = lead_level(lead);
        rest = front;
    }
    Some(whole)
}

/// Adds the actions of the end of a part.
pub fn end<'a>(reading: &Reading, actions: &mut Row<Action<'a>>) -> Result<(), NoMemory>
    ensures { IfOk result (λ _.
        actions.new ≡ actions.old ++ parts.finishing (reading_of reading.now)) }
{
    match reading.expected {
        Expected::Next(_) => end_leads(0, reading.frames.as_slice(), actions),
        Expected::Operand
        | Expected::Label
        | Expected::Step(_)
        | Expected::Index
        | Expected::Less => Ok(()),
    }
}
