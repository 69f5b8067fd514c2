//! What a token does in a part.

ghost use Rattle.std.specs.Prelude.{◌≡◌, reverse};
ghost use Rattle.st_parse_faults.specs.inner.Roles as roles;
ghost use Rattle.st_parse_automaton.specs.inner.Readings.{progress_of, reading_of};

use st_grammar::{Bracket, Closing, Sort};
use st_num::{Mark, Row};
use st_parse_automaton::{
    Expected, Frame, Lead, Part, Progress, Reading, Shape, follows, slot_sort, top,
};

/// How a token stands in a part.
#[derive(Clone, Copy, Debug, PartialEq, Eq)]
pub enum Attachment {
    /// It begins an operand.
    Begins,
    /// It is behind one.
    Behind,
    /// It is the name of a field.
    Names,
    /// It belongs to the name of an atom, to a path, or to a count behind `^`.
    Other,
}

/// What a token adds to the tally between the same brackets.
#[derive(Clone, Copy, Debug, PartialEq, Eq)]
pub enum TokenRole {
    Operand,
    Prefix,
    Infix,
    Postfix,
    /// What sets off a next part.
    Separator,
    /// The name of a field.
    Label,
    Nothing,
}

/// What a token opens or closes.
#[derive(Clone, Copy, Debug, PartialEq, Eq)]
pub enum Shift {
    Opens,
    OpensLength,
    Closes,
    ClosesLength,
    Stays,
}

/// Whether a part begins, and nothing of it is read.
pub(crate) fn none_open(reading: &Reading) -> bool
    ensures { result ≡ roles.none_open (reading_of reading.now) }
{
    match reading.expected {
        Expected::Operand => match reading.frames.as_slice().last() {
            None => true,
            Some(_) => false,
        },
        Expected::Next(_)
        | Expected::Label
        | Expected::Step(_)
        | Expected::Index
        | Expected::Less => false,
    }
}

/// Whether a count behind `^` is due.
fn is_timing(frames: &Row<Frame>) -> bool
    ensures { result ≡ roles.is_timing (reverse frames.now) }
{
    match frames.as_slice().last() {
        Some(frame) => matches!(*frame, Frame::Timing),
        None => false,
    }
}

/// How a token stands behind `[` and no step of a path.
fn head_attachment(shape: Shape) -> Attachment
    ensures { result ≡ roles.head_attachment shape }
{
    match shape {
        Shape::Dot(_) | Shape::Open(Bracket::Square, _) => Attachment::Other,
        Shape::Open(_, _) | Shape::Single(_) | Shape::Sign(_) | Shape::Close(_) | Shape::Other =>
            Attachment::Begins,
    }
}

/// Whether the part is an atom outside notations.
fn is_atom(part: Part) -> bool
    ensures { result ≡ roles.is_atom part }
{
    matches!(part, Part::Atom)
}

/// Whether a dot behind a part, which it touches or not, goes on with the name of an atom.
fn dot_goes_on(sort: Sort, part: Part, touching: bool) -> bool
    ensures { result ≡ roles.dot_goes_on sort part touching }
{
    match sort {
        Sort::Notation => true,
        Sort::Expression(_) | Sort::Arithmetic | Sort::Typ | Sort::Count | Sort::Bound => {
            is_atom(part) && touching
        }
    }
}

/// Whether a token behind a part goes on with the name of an atom.
fn is_in_name(sort: Sort, part: Part, shape: Shape) -> bool
    ensures { result ≡ roles.is_in_name sort part shape }
{
    match shape {
        Shape::Dot(touching) => dot_goes_on(sort, part, touching),
        Shape::Open(_, _) | Shape::Single(_) | Shape::Sign(_) | Shape::Close(_) | Shape::Other => {
            false
        }
    }
}

/// How a token stands behind a part.
fn next_attachment(sort: Sort, part: Part, shape: Shape) -> Attachment
    ensures { result ≡ roles.next_attachment sort part shape }
{
    if follows(sort, part, shape) {
        Attachment::Begins
    } else if is_in_name(sort, part, shape) {
        Attachment::Other
    } else {
        Attachment::Behind
    }
}

/// How a token stands in a part, where this much of it is read.
fn part_attachment(base: Sort, reading: &Reading, shape: Shape) -> Attachment
    ensures { result ≡ roles.part_attachment base (reading_of reading.now) shape }
{
    match reading.expected {
        Expected::Operand => {
            if is_timing(&reading.frames) {
                Attachment::Other
            } else {
                Attachment::Begins
            }
        }
        Expected::Next(part) => next_attachment(top(base, &reading.frames), part, shape),
        Expected::Label => Attachment::Names,
        Expected::Step(false) => head_attachment(shape),
        Expected::Step(true) | Expected::Index | Expected::Less => Attachment::Other,
    }
}

/// How a token stands where this much of the definitions is read.
pub(crate) fn attachment_of(progress: &Progress, shape: Shape) -> Attachment
    ensures { result ≡ roles.attachment_of (progress_of progress.now) shape }
{
    match progress {
        Progress::At(_) => Attachment::Begins,
        Progress::Inside(slot, reading, _) => part_attachment(slot_sort(*slot), reading, shape),
    }
}

/// What a token that begins an operand adds to the tally.
fn first_role(shape: Shape) -> TokenRole
    ensures { result ≡ roles.first_role shape }
{
    match shape {
        Shape::Single(_) | Shape::Open(_, _) | Shape::Close(Closing::ByBar) => TokenRole::Operand,
        Shape::Sign(mark) => {
            if matches!(mark, Mark::Turnstile) {
                TokenRole::Infix
            } else {
                TokenRole::Prefix
            }
        }
        Shape::Close(_) | Shape::Dot(_) | Shape::Other => TokenRole::Nothing,
    }
}

/// What a sign behind an operand adds to the tally, by the reading behind it.
fn sign_role(next: &Reading) -> TokenRole
    ensures { result ≡ roles.sign_role (reading_of next.now) }
{
    match next.expected {
        Expected::Next(_) => TokenRole::Postfix,
        Expected::Operand => match next.frames.as_slice().last() {
            Some(Frame::Timing) => TokenRole::Postfix,
            Some(Frame::Over(Lead::Left(_), _)) => TokenRole::Infix,
            _ => TokenRole::Separator,
        },
        Expected::Label | Expected::Step(_) | Expected::Index | Expected::Less =>
            TokenRole::Separator,
    }
}

/// What a token behind an operand adds to the tally, by the reading behind it.
fn behind_role(shape: Shape, next: &Reading) -> TokenRole
    ensures { result ≡ roles.behind_role shape (reading_of next.now) }
{
    match shape {
        Shape::Dot(_) | Shape::Open(Bracket::Square, _) => TokenRole::Postfix,
        Shape::Sign(_) => sign_role(next),
        Shape::Open(_, _) | Shape::Single(_) | Shape::Close(_) | Shape::Other => TokenRole::Nothing,
    }
}

/// What a token adds to the tally, by how it stands and the reading behind it.
pub(crate) fn role_of(attachment: Attachment, shape: Shape, next: &Reading) -> TokenRole
    ensures { result ≡ roles.role_of attachment shape (reading_of next.now) }
{
    match attachment {
        Attachment::Begins => first_role(shape),
        Attachment::Behind => behind_role(shape, next),
        Attachment::Names => TokenRole::Label,
        Attachment::Other => TokenRole::Nothing,
    }
}

/// What a token opens or closes, by the reading behind it: an operand is due behind a bar that
/// opens.
pub(crate) fn shift_of(shape: Shape, next: &Reading) -> Shift
    ensures { result ≡ roles.shift_of shape (reading_of next.now) }
{
    match shape {
        Shape::Open(_, _) => Shift::Opens,
        Shape::Close(Closing::ByBar) => match next.expected {
            Expected::Operand => Shift::OpensLength,
            Expected::Next(_)
            | Expected::Label
            | Expected::Step(_)
            | Expected::Index
            | Expected::Less => { Shift::ClosesLength }
        },
        Shape::Close(_) => Shift::Closes,
        Shape::Single(_) | Shape::Dot(_) | Shape::Sign(_) | Shape::Other => Shift::Stays,
    }
}
