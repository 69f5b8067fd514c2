//! What is kept of a reading: what is open, and what later tokens ask of a part that is read.

use st_grammar::{Bracket, Closing, Leaf, Sort};
use st_num::{Mark, Row};

/// A token as the grammar sees it, and whether it touches what stands before it.
#[derive(Clone, Copy, Debug, PartialEq, Eq)]
pub enum Shape {
    Single(Leaf),
    Dot(bool),
    Sign(Mark),
    Open(Bracket, bool),
    Close(Closing),
    Other,
}

/// What later tokens ask of a part: a function takes arguments, an atom goes on behind dots that
/// touch it, and a type is iterated and may be a parameter.
#[derive(Clone, Copy, Debug, PartialEq, Eq)]
pub enum Part {
    Function,
    Atom,
    /// Names that are an atom in a notation alone: the first is declared by `var`, or a dot between
    /// them does not touch.
    Names,
    /// A name or parentheses, and whether all of it reads as a type.
    Typ(bool),
    Whole,
}

/// What stands before the parts of a bracket.
#[derive(Clone, Copy, Debug, PartialEq, Eq)]
pub enum PartKind {
    Plain(Bracket),
    Length,
    Arguments,
    Index,
    Segment,
    /// The new value behind a path and this sign of change.
    Update(Mark),
    Below,
}

/// How far a bracket is filled.
#[derive(Clone, Copy, Debug, PartialEq, Eq)]
pub enum Filling {
    Empty,
    /// Only what sets off the first part.
    Begun,
    /// One part or more.
    Parts,
}

/// What waits for the part that is read, as the last of its own: a sign for its right side, or a
/// sequence for its next element.
#[derive(Clone, Copy, Debug, PartialEq, Eq)]
pub enum Lead {
    /// A left side and its sign.
    Left(Mark),
    /// A sign that has no left side.
    Ahead(Mark),
    /// The elements of a sequence.
    Items,
}

/// What is open, with the sort of the position in it.
#[derive(Clone, Copy, Debug, PartialEq, Eq)]
pub enum Frame {
    /// A bracket, how far it is filled, and whether all of its parts read as types.
    Within(PartKind, Filling, bool, Sort),
    Over(Lead, Sort),
    /// A part and `^`.
    Timing,
}

/// What is expected next in a part.
#[derive(Clone, Copy, Debug, PartialEq, Eq)]
pub enum Expected {
    Operand,
    /// This part is read.
    Next(Part),
    /// The name of a field, in the innermost bracket.
    Label,
    /// A step of a path, and whether there is one.
    Step(bool),
    /// The name behind `^ (`.
    Index,
    /// The `<` behind that name.
    Less,
}

/// How far a part is read: what is expected, and what is open, the innermost last.
#[derive(Drop)]
pub struct Reading {
    pub expected: Expected,
    pub frames: Row<Frame>,
}
