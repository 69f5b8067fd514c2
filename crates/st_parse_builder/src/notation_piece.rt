//! What stands on the stack while a type or a notation is built.

use st_el::{Notation, Typ};
use st_num::{Row, Span};

/// A piece of a type or a notation that is built.
#[derive(Drop)]
pub enum NotationPiece {
    /// A finished type, which may be iterated further, and where its text begins.
    Hole(Span, Typ),
    /// A finished notation that is no type alone.
    Whole(Notation),
    /// Types in parentheses so far, and where they begin.
    Types(Span, Row<Typ>),
    /// The elements of a sequence so far, and where they begin.
    Elements(Span, Row<Notation>),
    /// What begins at this place.
    From(Span),
}
