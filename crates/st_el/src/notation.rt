//! Notations as they are written: those of relations and of the alternatives of a syntax.

use crate::Typ;
use st_num::{Boxed, Mark, Name, Row, Span};

/// A notation with the place of its first character.
#[cycle(notation)]
#[derive(Drop)]
pub struct Notation {
    pub at: Span,
    pub node: NotNode,
}

/// What a notation is. A sequence has two elements or more, or none where it is the absent left
/// side of `|-`; a bracket is named by its opening sign.
#[cycle(notation)]
#[derive(Drop)]
pub enum NotNode {
    Atom(Name),
    Hole(Typ),
    Seq(Row<Notation>),
    Infix(Boxed<Notation>, Mark, Boxed<Notation>),
    Bracket(Mark, Boxed<Notation>),
}
