//! Types as they are written.

use st_num::{Boxed, Name, Row, Span};

/// A type with the place of its first character.
#[cycle(typ)]
#[derive(Drop)]
pub struct Typ {
    pub at: Span,
    pub node: TypNode,
}

/// What a type is. A name is that of a syntax, and a tuple has two parts or more.
#[cycle(typ)]
#[derive(Drop)]
pub enum TypNode {
    Bool,
    Nat,
    Int,
    Text,
    Name(Name),
    Star(Boxed<Typ>),
    Quest(Boxed<Typ>),
    Tuple(Row<Typ>),
}
