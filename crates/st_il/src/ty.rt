//! Types of the internal language.

use st_num::{Boxed, Name, Row};

/// A type. A name is that of a syntax: an alias, a variant or a record.
#[derive(Drop)]
pub enum Ty {
    Bool,
    Nat,
    Int,
    Text,
    Name(Name),
    List(Boxed<Ty>),
    Opt(Boxed<Ty>),
    Tuple(Row<Ty>),
}

/// The type at which arithmetic is done.
#[derive(Clone, Copy, Debug, PartialEq, Eq)]
pub enum NumTy {
    Nat,
    Int,
}
