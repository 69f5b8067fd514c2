//! What is known of the definitions that are read.

use st_el::{Def, Exp, Hint, Notation, Prem, Typ};
use st_num::{Name, Row, Span};

/// The place of the first word, the name behind it, and the name of the fragment or rule so far.
#[derive(Drop)]
pub struct Head {
    pub at: Span,
    pub name: Name,
    pub id: Option<Name>,
}

/// Fields or alternatives so far, the name of the field that is read, and whether dots stand
/// before the alternatives. The notation of a relation is kept as an alternative.
#[derive(Drop)]
pub struct Members {
    pub label: Name,
    pub fields: Row<(Name, Typ)>,
    pub dots: bool,
    pub notations: Row<Notation>,
}

/// The parameters or arguments of a function, and the type, conclusion or result.
#[derive(Drop)]
pub struct Sides {
    pub clause: bool,
    pub params: Row<Typ>,
    pub args: Row<Exp>,
    pub typ: Option<Typ>,
    pub exp: Option<Exp>,
}

/// Whole premises, and of the open one the places of its `--`, of each `(` and of its condition,
/// the relation that it names, and the premise so far.
#[derive(Drop)]
pub struct Premises {
    pub whole: Row<Prem>,
    pub at: Span,
    pub opened: Row<Span>,
    pub start: Span,
    pub goal: Option<Name>,
    pub prem: Option<Prem>,
}

/// Whole definitions, and what is known of the open one. A hint is that which is read.
#[derive(Drop)]
pub struct Draft {
    pub defs: Row<Def>,
    pub head: Head,
    pub hints: Row<Hint>,
    pub hint: Hint,
    pub members: Members,
    pub sides: Sides,
    pub premises: Premises,
}
