//! Definitions and premises as they are written.

use crate::{Count, Exp, Notation, Typ};
use st_num::{Boxed, Name, Row, Span, Token};

/// A definition with the place of its first word and its hints.
#[derive(Drop)]
pub struct Def {
    pub at: Span,
    pub hints: Row<Hint>,
    pub node: DefNode,
}

/// A hint: its name, and the tokens behind the name.
#[derive(Drop)]
pub struct Hint {
    pub name: Name,
    pub words: Row<Token>,
}

/// What a definition is. A rule without a name has the empty name, and the name of a function is
/// kept without `$`.
#[derive(Drop)]
pub enum DefNode {
    Syntax {
        name: Name,
        fragment: Option<Name>,
        body: Body,
    },
    Var {
        name: Name,
        typ: Typ,
    },
    Relation {
        name: Name,
        notation: Notation,
    },
    Rule {
        relation: Name,
        name: Name,
        conclusion: Exp,
        premises: Row<Prem>,
    },
    Fun {
        name: Name,
        params: Row<Typ>,
        result: Typ,
    },
    Clause {
        name: Name,
        args: Row<Exp>,
        result: Exp,
        premises: Row<Prem>,
    },
}

/// The body of a syntax.
#[derive(Drop)]
pub enum Body {
    Alias(Typ),
    /// The alternatives, and whether `...` stands before and after them.
    Cases {
        before: bool,
        cases: Row<Notation>,
        after: bool,
    },
    /// The fields in declared order.
    Fields(Row<(Name, Typ)>),
}

/// A premise with the place of its first token.
#[cycle(premise)]
#[derive(Drop)]
pub struct Prem {
    pub at: Span,
    pub node: PremNode,
}

/// What a premise is.
#[cycle(premise)]
#[derive(Drop)]
pub enum PremNode {
    If(Exp),
    /// A judgement of the named relation.
    Goal(Name, Exp),
    Otherwise,
    /// A premise for each element of the lists that the iteration goes over.
    Each(Boxed<Prem>, Count),
}
