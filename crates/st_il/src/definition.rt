//! Definitions of the internal language, in the order of their source.

use crate::{IlExp, IlPrem, Ty};
use st_num::{Dim, Name, Row};

/// A specification in the internal language.
#[derive(Drop)]
pub struct Il {
    pub defs: Row<IlDef>,
}

/// A definition, in the order of the source.
#[derive(Drop)]
pub enum IlDef {
    Syntax(SyntaxDef),
    /// A variable name and its type.
    Var(Name, Ty),
    Relation(RelationDef),
    Rule(RuleDef),
    Fun(FunDef),
    Clause(ClauseDef),
}

/// A syntax: the name of a type, and which values it has.
#[derive(Drop)]
pub struct SyntaxDef {
    pub name: Name,
    pub body: SyntaxBody,
}

/// Which values a syntax has: those of another type, cases by their tags, or records.
#[derive(Drop)]
pub enum SyntaxBody {
    Alias(Ty),
    Variant(Row<Alternative>),
    /// The fields in declared order.
    Fields(Row<(Name, Ty)>),
}

/// An alternative of a variant.
#[derive(Drop)]
pub enum Alternative {
    /// A case: its tag, and the types of its operands.
    Case(Name, Row<Ty>),
    /// All cases of another variant.
    Incl(Name),
}

/// A relation. `holes` are the types of its tag's holes; in `mode` true stands for an input, and
/// an empty `mode` for no hint.
#[derive(Drop)]
pub struct RelationDef {
    pub name: Name,
    pub tag: Name,
    pub holes: Row<Ty>,
    pub mode: Row<bool>,
}

/// A variable of a rule or a clause, with its type and its dimension.
#[derive(Drop)]
pub struct Listed {
    pub name: Name,
    pub ty: Ty,
    pub dim: Dim,
}

/// A rule of a relation. The variables stand in byte order of their names, and the conclusion has
/// an expression for each hole of the relation.
#[derive(Drop)]
pub struct RuleDef {
    pub relation: Name,
    pub name: Name,
    pub variables: Row<Listed>,
    pub conclusion: Row<IlExp>,
    pub premises: Row<IlPrem>,
}

/// A function: the types of its arguments and of its result. Its clauses are definitions of their
/// own.
#[derive(Drop)]
pub struct FunDef {
    pub name: Name,
    pub params: Row<Ty>,
    pub result: Ty,
}

/// A clause of a function.
#[derive(Drop)]
pub struct ClauseDef {
    pub fun: Name,
    pub variables: Row<Listed>,
    pub args: Row<IlExp>,
    pub result: IlExp,
    pub premises: Row<IlPrem>,
}
