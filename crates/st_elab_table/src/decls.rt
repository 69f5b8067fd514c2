//! What an expression may name.

use crate::named_row::NamedRow;
use st_il::{FunDef, RelationDef, Ty};
use st_num::{Dim, Name, Row};
use st_type_table::TypeTable;

/// The declarations of a specification.
#[derive(Drop)]
pub struct Decls {
    pub types: TypeTable,
    /// The types of names declared by `var`.
    pub vars: NamedRow<(Name, Ty)>,
    pub funs: NamedRow<FunDef>,
    pub relations: NamedRow<RelationDef>,
}

/// The variables of a rule or clause, and the iterations round an expression.
#[derive(Drop)]
pub struct Scope {
    /// Each variable with its type and its dimension, in the byte order of the names.
    pub variables: Row<(Name, Ty, Dim)>,
    /// The kinds of the iterations round the expression, outermost first.
    pub around: Dim,
}
