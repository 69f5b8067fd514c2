//! What a table keeps of a syntax.

use crate::key_index::KeyIndex;
use indexmap::IndexMap;
use st_il::{SyntaxBody, Ty};
use st_num::{Name, Row};

/// A case of a variant: its tag, and the types of its operands.
#[derive(Drop)]
pub struct CaseDef {
    pub tag: Name,
    pub operands: Row<Ty>,
}

/// A syntax: its body, and what was found out about it once.
#[derive(Drop)]
pub(crate) struct Entry {
    pub(crate) body: SyntaxBody,
    /// The names in an alias have smaller ranks than its own.
    pub(crate) rank: usize,
    /// The cases of a variant, with those that it includes.
    pub(crate) cases: Row<CaseDef>,
    /// The numbers of these cases by their keys.
    pub(crate) index: KeyIndex,
    /// More than 0 where this is a record that can be joined.
    pub(crate) join_rank: usize,
}

/// The syntaxes by their names, in the order of their definitions.
pub(crate) type Entries = IndexMap<Name, Entry>;
