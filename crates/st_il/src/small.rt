//! Small specifications: one syntax of atoms, and one relation whose rules have no premises.

use st_num::{Name, Row};

/// A specification of one syntax of atoms, and one relation whose rules have no premises.
#[derive(Drop)]
pub struct Small {
    pub syntax: Name,
    pub atoms: Row<Name>,
    pub relation: Name,
    pub rules: Row<SmallRule>,
}

/// A rule of the relation: its name, and the atoms from which and to which it goes.
#[derive(Drop)]
pub struct SmallRule {
    pub name: Name,
    pub from: Name,
    pub to: Name,
}
