//! Derivation trees.

use crate::{Env, Value};
use st_num::{Boxed, Row};

/// A derivation: a relation and a rule of it by their numbers, the values of the rule's variables,
/// a value for each hole of its conclusion, and a child for each of its premises that cites a
/// relation.
#[cycle(tree)]
#[derive(Drop)]
pub struct Tree {
    pub relation: u32,
    pub rule: u32,
    pub env: Env,
    pub values: Row<Value>,
    pub children: Row<Child>,
}

/// What stands for a premise: one derivation, or a child for each element of an iteration.
#[cycle(tree)]
#[derive(Drop)]
pub enum Child {
    One(Boxed<Tree>),
    Many(Row<Child>),
}
