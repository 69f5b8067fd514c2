//! The lines of a derivation.

use st_il::{Env, Value};
use st_num::{Name, Row};

/// A line of a derivation. Lines are numbered from 1.
#[derive(Drop)]
pub enum Line {
    /// The first line: the number of the format, and the relation.
    Head { format: u8, relation: Name },
    /// The second line: the term at which the run begins, a value for each input.
    From(Row<Value>),
    Node(NodeLine),
    /// A step of the run, by the number of its node's line.
    Step(u128),
    End(Ending),
}

/// A node of a derivation tree: the values of its rule's variables in byte order, a child for each
/// premise that cites a relation, and the values of all holes of the conclusion.
#[derive(Drop)]
pub struct NodeLine {
    pub relation: Name,
    pub rule: Name,
    pub env: Env,
    pub children: Row<Ref>,
    pub values: Row<Value>,
    /// Of a rule with `otherwise`: for each earlier rule, its premise numbers in an order.
    pub evidence: Option<Row<Row<u32>>>,
}

/// A child: the line of an earlier node, or a child for each element of an iteration.
#[derive(Drop)]
pub enum Ref {
    Line(u128),
    Many(Row<Ref>),
}

/// How a run ended.
#[derive(Clone, Copy)]
pub enum Ending {
    Stuck,
    Fuel,
    Depth,
}
