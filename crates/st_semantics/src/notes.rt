//! What is noted of the lines that were accepted.

use st_il::Value;
use st_num::{Name, Row};

/// A relation and the values of its holes.
#[derive(Drop)]
pub struct Judgement {
    pub relation: Name,
    pub values: Row<Value>,
}

/// What is noted of the lines so far.
#[derive(Drop)]
pub struct Notes {
    /// Of each line, in order: the judgement of a node, and `None` where it is no node.
    pub lines: Row<Option<Judgement>>,
    /// The relation of the first line.
    pub relation: Option<Name>,
    /// The current term, from the second line on.
    pub term: Option<Row<Value>>,
    pub steps: u64,
    /// Whether the end line was taken.
    pub ended: bool,
}
