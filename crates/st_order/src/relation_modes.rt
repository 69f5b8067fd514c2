//! What is told of the relations of an internal language.

use st_num::Row;
use st_semantics::Unfit;

/// For each relation, in the order of the source, why it cannot be searched; and for each of its
/// rules, in that order, the numbers of its premises, counted from 1, in the order in which they
/// are run.
#[derive(Drop)]
pub struct Modes {
    pub marks: Row<Option<Unfit>>,
    /// None where the relation has no direction, or the rule no order.
    pub orders: Row<Row<Option<Row<u32>>>>,
}
