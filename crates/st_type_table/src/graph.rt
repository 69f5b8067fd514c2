//! Graphs of definitions: which have ranks, and which have a number.

ghost use Rattle.std.specs.Prelude.{◌≡◌, ◌↔◌, ◌<◌, IsTrue, Some, slice_get, slice_index};

use st_num::Row;

/// The definitions that one waits for, by their numbers, or none where it waits for ever.
pub(crate) type Node = Option<Row<usize>>;

/// Whether the definition of this number has a rank, and so comes to an end.
pub(crate) fn is_ranked(ranks: &[usize], position: usize) -> bool
    ensures { IsTrue result ↔ (0 < slice_index ranks.now position) }
{
    match ranks.get(position) {
        Some(rank) => *rank > 0,
        None => false,
    }
}

/// Whether the definition at this position has this number.
pub(crate) fn is_numbered(numbers: &[usize], own: usize, position: usize) -> bool
    ensures { IsTrue result ↔ (slice_get numbers.now position ≡ Some own) }
{
    match numbers.get(position) {
        Some(number) => *number == own,
        None => false,
    }
}
