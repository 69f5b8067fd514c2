//! What groups cite, by their ranks.

ghost use Rattle.std.specs.Prelude.{◌≡◌, ◌<◌, ◌++◌, ℕ, length, slice_get, option_to_list, Some, IfOk, OnOk};
ghost use Rattle.st_deps.specs.inner.Condensation.{other_rank, other_ranks, IsCondensation};

use crate::table::empty_rows;
use st_num::{NoMemory, Row};
use std::alloc::Global;

/// The rank of a definition, unless it is in this group.
fn other_rank(ranks: &[usize], group: usize, node: usize) -> Option<usize>
    ensures { result ≡ other_rank ranks.now group node }
{
    match ranks.get(node) {
        Some(rank) if *rank != group => Some(*rank),
        _ => None,
    }
}

/// Adds the rank of a definition, unless it is in this group.
fn add_rank(
    ranks: &[usize],
    group: usize,
    node: usize,
    row: &mut Row<usize>,
) -> Result<(), NoMemory>
    ensures { OnOk result
        (row.new ≡ row.old ++ option_to_list (other_rank ranks.now group node)) }
{
    if let Some(rank) = other_rank(ranks, group, node) {
        row.push(rank)?;
    }
    Ok(())
}

/// Adds the ranks of those definitions that are not in this group.
fn add_ranks(
    ranks: &[usize],
    group: usize,
    nodes: &[usize],
    row: &mut Row<usize>,
) -> Result<(), NoMemory>
    ensures { OnOk result (row.new ≡ row.old ++ other_ranks ranks.now group nodes.now) }
{
    for node in nodes {
        add_rank(ranks, group, *node, row)?;
    }
    Ok(())
}

/// For each group the ranks of the others that it cites.
pub(crate) fn condensation(
    alloc: Global,
    graph: &[Row<usize>],
    ranks: &[usize],
    count: usize,
) -> Result<Vec<Row<usize>>, NoMemory>
    requires size { length ranks.now ≡ length graph.now }
    requires within { (i c : ℕ) → slice_get ranks.now i ≡ Some c → c < count }
    ensures { IfOk result (λ rows. IsCondensation graph.now ranks.now count rows.items) }
{
    let mut rows = empty_rows(alloc, count)?;
    for node in 0..graph.len() {
        let group = ranks[node];
        add_ranks(ranks, group, graph[node].as_slice(), &mut rows[group])?;
    }
    Ok(rows)
}
