//! The ranks of the nodes of a graph, by passes over it.

ghost use Rattle.std.specs.Prelude.{◌≡◌, ◌↔◌, ◌<◌, ◌≤◌, ◌+◌, IsTrue, IfOk, length, replicate, slice_index};
ghost use Rattle.st_type_table.specs.inner.Graph.{AllRanked, AreRanks, IsClosed, SoFar};
ghost use Rattle.st_any_table.specs.inner.Ranks.{HaveRanks, IsRanked};

use st_num::{NoMemory, Row};
use std::alloc::Global;

/// What a node waits for, by numbers of nodes, or none where it waits for ever.
pub(crate) type Node = Option<Row<usize>>;

/// Whether the node of this number has a rank, and so comes to an end.
pub(crate) fn is_ranked(ranks: &[usize], position: usize) -> bool
    ensures { IsTrue result ↔ (0 < slice_index ranks.now position) }
{
    match ranks.get(position) {
        Some(rank) => *rank > 0,
        None => false,
    }
}

/// Whether all these nodes have ranks.
fn all_ranked(positions: &[usize], ranks: &[usize]) -> bool
    ensures { IsTrue result ↔ HaveRanks ranks.now positions.now }
{
    for position in positions {
        if !is_ranked(ranks, *position) {
            return false;
        }
    }
    true
}

/// Whether all that a node waits for have ranks.
fn is_ready(node: &Node, ranks: &[usize]) -> bool
    ensures { IsTrue result ↔ AllRanked node.now ranks.now }
{
    match node {
        Some(positions) => all_ranked(positions.as_slice(), ranks),
        None => false,
    }
}

/// Whether a node has no rank. There is room for one more then.
fn is_unranked(graph: &[Node], ranks: &[usize], at: usize, count: usize) -> bool
    requires so_far { SoFar graph.now ranks.now count }
    requires within { at < length graph.now }
    ensures exact { IsTrue result ↔ (slice_index ranks.now at ≡ 0) }
    ensures room { IsTrue result → count < length ranks.now }
{
    !is_ranked(ranks, at)
}

/// Gives the next rank to a node, where it has none and all that it waits for have one; and how
/// many have ranks then.
fn rank_one(graph: &[Node], ranks: &mut [usize], at: usize, count: usize) -> usize
    requires so_far { SoFar graph.now ranks.old count }
    requires within { at < length graph.now }
    ensures so_far { SoFar graph.now ranks.new result }
    ensures ranked { IsRanked graph.now at ranks.old count ranks.new result }
{
    if !is_unranked(graph, ranks, at, count) {
        return count;
    }
    if !is_ready(&graph[at], ranks) {
        return count;
    }
    ranks[at] = count + 1;
    count + 1
}

/// Gives ranks in one pass, from the last node to the first, and how many have ranks then.
fn pass(graph: &[Node], ranks: &mut [usize], before: usize) -> usize
    requires { SoFar graph.now ranks.old before }
    ensures so_far { SoFar graph.now ranks.new result }
    ensures more { before ≤ result }
    ensures closed { result ≡ before → IsClosed graph.now ranks.new }
{
    let mut count = before;
    let mut at = graph.len();
    'nodes: while at > 0 {
        at -= 1;
        count = rank_one(graph, ranks, at, count);
    }
    count
}

/// So many ranks, of which none is known yet.
fn zeros(alloc: Global, len: usize) -> Result<Vec<usize>, NoMemory>
    ensures { IfOk result (λ zeros. zeros.items ≡ replicate len 0) }
{
    let zeros = vec![in alloc; 0usize; len]?;
    Ok(zeros)
}

/// The ranks of all nodes that end: each has more than all that it waits for. Passes go against
/// the order of nodes, so that one is enough where each waits for later ones.
pub(crate) fn settle(alloc: Global, graph: &[Node]) -> Result<Row<usize>, NoMemory>
    ensures { IfOk result (λ ranks. AreRanks graph.now ranks) }
{
    let mut ranks = zeros(alloc, graph.len())?;
    let mut count = 0;
    let mut more = pass(graph, &mut ranks, 0);
    'passes: while more > count {
        count = more;
        more = pass(graph, &mut ranks, count);
    }
    Ok(Row::from_vec(ranks))
}
