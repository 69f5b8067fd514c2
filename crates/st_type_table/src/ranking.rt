//! The ranks of definitions, by one walk over the graph with a path of its own.

ghost use Rattle.std.specs.Prelude.{◌≡◌, ◌<◌, ◌+◌, ◌*◌, ℕ, IfOk, OnOk, [], length, replicate, slice_get, slice_index, Some, true};
ghost use Rattle.st_type_table.specs.inner.Graph.{AreRanks, mark, unmarked};
ghost use Rattle.st_type_table.specs.inner.Ranking.{Advances, ComesTo, IsRanking, IsTop, MarksMore, RankedTo};

use crate::graph::{Node, is_ranked};
use crate::search::unmarked;
use st_num::{NoMemory, Row};
use std::alloc::Global;

/// The number of the first of these definitions that has no rank, where those before this one have.
fn first_unranked(positions: &[usize], ranks: &[usize], from: usize) -> usize
    requires { RankedTo positions.now ranks.now from }
    ensures ranked { RankedTo positions.now ranks.now result }
    ensures stops { (j : ℕ) → slice_get positions.now result ≡ Some j → slice_index ranks.now j ≡ 0 }
{
    for at in from..positions.len() {
        if !is_ranked(ranks, positions[at]) {
            return at;
        }
    }
    positions.len()
}

/// The walk comes to a definition. Where it is new, it waits at the end of the path; where it was
/// seen before, or is none, all on the path are stuck.
fn come_to(seen: &mut [bool], path: &mut Vec<usize>, next: usize) -> Result<(), NoMemory>
    ensures { OnOk result (ComesTo seen.old path.old.items next seen.new path.new.items) }
{
    if next < seen.len() && !seen[next] {
        seen[next] = true;
        match path.push(next) {
            Ok(()) => return Ok(()),
            Err(_) => return Err(NoMemory),
        }
    }
    path.clear();
    Ok(())
}

/// The next of those that a definition waits for that has no rank, where there is one.
fn advance(positions: &[usize], ranks: &[usize], top: usize, passed: &mut [usize]) -> Option<usize>
    requires within { top < length passed.old }
    requires ranked { RankedTo positions.now ranks.now (slice_index passed.old top) }
    ensures { Advances positions.now ranks.now top passed.old passed.new result }
{
    let at = first_unranked(positions, ranks, passed[top]);
    passed[top] = at;
    if at < positions.len() {
        return Some(positions[at]);
    }
    None
}

/// The last definition on the path.
fn top_of(
    graph: &[Node],
    ranks: &[usize],
    seen: &[bool],
    passed: &[usize],
    path: &Vec<usize>,
    count: usize,
) -> usize
    requires ranking { IsRanking graph.now ranks.now count seen.now passed.now path.now.items }
    requires some { 0 < length path.now.items }
    ensures { IsTop graph.now ranks.now passed.now path.now.items count result }
{
    path[path.len() - 1]
}

/// One step of the walk, at the last definition on the path, and how many have ranks then.
fn step(
    graph: &[Node],
    ranks: &mut [usize],
    seen: &mut [bool],
    passed: &mut [usize],
    path: &mut Vec<usize>,
    count: usize,
) -> Result<usize, NoMemory>
    requires ranking { IsRanking graph.now ranks.old count seen.old passed.old path.old.items }
    requires some { 0 < length path.old.items }
    ensures ranking { IfOk result
        (λ more. IsRanking graph.now ranks.new more seen.new passed.new path.new.items) }
    ensures falls { OnOk result (2 * unmarked seen.new + length path.new.items
        < 2 * unmarked seen.old + length path.old.items) }
    ensures more { OnOk result (MarksMore seen.old seen.new) }
{
    let top = top_of(graph, ranks, seen, passed, path, count);
    match &graph[top] {
        None => {
            path.clear();
            Ok(count)
        }
        Some(positions) => match advance(positions.as_slice(), ranks, top, passed) {
            Some(next) => {
                come_to(seen, path, next)?;
                Ok(count)
            }
            None => {
                ranks[top] = count + 1;
                path.truncate(path.len() - 1);
                Ok(count + 1)
            }
        },
    }
}

/// Walks from a definition as far as it leads, and gives how many have ranks then.
fn walk_from(
    alloc: Global,
    graph: &[Node],
    ranks: &mut [usize],
    seen: &mut [bool],
    passed: &mut [usize],
    before: usize,
    start: usize,
) -> Result<usize, NoMemory>
    requires ranking { IsRanking graph.now ranks.old before seen.old passed.old [] }
    requires within { start < length graph.now }
    ensures ranking { IfOk result
        (λ more. IsRanking graph.now ranks.new more seen.new passed.new []) }
    ensures come { OnOk result (mark seen.new start ≡ true) }
    ensures more { OnOk result (MarksMore seen.old seen.new) }
{
    let mut path = Vec::new(alloc);
    come_to(seen, &mut path, start)?;
    let mut count = before;
    'walk: while path.len() > 0 {
        count = step(graph, ranks, seen, passed, &mut path, count)?;
    }
    Ok(count)
}

/// Walks from all definitions. Each that ends has a rank then.
fn walk(
    alloc: Global,
    graph: &[Node],
    ranks: &mut [usize],
    seen: &mut [bool],
    passed: &mut [usize],
) -> Result<(), NoMemory>
    requires { IsRanking graph.now ranks.old 0 seen.old passed.old [] }
    ensures { OnOk result (AreRanks graph.now ranks.new) }
{
    let mut count = 0;
    for start in 0..graph.len() {
        count = walk_from(alloc, graph, ranks, seen, passed, count, start)?;
    }
    Ok(())
}

/// So many ranks, of which none is known yet.
fn zeros(alloc: Global, len: usize) -> Result<Vec<usize>, NoMemory>
    ensures { IfOk result (λ zeros. zeros.items ≡ replicate len 0) }
{
    let zeros = vec![in alloc; 0usize; len]?;
    Ok(zeros)
}

/// The ranks of all definitions that end: each has more than all that it waits for.
pub(crate) fn settle(alloc: Global, graph: &[Node]) -> Result<Row<usize>, NoMemory>
    ensures { IfOk result (λ ranks. AreRanks graph.now ranks) }
{
    let mut ranks = zeros(alloc, graph.len())?;
    let mut passed = zeros(alloc, graph.len())?;
    let mut seen = unmarked(alloc, graph.len())?;
    walk(alloc, graph, &mut ranks, &mut seen, &mut passed)?;
    Ok(Row::from_vec(ranks))
}
