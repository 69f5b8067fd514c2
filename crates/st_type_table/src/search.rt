//! What leads to a definition, found by a search against the arrows of the graph.

ghost use Rattle.std.specs.Prelude.{◌≡◌, ◌<◌, ◌-◌, ◌↔◌, ℕ, IfOk, OnOk, Some, [], length, map, replicate, slice_get, true, false};
ghost use Rattle.st_type_table.specs.inner.Graph.{LeadsAt, mark};
ghost use Rattle.st_type_table.specs.inner.Search.{AddsArrow, AddsArrows, IsReversed, IsSearch, MarksAll, MarksOne, as_number};

use crate::graph::Node;
use st_num::{NoMemory, Row};
use std::alloc::Global;

/// To each of so many definitions no arrow is kept yet.
fn no_arrows(alloc: Global, len: usize) -> Result<Vec<Row<usize>>, NoMemory>
    ensures { IfOk result (λ back. back.items ≡ replicate len []) }
{
    let mut back = Vec::new(alloc);
    'rows: while back.len() < len {
        back.push(Row::new(alloc))?;
    }
    Ok(back)
}

/// Keeps an arrow from a definition at a position, where there is one.
fn add_arrow(position: usize, from: usize, back: &mut [Row<usize>]) -> Result<(), NoMemory>
    ensures { OnOk result (AddsArrow position from back.old back.new) }
{
    if position < back.len() {
        back[position].push(from)?;
    }
    Ok(())
}

/// Keeps an arrow from a definition at each of these positions.
fn add_arrows(positions: &[usize], from: usize, back: &mut [Row<usize>]) -> Result<(), NoMemory>
    ensures { OnOk result (AddsArrows positions.now from back.old back.new) }
{
    for position in positions {
        add_arrow(*position, from, back)?;
    }
    Ok(())
}

/// Keeps the arrows of a graph at where they lead.
fn add_all_arrows(graph: &[Node], back: &mut [Row<usize>]) -> Result<(), NoMemory>
    requires { back.old ≡ replicate (length graph.now) [] }
    ensures { OnOk result (IsReversed graph.now back.new) }
{
    for from in 0..graph.len() {
        if let Some(positions) = &graph[from] {
            add_arrows(positions.as_slice(), from, back)?;
        }
    }
    Ok(())
}

/// For each definition the numbers of those that lead to it in one step.
pub(crate) fn reversed(alloc: Global, graph: &[Node]) -> Result<Row<Row<usize>>, NoMemory>
    ensures { IfOk result (λ back. IsReversed graph.now back) }
{
    let mut back = no_arrows(alloc, graph.len())?;
    add_all_arrows(graph, &mut back)?;
    Ok(Row::from_vec(back))
}

/// So many definitions, of which none is marked yet.
pub(crate) fn unmarked(alloc: Global, len: usize) -> Result<Vec<bool>, NoMemory>
    ensures { IfOk result (λ marks. marks.items ≡ replicate len false) }
{
    let marks = vec![in alloc; false; len]?;
    Ok(marks)
}

/// Marks a definition that is not marked yet, and lists it.
fn mark_one(position: usize, marks: &mut [bool], todo: &mut Vec<usize>) -> Result<(), NoMemory>
    ensures { OnOk result (MarksOne position marks.old todo.old.items marks.new todo.new.items) }
{
    if position < marks.len() && !marks[position] {
        marks[position] = true;
        todo.push(position)?;
    }
    Ok(())
}

/// Marks those of a row that are not marked yet, and lists them.
fn mark_all(row: &[usize], marks: &mut [bool], todo: &mut Vec<usize>) -> Result<(), NoMemory>
    ensures { OnOk result (MarksAll row.now marks.old todo.old.items marks.new todo.new.items) }
{
    for position in row {
        mark_one(*position, marks, todo)?;
    }
    Ok(())
}

/// The last of those that are listed.
fn last_waiting(
    graph: &[Node],
    back: &[Row<usize>],
    target: usize,
    marks: &[bool],
    todo: &Vec<usize>,
) -> usize
    requires reversed { IsReversed graph.now back.now }
    requires search { IsSearch graph.now target marks.now todo.now.items }
    requires some { 0 < length todo.now.items }
    ensures within { result < length back.now }
    ensures last { slice_get todo.now.items (length todo.now.items - 1) ≡ Some result }
{
    todo[todo.len() - 1]
}

/// Marks all that lead to those that are listed.
fn follow(
    graph: &[Node],
    back: &[Row<usize>],
    target: usize,
    marks: &mut [bool],
    todo: &mut Vec<usize>,
) -> Result<(), NoMemory>
    requires reversed { IsReversed graph.now back.now }
    requires search { IsSearch graph.now target marks.old todo.old.items }
    ensures { OnOk result (IsSearch graph.now target marks.new []) }
{
    'search: while todo.len() > 0 {
        let position = last_waiting(graph, back, target, marks, todo);
        todo.truncate(todo.len() - 1);
        mark_all(back[position].as_slice(), marks, todo)?;
    }
    Ok(())
}

/// Marks all that lead to the target, where none is marked yet.
fn search(
    alloc: Global,
    graph: &[Node],
    back: &[Row<usize>],
    target: usize,
    marks: &mut [bool],
) -> Result<(), NoMemory>
    requires reversed { IsReversed graph.now back.now }
    requires within { target < length marks.old }
    requires none { marks.old ≡ replicate (length graph.now) false }
    ensures { OnOk result ((i : ℕ) → (mark marks.new i ≡ true) ↔ LeadsAt graph.now i target) }
{
    marks[target] = true;
    let mut todo = Vec::new(alloc);
    todo.push(target)?;
    follow(graph, back, target, marks, &mut todo)?;
    Ok(())
}

/// 1 where a definition is marked, and else 0.
fn as_number(is_marked: bool) -> usize
    ensures { result ≡ as_number is_marked }
{
    if is_marked { 1 } else { 0 }
}

/// The marks as numbers.
fn as_numbers(alloc: Global, marks: &[bool]) -> Result<Row<usize>, NoMemory>
    ensures { IfOk result (λ numbers. numbers ≡ map as_number marks.now) }
{
    let mut numbers = Row::new(alloc);
    for is_marked in marks {
        numbers.push(as_number(*is_marked))?;
    }
    Ok(numbers)
}

/// The number 1 for each definition that leads to the one of this number, and 0 for the others.
pub(crate) fn leading_to(
    alloc: Global,
    graph: &[Node],
    target: usize,
) -> Result<Row<usize>, NoMemory>
    requires { target < length graph.now }
    ensures { IfOk result
        (λ numbers. (i : ℕ) → (slice_get numbers i ≡ Some 1) ↔ LeadsAt graph.now i target) }
{
    let back = reversed(alloc, graph)?;
    let mut marks = unmarked(alloc, graph.len())?;
    search(alloc, graph, back.as_slice(), target, &mut marks)?;
    let numbers = as_numbers(alloc, &marks)?;
    Ok(numbers)
}
