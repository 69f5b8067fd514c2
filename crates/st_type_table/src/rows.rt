//! Definitions in rows, by their ranks.

ghost use Rattle.std.specs.Prelude.{◌≡◌, map, IfOk, Some};
ghost use Rattle.st_type_table.specs.inner.Rows.{row_number, AreRows};

use crate::graph::Node;
use crate::search::reversed;
use st_num::{NoMemory, Row};
use std::alloc::Global;

/// The number of the row of a rank, where it has one.
fn row_number(alloc: Global, rank: usize) -> Result<Node, NoMemory>
    ensures { IfOk result (λ node. node ≡ row_number rank) }
{
    let mut number = Row::new(alloc);
    if rank > 0 {
        number.push(rank - 1)?;
    }
    Ok(Some(number))
}

/// A graph that leads from each definition to the number of its row.
fn row_graph(alloc: Global, ranks: &[usize]) -> Result<Row<Node>, NoMemory>
    ensures { IfOk result (λ graph. graph ≡ map row_number ranks.now) }
{
    let mut graph = Row::new(alloc);
    for rank in ranks {
        let node = row_number(alloc, *rank)?;
        graph.push(node)?;
    }
    Ok(graph)
}

/// The definitions of each rank, from 1 on.
pub(crate) fn rows_of(alloc: Global, ranks: &[usize]) -> Result<Row<Row<usize>>, NoMemory>
    ensures { IfOk result (λ rows. AreRows ranks.now rows) }
{
    let graph = row_graph(alloc, ranks)?;
    let rows = reversed(alloc, graph.as_slice())?;
    Ok(rows)
}
