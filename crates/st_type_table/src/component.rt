//! The components of a graph of definitions.

ghost use Rattle.std.specs.Prelude.{◌≡◌, map, IfOk};
ghost use Rattle.st_type_table.specs.inner.Components.{AreComponents, StaysWithin, row_in};

use crate::graph::Node;
use st_graph::{Components, numbering};
use st_num::{NoMemory, Row};
use std::alloc::Global;

/// What a definition leads to.
fn row_in(alloc: Global, node: &Node) -> Result<Row<usize>, NoMemory>
    ensures { IfOk result (λ row. row ≡ row_in node.now) }
{
    match node {
        Some(row) => {
            let row = row.copy(alloc)?;
            Ok(row)
        }
        None => Ok(Row::new(alloc)),
    }
}

/// What each definition leads to.
fn rows_in(alloc: Global, graph: &[Node]) -> Result<Row<Row<usize>>, NoMemory>
    ensures { IfOk result (λ rows. rows ≡ map row_in graph.now) }
{
    let mut rows = Row::new(alloc);
    for node in graph {
        let row = row_in(alloc, node)?;
        rows.push(row)?;
    }
    Ok(rows)
}

/// The number of the component of each definition.
pub(crate) fn component_numbers(alloc: Global, graph: &[Node]) -> Result<Row<usize>, NoMemory>
    requires { StaysWithin graph.now }
    ensures { IfOk result (AreComponents graph.now) }
{
    let rows = rows_in(alloc, graph)?;
    let components = numbering(alloc, rows.as_slice())?;
    let Components { numbers, .. } = components;
    Ok(Row::from_vec(numbers))
}
