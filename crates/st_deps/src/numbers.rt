//! The numbers of the groups of the declared names.

ghost use Rattle.std.specs.Prelude.{IfOk};
ghost use Rattle.st_deps.specs.GroupNumbers.{AreGroupNumbers};

use crate::table::citations;
use st_graph::{Components, numbering};
use st_il::Il;
use st_num::{NoMemory, Row};
use std::alloc::Global;

/// The number of the group of each declared name. Each citation is followed once.
pub fn group_numbers(alloc: Global, il: &Il) -> Result<Row<usize>, NoMemory>
    ensures { IfOk result (AreGroupNumbers il.now) }
{
    let table = citations(alloc, il)?;
    let components = numbering(alloc, table.rows.as_slice())?;
    let Components { numbers, .. } = components;
    Ok(Row::from_vec(numbers))
}
