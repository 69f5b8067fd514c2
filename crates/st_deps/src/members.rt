//! The groups of mutual citation, as they are listed.

ghost use Rattle.std.specs.Prelude.{◌≡◌, ◌<◌, ℕ, [], length, map, slice_get, slice_index_or, Some, All, IfOk};
ghost use Rattle.st_deps.specs.Definitions.{Cites, declared};
ghost use Rattle.st_deps.specs.Groups.{AreGroups};
ghost use Rattle.st_deps.specs.inner.Members.{AreMembers};

use crate::condensation::condensation;
use crate::listing::order_of;
use crate::ranks::ranks_of;
use crate::table::{citations, empty_rows};
use st_graph::numbering;
use st_il::Il;
use st_num::{Name, NoMemory, Row, copy_names};
use std::alloc::Global;

/// For each group its names, in the order of declaration.
fn members_of(
    alloc: Global,
    names: &[Name],
    ranks: &[usize],
    count: usize,
) -> Result<Vec<Row<Name>>, NoMemory>
    requires size { length ranks.now ≡ length names.now }
    requires within { (i c : ℕ) → slice_get ranks.now i ≡ Some c → c < count }
    ensures { IfOk result (λ rows. AreMembers names.now ranks.now count rows.items) }
{
    let mut rows = empty_rows(alloc, count)?;
    for node in 0..names.len() {
        let name = names[node].copy(alloc)?;
        rows[ranks[node]].push(name)?;
    }
    Ok(rows)
}

/// The names of the groups, in this order.
fn in_order(
    alloc: Global,
    members: &[Row<Name>],
    order: &[usize],
) -> Result<Row<Row<Name>>, NoMemory>
    requires { All (λ c. c < length members.now) order.now }
    ensures { IfOk result (λ groups. groups
        ≡ map (λ c. slice_index_or members.now c []) order.now) }
{
    let mut groups = Row::new(alloc);
    for group in order {
        groups.push(copy_names(alloc, members[*group].as_slice())?)?;
    }
    Ok(groups)
}

/// The groups of mutual citation, each behind those that it cites.
pub fn groups(alloc: Global, il: &Il) -> Result<Row<Row<Name>>, NoMemory>
    ensures { IfOk result (AreGroups (Cites il.now) (declared il.now)) }
{
    let table = citations(alloc, il)?;
    let components = numbering(alloc, table.rows.as_slice())?;
    let (ranks, count) = ranks_of(alloc, &components.numbers)?;
    let rows = condensation(alloc, table.rows.as_slice(), &ranks, count)?;
    let order = order_of(alloc, &rows)?;
    let members = members_of(alloc, table.names.as_slice(), &ranks, count)?;
    let groups = in_order(alloc, &members, &order)?;
    Ok(groups)
}
