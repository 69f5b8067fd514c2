//! The ranks of groups: how many groups begin before each.

ghost use Rattle.std.specs.Prelude.{◌≡◌, slice_get, nat_eq, Some, IfOk, OnOk};
ghost use Rattle.indexmap.specs.IndexSet.{insert_key};
ghost use Rattle.st_deps.specs.inner.Ranks.{AreRanks};

use indexmap::IndexSet;
use st_num::NoMemory;
use std::alloc::Global;

/// The rank of a number among those met, which it joins unless it is one of them.
fn rank_of(met: &mut IndexSet<usize>, number: usize) -> Result<usize, NoMemory>
    ensures rank { IfOk result (λ rank. slice_get met.new.keys rank ≡ Some number) }
    ensures met { OnOk result (met.new.keys ≡ insert_key nat_eq met.old.keys number) }
{
    let (rank, _) = met.insert_full(number)?;
    Ok(rank)
}

/// For each definition the rank of its group, and how many groups there are.
pub(crate) fn ranks_of(alloc: Global, numbers: &[usize]) -> Result<(Vec<usize>, usize), NoMemory>
    ensures { IfOk result (λ found. AreRanks numbers.now found.0.items found.1) }
{
    let mut met = IndexSet::new(alloc);
    let mut ranks = Vec::new(alloc);
    for number in numbers {
        ranks.push(rank_of(&mut met, *number)?)?;
    }
    Ok((ranks, met.len()))
}
