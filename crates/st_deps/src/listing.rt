//! The order in which groups are listed.
//!
//! A group that cites another that is not listed waits for it. All others are ready, and the one
//! of the least rank is listed next; then those that waited for it are looked at again. So each
//! citation is met once.

ghost use Rattle.std.specs.Prelude.{◌≡◌, ◌≤◌, ◌<◌, ◌⊎◌, ◌↔◌, ℕ, [], ◌∷◌, ◌++◌, length, slice_get, true, false, Some, None, IfOk, OnOk, MatchOption};
ghost use Rattle.st_graph.specs.Graph.{IsWithin, Stands};
ghost use Rattle.st_deps.specs.inner.Listing.{IsFalling, IsOrder, opens};
ghost use Rattle.st_deps.specs.inner.Listings.{IsListing, CanSettle, Settles, IsTaken};

use crate::table::empty_rows;
use st_num::{NoMemory, Row};
use std::alloc::Global;
use std::collections::BTreeSet;

/// How far the listing of groups has come. A group is told by its rank.
#[derive(Drop)]
pub(crate) struct Listing {
    order: Vec<usize>,
    is_listed: Vec<bool>,
    /// How many citations of each group are met: what they cite is listed.
    met: Vec<usize>,
    /// The groups that wait for each.
    waiting: Vec<Row<usize>>,
    ready: BTreeSet<usize>,
}

/// The first place from here on at which a group is cited that is not listed.
fn first_open(cited: &[usize], is_listed: &[bool], from: usize) -> usize
    requires { (b : ℕ) → Stands cited.now b → b < length is_listed.now }
    ensures met { (k b : ℕ) → from ≤ k → k < result → slice_get cited.now k ≡ Some b
        → slice_get is_listed.now b ≡ Some true }
    ensures is_open { (b : ℕ) → slice_get cited.now result ≡ Some b
        → slice_get is_listed.now b ≡ Some false }
{
    for at in from..cited.len() {
        if !is_listed[cited[at]] {
            return at;
        }
    }
    cited.len()
}

/// Adds a group to those that are ready.
fn make_ready(ready: &mut BTreeSet<usize>, group: usize) -> Result<(), NoMemory>
    ensures { OnOk result ((a : ℕ)
        → Stands ready.new.keys a ↔ (Stands ready.old.keys a ⊎ (a ≡ group))) }
{
    ready.insert(group)?;
    Ok(())
}

/// Takes the group of the least rank off those that are ready.
fn take_first(ready: &mut BTreeSet<usize>) -> Option<usize>
    ensures { MatchOption result (ready.old.keys ≡ []) (λ group.
        (ready.old.keys ≡ group ∷ ready.new.keys)
        × ((a : ℕ) → Stands ready.new.keys a → group < a)) }
{
    ready.pop_first()
}

/// Lets a group wait for the next that it cites, or adds it to those that are ready.
fn settle(rows: &[Row<usize>], listing: &mut Listing, group: usize) -> Result<(), NoMemory>
    requires rows { IsWithin rows.now }
    requires listing { CanSettle rows.now listing.old group }
    requires within { group < length rows.now }
    ensures listing { OnOk result (Settles rows.now listing.old listing.new group) }
    ensures same { OnOk result (listing.new.is_listed.items ≡ listing.old.is_listed.items) }
{
    let cited = rows[group].as_slice();
    let at = first_open(cited, &listing.is_listed, listing.met[group]);
    listing.met[group] = at;
    match cited.get(at) {
        Some(other) => {
            listing.waiting[*other].push(group)?;
            Ok(())
        }
        None => {
            make_ready(&mut listing.ready, group)?;
            Ok(())
        }
    }
}

/// Settles several groups.
fn settle_all(rows: &[Row<usize>], listing: &mut Listing, groups: &[usize]) -> Result<(), NoMemory>
    requires rows { IsWithin rows.now }
    requires listing { IsListing rows.now listing.old groups.now }
    ensures listing { OnOk result (IsListing rows.now listing.new []) }
    ensures same { OnOk result (listing.new.is_listed.items ≡ listing.old.is_listed.items) }
{
    for group in groups {
        settle(rows, listing, *group)?;
    }
    Ok(())
}

/// Lists a group, and settles those that waited for it.
fn list_group(
    alloc: Global,
    rows: &[Row<usize>],
    listing: &mut Listing,
    group: usize,
) -> Result<(), NoMemory>
    requires rows { IsWithin rows.now }
    requires listing { IsTaken rows.now listing.old group }
    ensures listing { OnOk result (IsListing rows.now listing.new []) }
    ensures fewer { OnOk result
        (opens listing.new.is_listed.items < opens listing.old.is_listed.items) }
{
    listing.order.push(group)?;
    listing.is_listed[group] = true;
    let waiting = listing.waiting[group].copy(alloc)?;
    settle_all(rows, listing, waiting.as_slice())?;
    Ok(())
}

/// All numbers below this one.
fn all_below(alloc: Global, len: usize) -> Result<Vec<usize>, NoMemory>
    ensures { IfOk result (λ all. (a : ℕ) → Stands all.items a ↔ (a < len)) }
{
    let mut all = Vec::new(alloc);
    for number in 0..len {
        all.push(number)?;
    }
    Ok(all)
}

/// Nothing is listed, and each group is settled.
fn begin(alloc: Global, rows: &[Row<usize>]) -> Result<Listing, NoMemory>
    requires { IsWithin rows.now }
    ensures { IfOk result (λ listing. IsListing rows.now listing []) }
{
    let mut listing = Listing {
        order: Vec::new(alloc),
        is_listed: vec![in alloc; false; rows.len()]?,
        met: vec![in alloc; 0; rows.len()]?,
        waiting: empty_rows(alloc, rows.len())?,
        ready: BTreeSet::new(alloc),
    };
    let groups = all_below(alloc, rows.len())?;
    settle_all(rows, &mut listing, &groups)?;
    Ok(listing)
}

/// The order in which groups are listed that cite each other so.
pub(crate) fn order_of(alloc: Global, rows: &[Row<usize>]) -> Result<Vec<usize>, NoMemory>
    requires within { IsWithin rows.now }
    requires falling { IsFalling rows.now }
    ensures { IfOk result (λ order. IsOrder rows.now order.items) }
{
    let mut listing = begin(alloc, rows)?;
    'listing: while let Some(group) = take_first(&mut listing.ready) {
        list_group(alloc, rows, &mut listing, group)?;
    }
    Ok(listing.order)
}
