//! Positions in the elements of a list, up to which its first parts were matched.

ghost use Rattle.std.specs.Prelude.{◌≡◌, nat_eq, if◌then◌else◌, IfOk, [], ◌∷◌, length, drop};
ghost use Rattle.st_match.specs.inner.Covering.{AreCandidatesOfItems};
ghost use Rattle.st_match.specs.inner.Positions.{FollowAll, ones, AreEnds};

use crate::environment::{append, copy_envs};
use st_il::{Env, ListItem, Value};
use st_num::{NoMemory, Row};
use std::alloc::Global;

/// What the parts so far may come to.
#[derive(Drop)]
pub(crate) struct Position {
    /// How many elements they take.
    pub(crate) taken: usize,
    /// The environments that cover all under which they make those elements.
    pub(crate) envs: Row<Env>,
}

/// The first position and the one behind which a part may end, among the elements that are left.
#[derive(Clone, Copy, Debug)]
pub(crate) struct Ends {
    pub(crate) first: usize,
    pub(crate) end: usize,
}

/// The elements from a position on.
pub(crate) fn left_of(values: &[Value], taken: usize) -> &[Value]
    ensures { result.now ≡ drop taken values.now }
{
    if taken > values.len() {
        return &[];
    }
    &values[taken..]
}

/// How many of the parts are single elements.
fn count_ones(items: &[ListItem]) -> usize
    ensures { result ≡ ones items.now }
{
    let mut count = 0;
    for item in items {
        count += one(item);
    }
    count
}

/// 1 for a single element, and 0 for all elements of another list.
fn one(item: &ListItem) -> usize
    ensures { result ≡ ones (item.now ∷ []) }
{
    match item {
        ListItem::One(_) => 1,
        ListItem::All(_) => 0,
    }
}

/// Where a part may end that stands before some others, when these elements are left.
pub(crate) fn ends_before(rest: &[ListItem], left: &[Value]) -> Ends
    ensures { AreEnds rest.now (length left.now) result.first result.end }
{
    let ones = count_ones(rest);
    if ones > left.len() {
        return Ends { first: 0, end: 0 };
    }
    let last = left.len() - ones;
    Ends {
        first: first_end(rest, ones, last),
        end: last + 1,
    }
}

/// The first position behind which a part may end: the last one where all others are single elements.
fn first_end(rest: &[ListItem], ones: usize, last: usize) -> usize
    ensures { result ≡ (if nat_eq ones (length rest.now) then last else 0) }
{
    if ones == rest.len() { last } else { 0 }
}

/// The environments of a position, if all elements are taken there.
fn finished_at(alloc: Global, values: &[Value], position: &Position) -> Result<Row<Env>, NoMemory>
    ensures { IfOk result
        (λ found. AreCandidatesOfItems [] (drop position.now.taken values.now) position.now.envs found) }
{
    if position.taken < values.len() {
        return Ok(Row::new(alloc));
    }
    let found = copy_envs(alloc, position.envs.as_slice())?;
    Ok(found)
}

/// The environments of the positions at which all elements are taken.
pub(crate) fn finished(
    alloc: Global,
    values: &[Value],
    positions: &[Position],
) -> Result<Row<Env>, NoMemory>
    ensures { IfOk result (λ found. FollowAll [] values.now found positions.now) }
{
    let mut found = Row::new(alloc);
    for position in positions {
        let more = finished_at(alloc, values, position)?;
        found = append(found, more)?;
    }
    Ok(found)
}
