//! Names in sets, and what stands under a name, found by hashes.

ghost use Rattle.std.specs.Prelude.{◌≡◌, ◌<◌, ◌∷◌, ◌++◌, [], List, ℕ, Some, length, not, map, slice_get, option_and_then, ◌||◌, ◌&&◌, bytes_eq, if◌then◌else◌, IfOk, IfSome, OnOk, OnErr};
ghost use Rattle.std.specs.Option.{option_copied};
ghost use Rattle.std.specs.List.{list_any};
ghost use Rattle.st_il.specs.Names.{has_name, all_known, among, without};
ghost use Rattle.st_index.specs.Names.{at, names_in, number_in, has_pair, SameNames};

use indexmap::{IndexMap, IndexSet};
use st_num::{Name, NoMemory, Row};
use std::alloc::Global;

/// Puts something under a name, and answers what stood there.
pub fn put<'a, T: Drop>(
    map: &mut IndexMap<&'a Name, T>,
    name: &'a Name,
    value: T,
) -> Result<Option<T>, NoMemory>
    ensures was { IfOk result (λ was. was ≡ at map.old.entries name.now) }
    ensures more { OnOk result ((q : List ℕ) → at map.new.entries q
        ≡ (if bytes_eq q name.now then Some value else at map.old.entries q)) }
    ensures err { OnErr result (map.new.entries ≡ map.old.entries) }
{
    Ok(map.insert(name, value)?)
}

/// The place of a name among those under which something stands.
fn place_of<T>(under: &IndexMap<&Name, T>, name: &Name) -> Option<usize>
    ensures { option_and_then (slice_get (map (λ entry. entry.1) under.now.entries)) result
        ≡ at under.now.entries name.now }
{
    under.get_index_of(&name)
}

/// What stands under a name.
pub fn at<'m, T>(map: &'m IndexMap<&Name, T>, name: &Name) -> Option<&'m T>
    ensures { option_copied result ≡ at map.now.entries name.now }
{
    let place = place_of(&*map, name)?;
    let (_, value) = map.get_index(place)?;
    Some(value)
}

/// Whether the name is one of these.
pub fn has(names: &IndexSet<&Name>, name: &Name) -> bool
    ensures { result ≡ has_name (names_in names.now.keys) name.now }
{
    names.contains(&name)
}

/// The place of a name among these.
pub fn number_in(names: &IndexSet<&Name>, name: &Name) -> Option<usize>
    ensures number { result ≡ number_in names.now.keys name.now }
    ensures within { IfSome result (λ number. number < length names.now.keys) }
{
    names.get_index_of(&name)
}

/// Adds a name, and answers whether it was not there.
pub fn add<'a>(names: &mut IndexSet<&'a Name>, name: &'a Name) -> Result<bool, NoMemory>
    ensures added { IfOk result
        (λ added. added ≡ not (has_name (names_in names.old.keys) name.now)) }
    ensures more { OnOk result
        (SameNames (names_in names.new.keys) (names_in names.old.keys ++ name.now ∷ [])) }
    ensures err { OnErr result (names.new.keys ≡ names.old.keys) }
{
    Ok(names.insert(name)?)
}

/// Adds names.
pub fn add_all<'a>(names: &mut IndexSet<&'a Name>, more: &[&'a Name]) -> Result<(), NoMemory>
    ensures { OnOk result
        (SameNames (names_in names.new.keys) (names_in names.old.keys ++ names_in more.now)) }
{
    for name in more {
        add(names, *name)?;
    }
    Ok(())
}

/// The set of these names.
pub fn set_of<'a>(alloc: Global, names: &[&'a Name]) -> Result<IndexSet<&'a Name>, NoMemory>
    ensures { IfOk result (λ set. SameNames (names_in set.keys) (names_in names.now)) }
{
    let mut set = IndexSet::new(alloc);
    add_all(&mut set, names)?;
    Ok(set)
}

/// Whether all of them are known.
pub fn are_known(known: &IndexSet<&Name>, names: &[&Name]) -> bool
    ensures { result ≡ all_known (names_in known.now.keys) (names_in names.now) }
{
    for name in names {
        if !has(known, *name) {
            return false;
        }
    }
    true
}

/// Whether all of them are known by one or the other.
#[tactic(auto, using(crate::proofs::NamesIn::has_name_append))]
pub fn are_known_by_both(known: &IndexSet<&Name>, more: &IndexSet<&Name>, names: &[&Name]) -> bool
    ensures { result
        ≡ all_known (names_in known.now.keys ++ names_in more.now.keys) (names_in names.now) }
{
    for name in names {
        if !has(known, *name) && !has(more, *name) {
            return false;
        }
    }
    true
}

/// Whether one of them is known.
pub fn is_any_known(known: &IndexSet<&Name>, names: &[&Name]) -> bool
    ensures { result ≡ list_any (has_name (names_in known.now.keys)) (names_in names.now) }
{
    for name in names {
        if has(known, *name) {
            return true;
        }
    }
    false
}

/// Adds a name if it is known.
fn push_if_known<'a>(
    known: &IndexSet<&Name>,
    name: &'a Name,
    names: &mut Row<&'a Name>,
) -> Result<(), NoMemory>
    ensures { OnOk result (names_in names.new
        ≡ names_in names.old ++ among (names_in known.now.keys) (name.now ∷ [])) }
{
    if has(known, name) {
        names.push(name)?;
    }
    Ok(())
}

/// Adds those of some names that are known.
pub fn push_known<'a>(
    known: &IndexSet<&Name>,
    list: &[&'a Name],
    names: &mut Row<&'a Name>,
) -> Result<(), NoMemory>
    ensures { OnOk result (names_in names.new
        ≡ names_in names.old ++ among (names_in known.now.keys) (names_in list.now)) }
{
    for name in list {
        push_if_known(known, *name, names)?;
    }
    Ok(())
}

/// Adds a name if it is unknown.
fn push_if_unknown<'a>(
    known: &IndexSet<&Name>,
    name: &'a Name,
    names: &mut Row<&'a Name>,
) -> Result<(), NoMemory>
    ensures { OnOk result (names_in names.new
        ≡ names_in names.old ++ without (names_in known.now.keys) (name.now ∷ [])) }
{
    if !has(known, name) {
        names.push(name)?;
    }
    Ok(())
}

/// Adds those of some names that are unknown.
pub fn push_unknown<'a>(
    known: &IndexSet<&Name>,
    list: &[&'a Name],
    names: &mut Row<&'a Name>,
) -> Result<(), NoMemory>
    ensures { OnOk result (names_in names.new
        ≡ names_in names.old ++ without (names_in known.now.keys) (names_in list.now)) }
{
    for name in list {
        push_if_unknown(known, *name, names)?;
    }
    Ok(())
}

/// Adds a pair of names, and answers whether it was not there.
pub fn add_pair<'a>(
    pairs: &mut IndexSet<(&'a Name, &'a Name)>,
    first: &'a Name,
    second: &'a Name,
) -> Result<bool, NoMemory>
    ensures added { IfOk result
        (λ added. added ≡ not (has_pair pairs.old.keys first.now second.now)) }
    ensures more { OnOk result ((p q : List ℕ) → has_pair pairs.new.keys p q
        ≡ (has_pair pairs.old.keys p q || (bytes_eq p first.now && bytes_eq q second.now))) }
    ensures err { OnErr result (pairs.new.keys ≡ pairs.old.keys) }
{
    Ok(pairs.insert((first, second))?)
}

/// Whether the pair of names is one of these.
pub fn has_pair(pairs: &IndexSet<(&Name, &Name)>, first: &Name, second: &Name) -> bool
    ensures { result ≡ has_pair pairs.now.keys first.now second.now }
{
    pairs.contains(&(first, second))
}
