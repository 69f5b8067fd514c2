//! Names in sets, and what stands under a name, found by hashes.

ghost use Rattle.std.specs.Prelude.{◌≡◌, ◌<◌, ◌∷◌, ◌++◌, [], List, ℕ, Some, length, bytes_eq, if◌then◌else◌, IfOk, IfSome, OnOk};
ghost use Rattle.std.specs.Option.{option_copied};
ghost use Rattle.std.specs.List.{list_any};
ghost use Rattle.st_il.specs.Names.{has_name, all_known, among, without};
ghost use Rattle.st_order.specs.inner.Index.{names_in, number_in, SameNames};
ghost use Rattle.st_order.specs.Known.{at};

use indexmap::{IndexMap, IndexSet};
use st_num::{Name, NoMemory, Row};
use std::alloc::Global;

/// Puts something under a name.
pub fn put<'a, T: Drop>(
    map: &mut IndexMap<&'a Name, T>,
    name: &'a Name,
    value: T,
) -> Result<(), NoMemory>
    ensures { OnOk result ((q : List ℕ) → at map.new.entries q
        ≡ (if bytes_eq q name.now then Some value else at map.old.entries q)) }
{
    map.insert(name, value)?;
    Ok(())
}

/// Puts something under a name, and answers what stood there.
pub fn exchange<'a, T: Drop>(
    map: &mut IndexMap<&'a Name, T>,
    name: &'a Name,
    value: T,
) -> Result<Option<T>, NoMemory>
    ensures was { IfOk result (λ was. was ≡ at map.old.entries name.now) }
    ensures put { OnOk result ((q : List ℕ) → at map.new.entries q
        ≡ (if bytes_eq q name.now then Some value else at map.old.entries q)) }
{
    Ok(map.insert(name, value)?)
}

/// What stands under a name.
pub fn at<'m, T>(map: &'m IndexMap<&Name, T>, name: &'m Name) -> Option<&'m T>
    ensures { option_copied result ≡ at map.now.entries name.now }
{
    map.get(&name)
}

/// Whether the name is one of these.
pub fn has(names: &IndexSet<&Name>, name: &Name) -> bool
    ensures { result ≡ has_name (names_in names.now.keys) name.now }
{
    names.contains(&name)
}

/// The place of a name among these.
pub fn number_in(names: &IndexSet<&Name>, name: &Name) -> Option<usize>
    ensures number { result ≡ number_in names.now.keys name.now }
    ensures within { IfSome result (λ number. number < length names.now.keys) }
{
    names.get_index_of(&name)
}

/// Adds a name.
pub fn add<'a>(names: &mut IndexSet<&'a Name>, name: &'a Name) -> Result<(), NoMemory>
    ensures { OnOk result
        (SameNames (names_in names.new.keys) (names_in names.old.keys ++ name.now ∷ [])) }
{
    names.insert(name)?;
    Ok(())
}

/// Adds names.
pub fn add_all<'a>(names: &mut IndexSet<&'a Name>, more: &[&'a Name]) -> Result<(), NoMemory>
    ensures { OnOk result
        (SameNames (names_in names.new.keys) (names_in names.old.keys ++ names_in more.now)) }
{
    for name in more {
        add(names, *name)?;
    }
    Ok(())
}

/// The set of these names.
pub fn set_of<'a>(alloc: Global, names: &[&'a Name]) -> Result<IndexSet<&'a Name>, NoMemory>
    ensures { IfOk result (λ set. SameNames (names_in set.keys) (names_in names.now)) }
{
    let mut set = IndexSet::new(alloc);
    add_all(&mut set, names)?;
    Ok(set)
}

/// Whether all of them are known.
pub fn are_known(known: &IndexSet<&Name>, names: &[&Name]) -> bool
    ensures { result ≡ all_known (names_in known.now.keys) (names_in names.now) }
{
    for name in names {
        if !has(known, *name) {
            return false;
        }
    }
    true
}

/// Whether all of them are known by one or the other.
#[tactic(auto, using(crate::proofs::NamesIn::has_name_append))]
pub(crate) fn are_known_by_both(
    known: &IndexSet<&Name>,
    more: &IndexSet<&Name>,
    names: &[&Name],
) -> bool
    ensures { result
        ≡ all_known (names_in known.now.keys ++ names_in more.now.keys) (names_in names.now) }
{
    for name in names {
        if !has(known, *name) && !has(more, *name) {
            return false;
        }
    }
    true
}

/// Whether one of them is known.
pub(crate) fn is_any_known(known: &IndexSet<&Name>, names: &[&Name]) -> bool
    ensures { result ≡ list_any (has_name (names_in known.now.keys)) (names_in names.now) }
{
    for name in names {
        if has(known, *name) {
            return true;
        }
    }
    false
}

/// Adds a name if it is known.
fn push_if_known<'a>(
    known: &IndexSet<&Name>,
    name: &'a Name,
    names: &mut Row<&'a Name>,
) -> Result<(), NoMemory>
    ensures { OnOk result (names_in names.new
        ≡ names_in names.old ++ among (names_in known.now.keys) (name.now ∷ [])) }
{
    if has(known, name) {
        names.push(name)?;
    }
    Ok(())
}

/// Adds those of some names that are known.
pub(crate) fn push_known<'a>(
    known: &IndexSet<&Name>,
    list: &[&'a Name],
    names: &mut Row<&'a Name>,
) -> Result<(), NoMemory>
    ensures { OnOk result (names_in names.new
        ≡ names_in names.old ++ among (names_in known.now.keys) (names_in list.now)) }
{
    for name in list {
        push_if_known(known, *name, names)?;
    }
    Ok(())
}

/// Adds a name if it is unknown.
fn push_if_unknown<'a>(
    known: &IndexSet<&Name>,
    name: &'a Name,
    names: &mut Row<&'a Name>,
) -> Result<(), NoMemory>
    ensures { OnOk result (names_in names.new
        ≡ names_in names.old ++ without (names_in known.now.keys) (name.now ∷ [])) }
{
    if !has(known, name) {
        names.push(name)?;
    }
    Ok(())
}

/// Adds those of some names that are unknown.
pub(crate) fn push_unknown<'a>(
    known: &IndexSet<&Name>,
    list: &[&'a Name],
    names: &mut Row<&'a Name>,
) -> Result<(), NoMemory>
    ensures { OnOk result (names_in names.new
        ≡ names_in names.old ++ without (names_in known.now.keys) (names_in list.now)) }
{
    for name in list {
        push_if_unknown(known, *name, names)?;
    }
    Ok(())
}
