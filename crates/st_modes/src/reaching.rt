//! What is reached from names over citations.

ghost use Rattle.std.specs.Prelude.{◌≡◌, ◌<◌, ◌∷◌, [], Some, length, slice_get, IfOk, OnOk};
ghost use Rattle.st_order.specs.inner.Index.{names_in};
ghost use Rattle.st_modes.specs.inner.Reaching.{cited_under, AreReached, Grows};

use indexmap::{IndexMap, IndexSet};
use st_num::{Name, NoMemory, Row};
use st_order::index::at;
use std::alloc::Global;

/// The names that stand under names.
pub type Cited<'a> = IndexMap<&'a Name, Row<&'a Name>>;

/// Adds a name behind the others, unless it is there.
pub(crate) fn grow_by<'a>(found: &mut IndexSet<&'a Name>, name: &'a Name) -> Result<(), NoMemory>
    ensures { OnOk result
        (Grows (names_in found.old.keys) (name.now ∷ []) (names_in found.new.keys)) }
{
    found.insert(name)?;
    Ok(())
}

/// Adds those names behind the others that are not there.
fn grow<'a>(found: &mut IndexSet<&'a Name>, more: &[&'a Name]) -> Result<(), NoMemory>
    ensures { OnOk result
        (Grows (names_in found.old.keys) (names_in more.now) (names_in found.new.keys)) }
{
    for name in more {
        grow_by(found, *name)?;
    }
    Ok(())
}

/// Adds those names behind the others that stand under a name, and are not there.
pub(crate) fn grow_under<'a>(
    cited: &Cited<'a>,
    name: &Name,
    found: &mut IndexSet<&'a Name>,
) -> Result<(), NoMemory>
    ensures { OnOk result (Grows (names_in found.old.keys) (cited_under cited.now.entries name.now)
        (names_in found.new.keys)) }
{
    match at(cited, name) {
        Some(names) => grow(found, names.as_slice()),
        None => Ok(()),
    }
}

/// The name at a position.
pub(crate) fn name_at<'a>(found: &IndexSet<&'a Name>, position: usize) -> &'a Name
    requires { position < length found.now.keys }
    ensures { slice_get (names_in found.now.keys) position ≡ Some result.now }
{
    found.as_slice()[position]
}

/// The names that are reached from those that stand first under a name, over what is cited under
/// each.
pub fn reached<'a>(
    alloc: Global,
    first: &Cited<'a>,
    cited: &Cited<'a>,
    name: &Name,
) -> Result<IndexSet<&'a Name>, NoMemory>
    ensures { IfOk result (λ found. AreReached (cited_under first.now.entries name.now)
        (cited_under cited.now.entries) (names_in found.keys)) }
{
    let mut found = IndexSet::new(alloc);
    grow_under(first, name, &mut found)?;
    let mut front = 0;
    'walk: while front < found.len() {
        let met = name_at(&found, front);
        grow_under(cited, met, &mut found)?;
        front += 1;
    }
    Ok(found)
}
