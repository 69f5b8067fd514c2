//! Names in sets, and what stands under a name, found by hashes.

ghost use Rattle.std.specs.Prelude.{◌≡◌, ℕ, List, Some, not, ◌||◌, ◌&&◌, if◌then◌else◌, IfOk, OnOk, OnErr};
ghost use Rattle.st_num.specs.Names.{same_name};
ghost use Rattle.st_ilcheck.specs.Index.{has, at, has_pair};

use indexmap::{IndexMap, IndexSet};
use st_num::{Name, NoMemory};

/// Adds a name, and answers whether it was not there.
pub fn add<'a>(names: &mut IndexSet<&'a Name>, name: &'a Name) -> Result<bool, NoMemory>
    ensures added { IfOk result (λ added. added ≡ not (has names.old.keys name.now)) }
    ensures more { OnOk result ((q : List ℕ)
        → has names.new.keys q ≡ (has names.old.keys q || same_name q name.now)) }
{
    Ok(names.insert(name)?)
}

/// Whether the name is one of these.
pub fn has(names: &IndexSet<&Name>, name: &Name) -> bool
    ensures { result ≡ has names.now.keys name.now }
{
    names.contains(&name)
}

/// Adds a pair of names, and answers whether it was not there.
pub fn add_pair<'a>(
    pairs: &mut IndexSet<(&'a Name, &'a Name)>,
    first: &'a Name,
    second: &'a Name,
) -> Result<bool, NoMemory>
    ensures added { IfOk result
        (λ added. added ≡ not (has_pair pairs.old.keys first.now second.now)) }
    ensures more { OnOk result ((p q : List ℕ)
        → has_pair pairs.new.keys p q
        ≡ (has_pair pairs.old.keys p q || (same_name p first.now && same_name q second.now))) }
    ensures err { OnErr result (pairs.new.keys ≡ pairs.old.keys) }
{
    Ok(pairs.insert((first, second))?)
}

/// Whether the pair of names is one of these.
pub fn has_pair(pairs: &IndexSet<(&Name, &Name)>, first: &Name, second: &Name) -> bool
    ensures { result ≡ has_pair pairs.now.keys first.now second.now }
{
    pairs.contains(&(first, second))
}

/// Puts something under a name, and answers what stood there.
pub fn put<'a, T: Drop>(
    map: &mut IndexMap<&'a Name, T>,
    name: &'a Name,
    value: T,
) -> Result<Option<T>, NoMemory>
    ensures was { IfOk result (λ was. was ≡ at map.old.entries name.now) }
    ensures more { OnOk result ((q : List ℕ) → at map.new.entries q
        ≡ (if same_name q name.now then Some value else at map.old.entries q)) }
    ensures err { OnErr result (map.new.entries ≡ map.old.entries) }
{
    Ok(map.insert(name, value)?)
}

/// What stands under the name.
pub fn at<T: Copy>(map: &IndexMap<&Name, T>, name: &Name) -> Option<T>
    ensures { result ≡ at map.now.entries name.now }
{
    map.get(&name).copied()
}
