//! Names in sets, and names of which no two are equal.

ghost use Rattle.std.specs.Prelude.{◌≡◌, ◌↔◌, All, Contains, IsTrue, IfOk, MatchOption};
ghost use Rattle.st_il.specs.Small.{rule_names, AreDistinct};
ghost use Rattle.st_small.specs.inner.Names.{names_of, Adds, GoesBetween};

use indexmap::IndexSet;
use st_il::SmallRule;
use st_num::{Name, NoMemory};
use std::alloc::Global;

/// Adds a name, and answers whether it was not there.
fn add_name<'a>(names: &mut IndexSet<&'a Name>, name: &'a Name) -> Result<bool, NoMemory>
    ensures { IfOk result (Adds (names_of names.old.keys) name.now (names_of names.new.keys)) }
{
    Ok(names.insert(name)?)
}

/// Whether the name is one of these.
fn has_name(names: &IndexSet<&Name>, name: &Name) -> bool
    ensures { IsTrue result ↔ Contains (names_of names.now.keys) name.now }
{
    names.contains(&name)
}

/// The set of the atoms, where no two are equal.
pub fn distinct_atoms<'a>(
    alloc: Global,
    atoms: &'a [Name],
) -> Result<Option<IndexSet<&'a Name>>, NoMemory>
    ensures { IfOk result (λ read. MatchOption read (AreDistinct atoms.now → ⊥)
        (λ set. AreDistinct atoms.now × (names_of set.keys ≡ atoms.now))) }
{
    let mut set = IndexSet::new(alloc);
    for atom in atoms {
        if !add_name(&mut set, atom)? {
            return Ok(None);
        }
    }
    Ok(Some(set))
}

/// Whether no two rules have the same name.
pub fn have_distinct_names(alloc: Global, rules: &[SmallRule]) -> Result<bool, NoMemory>
    ensures { IfOk result (λ distinct. IsTrue distinct ↔ AreDistinct (rule_names rules.now)) }
{
    let mut set = IndexSet::new(alloc);
    for rule in rules {
        if !add_name(&mut set, &rule.name)? {
            return Ok(false);
        }
    }
    Ok(true)
}

/// Whether the rule goes from an atom to an atom.
fn goes_between(atoms: &IndexSet<&Name>, rule: &SmallRule) -> bool
    ensures { IsTrue result ↔ GoesBetween (names_of atoms.now.keys) rule.now }
{
    has_name(atoms, &rule.from) && has_name(atoms, &rule.to)
}

/// Whether each rule goes from an atom to an atom.
pub fn have_known_atoms(atoms: &IndexSet<&Name>, rules: &[SmallRule]) -> bool
    ensures { IsTrue result ↔ All (GoesBetween (names_of atoms.now.keys)) rules.now }
{
    for rule in rules {
        if !goes_between(atoms, rule) {
            return false;
        }
    }
    true
}
