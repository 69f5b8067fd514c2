//! Which of some targets is the first that a name leads to, for all names at once.
//!
//! From one target after another it is walked to those that lead to it, against the citations. What
//! was met before is not entered again, as it and all that leads to it have an earlier target. So
//! each citation is followed once.

ghost use Rattle.std.specs.Prelude.{◌≡◌, ◌≤◌, ◌++◌, ◌∷◌, [], List, ℕ, length, drop, bytes_eq, IfOk, OnOk};
ghost use Rattle.st_il.specs.Names.{Name, has_name};
ghost use Rattle.st_order.specs.Known.{at};
ghost use Rattle.st_order.specs.inner.Index.{names_in};
ghost use Rattle.st_modes.specs.inner.Reaching.{cited_under};
ghost use Rattle.st_modes.specs.inner.Targets.{IsClosed, Spreads, or_number, HasFirst, AreFirst, lesser, least_first};

use crate::reaching::{Cited, grow_by, grow_under, name_at};
use indexmap::{IndexMap, IndexSet};
use st_num::{Name, NoMemory};
use st_order::index::{at, put};
use std::alloc::Global;

/// For names that lead to targets the number of the first one.
pub(crate) type Firsts<'a> = IndexMap<&'a Name, usize>;

/// Adds a target, and the names that lead to it over those that cite them.
fn spread<'a>(
    citing: &Cited<'a>,
    target: &'a Name,
    found: &mut IndexSet<&'a Name>,
) -> Result<(), NoMemory>
    requires { IsClosed (cited_under citing.now.entries) (names_in found.old.keys) }
    ensures { OnOk result (Spreads (cited_under citing.now.entries) (names_in found.old.keys)
        target.now (names_in found.new.keys)) }
{
    let mut front = found.len();
    grow_by(found, target)?;
    'walk: while front < found.len() {
        let met = name_at(found, front);
        grow_under(citing, met, found)?;
        front += 1;
    }
    Ok(())
}

/// Puts a number under a name, unless one stands there.
fn put_first<'a>(name: &'a Name, number: usize, firsts: &mut Firsts<'a>) -> Result<(), NoMemory>
    ensures { OnOk result ((q : List ℕ) → at firsts.new.entries q
        ≡ or_number (at firsts.old.entries q) (bytes_eq q name.now) number) }
{
    if at(firsts, name).is_some() {
        return Ok(());
    }
    put(firsts, name, number)?;
    Ok(())
}

/// Puts a number under those of the names under which none stands.
fn put_all<'a>(names: &[&'a Name], number: usize, firsts: &mut Firsts<'a>) -> Result<(), NoMemory>
    ensures { OnOk result ((q : List ℕ) → at firsts.new.entries q
        ≡ or_number (at firsts.old.entries q) (has_name (names_in names.now) q) number) }
{
    for name in names {
        put_first(*name, number, firsts)?;
    }
    Ok(())
}

/// The names behind so many.
fn behind<'s, 'a>(found: &'s IndexSet<&'a Name>, before: usize) -> &'s [&'a Name]
    requires { before ≤ length found.now.keys }
    ensures { result.now ≡ drop before found.now.keys }
{
    &found.as_slice()[before..]
}

/// Adds a target behind others, and the names that lead to it and to none of these.
fn add_target<'a>(
    citing: &Cited<'a>,
    target: &'a Name,
    number: usize,
    found: &mut IndexSet<&'a Name>,
    firsts: &mut Firsts<'a>,
) -> Result<(), NoMemory>
    requires { IsClosed (cited_under citing.now.entries) (names_in found.old.keys) }
    ensures { OnOk result ((targets : List Name) → number ≡ length targets
        → HasFirst (cited_under citing.now.entries) targets (names_in found.old.keys)
        firsts.old.entries
        → HasFirst (cited_under citing.now.entries) (targets ++ target.now ∷ [])
        (names_in found.new.keys) firsts.new.entries) }
{
    let before = found.len();
    spread(citing, target, found)?;
    let met = behind(found, before);
    put_all(met, number, firsts)?;
    Ok(())
}

/// For each name that leads to one of the targets the number of the first such target.
pub(crate) fn first_targets<'a>(
    alloc: Global,
    citing: &Cited<'a>,
    targets: &[&'a Name],
) -> Result<Firsts<'a>, NoMemory>
    ensures { IfOk result (λ firsts.
        AreFirst (cited_under citing.now.entries) (names_in targets.now) firsts.entries) }
{
    let mut found = IndexSet::new(alloc);
    let mut firsts = IndexMap::new(alloc);
    for i in 0..targets.len() {
        add_target(citing, targets[i], i, &mut found, &mut firsts)?;
    }
    Ok(firsts)
}

/// The lesser of two numbers, where they are there.
fn lesser(one: Option<usize>, other: Option<usize>) -> Option<usize>
    ensures { result ≡ lesser one other }
{
    let Some(a) = one else {
        return other;
    };
    match other {
        Some(b) => Some(if b < a { b } else { a }),
        None => one,
    }
}

/// The number that stands under a name.
fn number_under(firsts: &Firsts, name: &Name) -> Option<usize>
    ensures { result ≡ at firsts.now.entries name.now }
{
    at(firsts, name).copied()
}

/// The number of the first target that one of the names leads to.
fn first_of_names(firsts: &Firsts, names: &[&Name]) -> Option<usize>
    ensures { result ≡ least_first firsts.now.entries (names_in names.now) }
{
    let mut found = None;
    for name in names {
        let number = number_under(firsts, *name);
        found = lesser(found, number);
    }
    found
}

/// The number of the first target that one of the names under a name leads to.
pub(crate) fn first_under(firsts: &Firsts, cited: &Cited, name: &Name) -> Option<usize>
    ensures { result ≡ least_first firsts.now.entries (cited_under cited.now.entries name.now) }
{
    match at(cited, name) {
        Some(names) => first_of_names(firsts, names.as_slice()),
        None => None,
    }
}
