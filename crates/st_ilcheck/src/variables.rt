//! Whether the variables of a rule or a clause are listed as they occur, and its indices stay inside.

ghost use Rattle.std.specs.Prelude.{◌≡◌, ◌↔◌, IsTrue, All, Contains, false, List, ℕ};
ghost use Rattle.st_num.specs.declared.dim.Kind.{Kind};
ghost use Rattle.st_il.specs.declared.definition.Listed.{Listed};
ghost use Rattle.st_il.specs.Names.{has_name};
ghost use Rattle.st_semantics.specs.Environments.{listed_names};
ghost use Rattle.st_ilcheck.specs.Naming.{is_once};
ghost use Rattle.st_ilcheck.specs.Variables.{IsListed, AreListed, names_of};
ghost use Rattle.st_ilcheck.specs.inner.Beginnings.{BeginsBy};

use crate::contents::Occurrence;
use crate::listed::listed_as;
use st_il::Listed;
use st_num::{Kind, Name};

/// Whether both kinds are one.
fn is_kind(kind: Kind, other: Kind) -> bool
    ensures { IsTrue result ↔ (kind ≡ other) }
{
    match (kind, other) {
        (Kind::List, Kind::List) => true,
        (Kind::Opt, Kind::Opt) => true,
        (Kind::List, Kind::Opt) => false,
        (Kind::Opt, Kind::List) => false,
    }
}

/// Whether the first kinds of these are those of the dimension, one by one.
fn begins_with(dim: &[Kind], kinds: &[Kind]) -> bool
    ensures { IsTrue result ↔ BeginsBy dim.now kinds.now }
{
    match dim {
        [] => true,
        [kind, dim @ ..] => match kinds {
            [] => false,
            [other, kinds @ ..] => is_kind(*kind, *other) && begins_with(dim, kinds),
        },
    }
}

/// Whether the kinds are those of the dimension.
fn are_kinds(dim: &[Kind], kinds: &[Kind]) -> bool
    ensures { IsTrue result ↔ (kinds.now ≡ dim.now) }
{
    if dim.len() != kinds.len() {
        return false;
    }
    begins_with(dim, kinds)
}

/// Whether the names are one.
fn is_name(name: &Name, other: &Name) -> bool
    ensures { IsTrue result ↔ (name.now ≡ other.now) }
{
    *name == *other
}

/// Whether an occurrence is of a listed variable, and the iterations round it begin with its
/// dimension.
fn is_listed(listed: &[Listed], occurrence: &Occurrence) -> bool
    ensures { IsTrue result ↔ IsListed listed.now occurrence.now }
{
    match listed_as(listed, &occurrence.0) {
        None => false,
        Some(variable) => begins_with(variable.dim.as_slice(), occurrence.1.as_slice()),
    }
}

/// Whether each occurrence is of a listed variable.
fn all_listed(listed: &[Listed], occurrences: &[Occurrence]) -> bool
    ensures { IsTrue result ↔ All (IsListed listed.now) occurrences.now }
{
    for i in 0..occurrences.len() {
        if !is_listed(listed, &occurrences[i]) {
            return false;
        }
    }
    true
}

/// Whether the occurrence is of this variable, and the iterations round it are its dimension.
fn is_outermost(variable: &Listed, occurrence: &Occurrence) -> bool
    ensures { IsTrue result ↔ (occurrence.now ≡ (variable.now.name, variable.now.dim)) }
{
    if !is_name(&occurrence.0, &variable.name) {
        return false;
    }
    are_kinds(variable.dim.as_slice(), occurrence.1.as_slice())
}

/// Whether the variable occurs where the iterations round it are its dimension.
fn occurs(occurrences: &[Occurrence], variable: &Listed) -> bool
    ensures { IsTrue result
        ↔ Contains occurrences.now (variable.now.name, variable.now.dim) }
{
    for i in 0..occurrences.len() {
        if is_outermost(variable, &occurrences[i]) {
            return true;
        }
    }
    false
}

/// Whether each listed variable occurs so.
fn all_occur(listed: &[Listed], occurrences: &[Occurrence]) -> bool
    ensures { IsTrue result
        ↔ All (λ (l : Listed). Contains occurrences.now (l.name, l.dim)) listed.now }
{
    for i in 0..listed.len() {
        if !occurs(occurrences, &listed[i]) {
            return false;
        }
    }
    true
}

/// Whether one of these variables has the name.
fn has_variable(listed: &[Listed], name: &Name) -> bool
    ensures { result ≡ has_name (listed_names listed.now) name.now }
{
    for variable in listed {
        if name.as_slice() == variable.name.as_slice() {
            return true;
        }
    }
    false
}

/// Whether each variable is listed once.
fn are_once(listed: &[Listed]) -> bool
    ensures { result ≡ is_once (listed_names listed.now) }
{
    for i in 0..listed.len() {
        if has_variable(&listed[i + 1..], &listed[i].name) {
            return false;
        }
    }
    true
}

/// Whether the variables are listed as they occur: each once, each occurrence of a listed one in
/// iterations that begin with its dimension, and for each an occurrence in these alone.
pub(crate) fn are_listed(listed: &[Listed], occurrences: &[Occurrence]) -> bool
    ensures { IsTrue result ↔ AreListed listed.now occurrences.now }
{
    if !are_once(listed) {
        return false;
    }
    if !all_listed(listed, occurrences) {
        return false;
    }
    all_occur(listed, occurrences)
}

/// Whether one of the occurrences is of this name.
fn is_among(occurrences: &[Occurrence], name: &Name) -> bool
    ensures { result ≡ has_name (names_of occurrences.now) name.now }
{
    for occurrence in occurrences {
        if name.as_slice() == occurrence.0.as_slice() {
            return true;
        }
    }
    false
}

/// Whether none of the indices is a variable outside of the bodies that it belongs to.
pub(crate) fn stay_inside(indices: &[Name], occurrences: &[Occurrence]) -> bool
    ensures { IsTrue result
        ↔ All (λ (i : List ℕ). has_name (names_of occurrences.now) i ≡ false) indices.now }
{
    for i in 0..indices.len() {
        if is_among(occurrences, &indices[i]) {
            return false;
        }
    }
    true
}
