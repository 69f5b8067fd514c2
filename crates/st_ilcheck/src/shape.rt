//! What is asked of the types of parts: that they are equal to given ones, lists of them, or that a
//! path leads from one to another.

ghost use Rattle.std.specs.Prelude.{◌≡◌, ◌↔◌, IsTrue, IfOk, MatchOption, List, ℕ, Some, is_some};
ghost use Rattle.std.specs.Option.{option_copied};
ghost use Rattle.st_il.specs.declared.expression.ListItem.{out-ListItem};
ghost use Rattle.st_il.specs.declared.ty.Ty.{Ty};
ghost use Rattle.st_type_table.specs.Joins.{Joins};
ghost use Rattle.st_type_table.specs.Same.{Same};
ghost use Rattle.st_type_table.specs.Sub.{Sub};
ghost use Rattle.st_il.specs.Definitions.{syntaxes};
ghost use Rattle.st_ilcheck.specs.FoundTypes.{IsFieldOf, IsElementOf};
ghost use Rattle.st_ilcheck.specs.Rules.{Is, AllAre, Are, AreEqual, IsList, IsListOf, AllTyped, AreOrdered, IsMember, AreEach, HasField, LeadsTo, IsSet, IsExtended, AreJoined, IsItem, AreItems, IsBelow};
ghost use Rattle.st_ilcheck.specs.inner.Steps.{Steps, PlaceAt};

use crate::found::field_type;
use crate::language::Language;
use st_il::{ListItem, PathSeg, Ty};
use st_num::{Name, NoMemory};
use std::alloc::Global;

/// Whether a type was found, and is equal to this one.
pub(crate) fn is(
    alloc: Global,
    language: &Language,
    found: Option<&Ty>,
    ty: &Ty,
) -> Result<bool, NoMemory>
    ensures { IfOk result (λ kept. IsTrue kept ↔ Is (syntaxes language.now) (option_copied found.entry) ty.now) }
{
    match found {
        None => Ok(false),
        Some(found) => {
            let kept = language.same(alloc, found, ty)?;
            Ok(kept)
        }
    }
}

/// Whether a part has this type.
pub(crate) fn has(
    alloc: Global,
    language: &Language,
    found: &Option<Ty>,
    ty: &Ty,
) -> Result<bool, NoMemory>
    ensures { IfOk result (λ kept. IsTrue kept ↔ Is (syntaxes language.now) found.now ty.now) }
{
    match found {
        None => Ok(false),
        Some(found) => {
            let kept = language.same(alloc, found, ty)?;
            Ok(kept)
        }
    }
}

/// Whether every part has this type.
pub(crate) fn all_are(
    alloc: Global,
    language: &Language,
    ty: &Ty,
    types: &[Option<Ty>],
) -> Result<bool, NoMemory>
    ensures { IfOk result (λ kept. IsTrue kept ↔ AllAre (syntaxes language.now) ty.now types.now) }
{
    for found in types {
        let kept = has(alloc, language, found, ty)?;
        if !kept {
            return Ok(false);
        }
    }
    Ok(true)
}

/// Whether there is a part for each of these types, and has it.
pub(crate) fn are(
    alloc: Global,
    language: &Language,
    asked: &[Ty],
    types: &[Option<Ty>],
) -> Result<bool, NoMemory>
    ensures { IfOk result (λ kept. IsTrue kept ↔ Are (syntaxes language.now) asked.now types.now) }
{
    if asked.len() != types.len() {
        return Ok(false);
    }
    for i in 0..asked.len() {
        let kept = has(alloc, language, &types[i], &asked[i])?;
        if !kept {
            return Ok(false);
        }
    }
    Ok(true)
}

/// Whether there is a part for each of these fields, and has its type.
pub(crate) fn are_fields(
    alloc: Global,
    language: &Language,
    asked: &[(Name, Ty)],
    types: &[Option<Ty>],
) -> Result<bool, NoMemory>
    ensures { IfOk result (λ kept. IsTrue kept
        ↔ AreEach (λ (d : List ℕ × Ty) o. Is (syntaxes language.now) o d.1) asked.now types.now) }
{
    if asked.len() != types.len() {
        return Ok(false);
    }
    for i in 0..asked.len() {
        let kept = has(alloc, language, &types[i], &asked[i].1)?;
        if !kept {
            return Ok(false);
        }
    }
    Ok(true)
}

/// Whether both have types, which are equal.
pub(crate) fn are_equal(
    alloc: Global,
    language: &Language,
    left: Option<&Ty>,
    right: Option<&Ty>,
) -> Result<bool, NoMemory>
    ensures { IfOk result (λ kept. IsTrue kept ↔ AreEqual (syntaxes language.now)
        (option_copied left.entry) (option_copied right.entry)) }
{
    match left {
        None => Ok(false),
        Some(left) => match right {
            None => Ok(false),
            Some(right) => {
                let kept = language.same(alloc, left, right)?;
                Ok(kept)
            }
        },
    }
}

/// Whether it is a list.
pub(crate) fn is_list(language: &Language, found: Option<&Ty>) -> bool
    ensures { IsTrue result ↔ IsList (syntaxes language.now) (option_copied found.entry) }
{
    match found {
        None => false,
        Some(ty) => match language.element(ty) {
            None => false,
            Some(_) => true,
        },
    }
}

/// Whether it is a list of elements of this type.
pub(crate) fn is_list_of(
    alloc: Global,
    language: &Language,
    found: Option<&Ty>,
    ty: &Ty,
) -> Result<bool, NoMemory>
    ensures { IfOk result (λ kept. IsTrue kept
        ↔ IsListOf (syntaxes language.now) (option_copied found.entry) ty.now) }
{
    match found {
        None => Ok(false),
        Some(list) => match language.element(list) {
            None => Ok(false),
            Some(element) => {
                let kept = language.same(alloc, element, ty)?;
                Ok(kept)
            }
        },
    }
}

/// Whether a part has a type.
fn is_typed(found: &Option<Ty>) -> bool
    ensures { result ≡ is_some found.now }
{
    match found {
        None => false,
        Some(_) => true,
    }
}

/// Whether each part has a type.
pub(crate) fn all_typed(language: &Language, types: &[Option<Ty>]) -> bool
    ensures { IsTrue result ↔ AllTyped (syntaxes language.now) types.now }
{
    for found in types {
        if !is_typed(found) {
            return false;
        }
    }
    true
}

/// Whether all parts are natural numbers, or all are integers.
pub(crate) fn are_ordered(
    alloc: Global,
    language: &Language,
    types: &[Option<Ty>],
) -> Result<bool, NoMemory>
    ensures { IfOk result (λ kept. IsTrue kept ↔ AreOrdered (syntaxes language.now) types.now) }
{
    let natural = all_are(alloc, language, &Ty::Nat, types)?;
    if natural {
        return Ok(true);
    }
    let whole = all_are(alloc, language, &Ty::Int, types)?;
    Ok(whole)
}

/// Whether the second is a list of elements of the type of the first.
pub(crate) fn is_member(
    alloc: Global,
    language: &Language,
    element: Option<&Ty>,
    list: Option<&Ty>,
) -> Result<bool, NoMemory>
    ensures { IfOk result (λ kept. IsTrue kept ↔ IsMember (syntaxes language.now)
        (option_copied element.entry) (option_copied list.entry)) }
{
    match element {
        None => Ok(false),
        Some(ty) => {
            let kept = is_list_of(alloc, language, list, ty)?;
            Ok(kept)
        }
    }
}

/// Whether it is a record with a field of this name.
pub(crate) fn has_field(language: &Language, name: &Name, found: Option<&Ty>) -> bool
    ensures { IsTrue result
        ↔ HasField (syntaxes language.now) name.now (option_copied found.entry) }
{
    match found {
        None => false,
        Some(ty) => match field_type(language, name, ty) {
            None => false,
            Some(_) => true,
        },
    }
}

/// Where a step of a path leads from a type.
fn step<'a>(language: &'a Language, ty: &'a Ty, segment: &PathSeg) -> Option<&'a Ty>
    ensures { MatchOption result ((u : Ty) → Steps (syntaxes language.now) segment.now ty.now u → ⊥)
        (λ u. Steps (syntaxes language.now) segment.now ty.now u.now) }
{
    match segment {
        PathSeg::Field(name) => field_type(language, name, ty),
        PathSeg::At(_) => language.element(ty),
        PathSeg::Slice(_, _) => match language.element(ty) {
            None => None,
            Some(_) => Some(ty),
        },
    }
}

/// Where a path leads from a type.
fn place<'a>(language: &'a Language, ty: &'a Ty, path: &[PathSeg]) -> Option<&'a Ty>
    ensures { MatchOption result ((w : Ty) → LeadsTo (syntaxes language.now) path.now ty.now w → ⊥)
        (λ w. PlaceAt (syntaxes language.now) path.now ty.now w.now) }
{
    let mut here = ty;
    for segment in path {
        match step(language, here, segment) {
            None => return None,
            Some(next) => here = next,
        }
    }
    Some(here)
}

/// Whether what is set has the type of the place that the path leads to.
pub(crate) fn is_set(
    alloc: Global,
    language: &Language,
    path: &[PathSeg],
    found: Option<&Ty>,
    new: Option<&Ty>,
) -> Result<bool, NoMemory>
    ensures { IfOk result (λ kept. IsTrue kept ↔ IsSet (syntaxes language.now) path.now
        (option_copied found.entry) (option_copied new.entry)) }
{
    match found {
        None => Ok(false),
        Some(ty) => match place(language, ty, path) {
            None => Ok(false),
            Some(place) => {
                let kept = is(alloc, language, new, place)?;
                Ok(kept)
            }
        },
    }
}

/// Whether a place is a list, and what is put behind it is a list of that type.
fn is_longer(
    alloc: Global,
    language: &Language,
    place: &Ty,
    more: Option<&Ty>,
) -> Result<bool, NoMemory>
    ensures { IfOk result (λ kept. IsTrue kept ↔ (IsList (syntaxes language.now) (Some place.now)
        × Is (syntaxes language.now) (option_copied more.entry) place.now)) }
{
    if !is_list(language, Some(place)) {
        return Ok(false);
    }
    let kept = is(alloc, language, more, place)?;
    Ok(kept)
}

/// Whether the path leads to a list, and what is put behind it is a list of that type.
pub(crate) fn is_extended(
    alloc: Global,
    language: &Language,
    path: &[PathSeg],
    found: Option<&Ty>,
    more: Option<&Ty>,
) -> Result<bool, NoMemory>
    ensures { IfOk result (λ kept. IsTrue kept ↔ IsExtended (syntaxes language.now) path.now
        (option_copied found.entry) (option_copied more.entry)) }
{
    match found {
        None => Ok(false),
        Some(ty) => match place(language, ty, path) {
            None => Ok(false),
            Some(place) => {
                let kept = is_longer(alloc, language, place, more)?;
                Ok(kept)
            }
        },
    }
}

/// Whether a record type can be joined, and the other is equal to it.
fn is_joined(
    alloc: Global,
    language: &Language,
    ty: &Ty,
    right: Option<&Ty>,
) -> Result<bool, NoMemory>
    ensures { IfOk result (λ kept. IsTrue kept ↔ (Joins (syntaxes language.now) ty.now
        × AreEqual (syntaxes language.now) (Some ty.now) (option_copied right.entry))) }
{
    if !language.joins(ty) {
        return Ok(false);
    }
    let kept = are_equal(alloc, language, Some(ty), right)?;
    Ok(kept)
}

/// Whether both have equal record types that can be joined.
pub(crate) fn are_joined(
    alloc: Global,
    language: &Language,
    left: Option<&Ty>,
    right: Option<&Ty>,
) -> Result<bool, NoMemory>
    ensures { IfOk result (λ kept. IsTrue kept ↔ AreJoined (syntaxes language.now)
        (option_copied left.entry) (option_copied right.entry)) }
{
    match left {
        None => Ok(false),
        Some(ty) => {
            let kept = is_joined(alloc, language, ty, right)?;
            Ok(kept)
        }
    }
}

/// Whether a part of a list is one element, or a list of them.
fn is_item(
    alloc: Global,
    language: &Language,
    ty: &Ty,
    item: &ListItem,
    found: &Option<Ty>,
) -> Result<bool, NoMemory>
    ensures { IfOk result (λ kept. IsTrue kept
        ↔ IsItem (syntaxes language.now) ty.now (out-ListItem item.now) found.now) }
{
    match item {
        ListItem::One(_) => {
            let kept = has(alloc, language, found, ty)?;
            Ok(kept)
        }
        ListItem::All(_) => {
            let kept = is_list_of(alloc, language, found.as_ref(), ty)?;
            Ok(kept)
        }
    }
}

/// Whether each part of a list is one element, or a list of them.
pub(crate) fn are_items(
    alloc: Global,
    language: &Language,
    ty: &Ty,
    items: &[ListItem],
    types: &[Option<Ty>],
) -> Result<bool, NoMemory>
    ensures { IfOk result (λ kept. IsTrue kept ↔ AreItems (syntaxes language.now) ty.now items.now types.now) }
{
    if items.len() != types.len() {
        return Ok(false);
    }
    for i in 0..items.len() {
        let kept = is_item(alloc, language, ty, &items[i], &types[i])?;
        if !kept {
            return Ok(false);
        }
    }
    Ok(true)
}

/// Whether the first type is below the second, and not equal to it.
fn is_lower(alloc: Global, language: &Language, lower: &Ty, upper: &Ty) -> Result<bool, NoMemory>
    ensures { IfOk result (λ kept. IsTrue kept ↔ (Sub (syntaxes language.now) lower.now upper.now
        × (Same (syntaxes language.now) lower.now upper.now → ⊥))) }
{
    let equal = language.same(alloc, lower, upper)?;
    if equal {
        return Ok(false);
    }
    let below = language.is_sub(alloc, lower, upper)?;
    Ok(below)
}

/// Whether what is injected has a type below this one, and not equal to it.
pub(crate) fn is_below(
    alloc: Global,
    language: &Language,
    found: Option<&Ty>,
    ty: &Ty,
) -> Result<bool, NoMemory>
    ensures { IfOk result (λ kept. IsTrue kept ↔ IsBelow (syntaxes language.now) (option_copied found.entry) ty.now) }
{
    match found {
        None => Ok(false),
        Some(found) => {
            let kept = is_lower(alloc, language, found, ty)?;
            Ok(kept)
        }
    }
}
