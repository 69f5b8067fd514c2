//! What the name of a syntax stands for.

ghost use Rattle.std.specs.Prelude.{◌≡◌, List, ℕ, MatchOption, is_some};
ghost use Rattle.std.specs.Option.{option_copied};
ghost use Rattle.st_il.specs.declared.ty.Ty.{Ty};
ghost use Rattle.st_type_table.specs.declared.entry.CaseDef.{CaseDef};
ghost use Rattle.st_type_table.specs.Meaning.{body_of, named, alias_of, Means};
ghost use Rattle.st_type_table.specs.Cases.{HasCases, HasFields};
ghost use Rattle.st_il.specs.Key.{plain};
ghost use Rattle.st_type_table.specs.Keys.{KeysDiffer, NoneHasKey, IsFirstWith, IsCaseWith};
ghost use Rattle.st_type_table.specs.inner.KeyIndexes.{IsKeyIndex};
ghost use Rattle.st_type_table.specs.inner.Kept.{defs_of, entry_of, entry_named, IsKept, IsVariant};

use crate::entry::{CaseDef, Entries, Entry};
use crate::key_index::KeyIndex;
use st_il::{Key, SyntaxBody, Ty};
use st_num::{Name, Row};

/// The entry of a type that is a name.
pub(crate) fn entry_named<'a>(entries: &'a Entries, ty: &Ty) -> Option<&'a Entry>
    ensures { option_copied result ≡ entry_named entries.now.entries ty.now }
{
    match ty {
        Ty::Name(name) => entries.get(name),
        Ty::Bool | Ty::Nat | Ty::Int | Ty::Text => None,
        Ty::List(_) | Ty::Opt(_) | Ty::Tuple(_) => None,
    }
}

/// What the type stands for, where it is the name of an alias.
fn alias_of<'a>(entries: &'a Entries, ty: &Ty) -> Option<&'a Ty>
    ensures { option_copied result ≡ alias_of (defs_of entries.now.entries) ty.now }
{
    match entry_named(entries, ty) {
        Some(entry) => match &entry.body {
            SyntaxBody::Alias(written) => Some(written),
            SyntaxBody::Variant(_) => None,
            SyntaxBody::Fields(_) => None,
        },
        None => None,
    }
}

/// The type without the aliases at its top.
pub(crate) fn meaning_of<'a>(entries: &'a Entries, ty: &'a Ty) -> &'a Ty
    requires { IsKept entries.now.entries }
    ensures { Means (defs_of entries.now.entries) ty.now result.now }
{
    let mut meaning = ty;
    while let Some(written) = alias_of(entries, meaning) {
        meaning = written;
    }
    meaning
}

/// The entry of a variant type.
fn variant_of<'a>(entries: &'a Entries, ty: &Ty) -> Option<&'a Entry>
    requires { IsKept entries.now.entries }
    ensures { MatchOption result ((cases : List CaseDef)
        → HasCases (defs_of entries.now.entries) ty.now cases → ⊥)
        (λ entry. IsVariant (defs_of entries.now.entries) ty.now entry.now) }
{
    match entry_named(entries, meaning_of(entries, ty)) {
        Some(entry) => match &entry.body {
            SyntaxBody::Variant(_) => Some(entry),
            SyntaxBody::Alias(_) => None,
            SyntaxBody::Fields(_) => None,
        },
        None => None,
    }
}

/// The cases of a variant type.
pub(crate) fn cases_of<'a>(entries: &'a Entries, ty: &Ty) -> Option<&'a Row<CaseDef>>
    requires { IsKept entries.now.entries }
    ensures { MatchOption result ((cases : List CaseDef)
        → HasCases (defs_of entries.now.entries) ty.now cases → ⊥)
        (λ cases. HasCases (defs_of entries.now.entries) ty.now cases.now) }
{
    match variant_of(entries, ty) {
        Some(entry) => Some(&entry.cases),
        None => None,
    }
}

/// The first of the cases with this key.
fn first_with<'a>(cases: &'a [CaseDef], index: &KeyIndex, key: &Key) -> Option<&'a CaseDef>
    requires differ { KeysDiffer cases.now }
    requires index { IsKeyIndex cases.now index.now }
    ensures { MatchOption result (NoneHasKey (plain key.now) cases.now)
        (λ case. IsFirstWith (plain key.now) cases.now case.now) }
{
    match index.number_of(key) {
        Some(number) => Some(&cases[number]),
        None => None,
    }
}

/// The first case of a variant type with this key.
pub(crate) fn case_with<'a>(entries: &'a Entries, ty: &Ty, key: &Key) -> Option<&'a CaseDef>
    requires { IsKept entries.now.entries }
    ensures { MatchOption result ((cases : List CaseDef)
        → HasCases (defs_of entries.now.entries) ty.now cases → NoneHasKey (plain key.now) cases)
        (λ case. IsCaseWith (defs_of entries.now.entries) ty.now (plain key.now) case.now) }
{
    match variant_of(entries, ty) {
        Some(entry) => first_with(entry.cases.as_slice(), &entry.index, key),
        None => None,
    }
}

/// The fields of a record type.
pub(crate) fn fields_of<'a>(entries: &'a Entries, ty: &Ty) -> Option<&'a [(Name, Ty)]>
    requires { IsKept entries.now.entries }
    ensures { MatchOption result ((fields : List (List ℕ × Ty))
        → HasFields (defs_of entries.now.entries) ty.now fields → ⊥)
        (λ fields. HasFields (defs_of entries.now.entries) ty.now fields.now) }
{
    match entry_named(entries, meaning_of(entries, ty)) {
        Some(entry) => match &entry.body {
            SyntaxBody::Fields(fields) => Some(fields.as_slice()),
            SyntaxBody::Alias(_) => None,
            SyntaxBody::Variant(_) => None,
        },
        None => None,
    }
}

/// The entry of the syntax of this name.
fn entry_of<'a>(entries: &'a Entries, name: &Name) -> Option<&'a Entry>
    ensures { option_copied result ≡ entry_of entries.now.entries name.now }
{
    entries.get(name)
}

/// Whether a syntax has this name.
pub(crate) fn is_declared(entries: &Entries, name: &Name) -> bool
    ensures { result ≡ is_some (body_of (defs_of entries.now.entries) name.now) }
{
    match entry_of(entries, name) {
        Some(_) => true,
        None => false,
    }
}
