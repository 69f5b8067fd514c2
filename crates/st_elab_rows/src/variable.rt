//! The type of a variable.

ghost use Rattle.std.specs.Prelude.{◌≡◌, ◌↔◌, IsTrue, None, IfOk, length, map, ◌<◌};
ghost use Rattle.std.specs.Option.{option_copied};
ghost use Rattle.std.specs.Map.{lookup};
ghost use Rattle.st_num.specs.Names.{same_name};
ghost use Rattle.st_il.specs.declared.ty.Ty.TheVariants as typ;
ghost use Rattle.st_type_table.specs.Meaning.{body_of};
ghost use Rattle.st_elab_rows.specs.inner.Searching.{remaining_at};
ghost use Rattle.st_elab_table.specs.Inferred.{entry_of, fun_named};
ghost use Rattle.st_elab_table.specs.Variables.{unprimed, first_type, written_type, named_type, type_of_name};

use st_elab_table::{Decls, NamedRow};
use st_il::{FunDef, Ty, copy_ty};
use st_num::{Boxed, Dim, Name, NoMemory};
use st_types::TypeTable;
use std::alloc::Global;

/// The name without the primes at its end.
fn unprimed(name: &[u8]) -> &[u8]
    ensures { result.now ≡ unprimed name.now }
{
    let mut front = name;
    while let Some(shorter) = front.strip_suffix(b"'") {
        front = shorter;
    }
    front
}

/// The type that `var` declares for the name.
fn declared_type<'a>(vars: &'a NamedRow<(Name, Ty)>, name: &Name) -> Option<&'a Ty>
    ensures { option_copied result ≡ lookup (same_name name.now) vars.now }
{
    match vars.first(name) {
        Some(var) => Some(&var.1),
        None => None,
    }
}

/// The type that is written by this word.
fn written_type(word: &[u8]) -> Option<Ty>
    ensures { result ≡ written_type word.now }
{
    match word {
        b"bool" => Some(Ty::Bool),
        b"nat" => Some(Ty::Nat),
        b"int" => Some(Ty::Int),
        b"text" => Some(Ty::Text),
        _ => None,
    }
}

/// The type that the scope gives to the name.
pub fn scoped_type<'a>(variables: &'a [(Name, Ty, Dim)], name: &Name) -> Option<&'a Ty>
    ensures { option_copied result ≡ lookup (same_name name.now) (map entry_of variables.now) }
{
    for variable in variables {
        if *name == variable.0 {
            return Some(&variable.1);
        }
    }
    None
}

/// The function of this name.
pub fn fun_named<'a>(funs: &'a NamedRow<FunDef>, name: &Name) -> Option<&'a FunDef>
    ensures { option_copied result ≡ fun_named funs.now name.now }
{
    funs.first(name)
}

/// The type of lists of this element type.
pub fn list_of(alloc: Global, element: &Ty) -> Result<Ty, NoMemory>
    ensures { IfOk result (λ list. list ≡ typ.List element.now) }
{
    Ok(Ty::List(Boxed::new(alloc, copy_ty(alloc, element)?)?))
}

/// The type that the name by itself has.
fn named_type(alloc: Global, decls: &Decls, name: &Name) -> Result<Option<Ty>, NoMemory>
    ensures { IfOk result (λ ty. ty ≡ named_type decls.now name.now) }
{
    if let Some(ty) = declared_type(&decls.vars, name) {
        return Ok(Some(copy_ty(alloc, ty)?));
    }
    if decls.types.declares(name) {
        return Ok(Some(Ty::Name(name.copy(alloc)?)));
    }
    Ok(written_type(name.as_slice()))
}

/// The type that the name without the primes at its end has.
fn unprimed_type(alloc: Global, decls: &Decls, name: &[u8]) -> Result<Option<Ty>, NoMemory>
    ensures { IfOk result (λ ty. ty ≡ named_type decls.now (unprimed name.now)) }
{
    let front = Name::from_slice(alloc, unprimed(name))?;
    named_type(alloc, decls, &front)
}

/// The type of the name that remains where this byte is an `_`, if it has one.
fn type_before(alloc: Global, decls: &Decls, name: &[u8], at: usize) -> Result<Option<Ty>, NoMemory>
    requires { at < length name.now }
    ensures { IfOk result (λ ty. ty ≡ first_type decls.now (remaining_at at name.now)) }
{
    if name[at] != b'_' {
        return Ok(None);
    }
    unprimed_type(alloc, decls, &name[..at])
}

/// The type that the name of a variable leads to.
pub fn type_of_name(alloc: Global, decls: &Decls, name: &Name) -> Result<Option<Ty>, NoMemory>
    ensures { IfOk result (λ ty. ty ≡ type_of_name decls.now name.now) }
{
    let bytes = name.as_slice();
    if let Some(ty) = unprimed_type(alloc, decls, bytes)? {
        return Ok(Some(ty));
    }
    let mut at = bytes.len();
    while at > 0 {
        at -= 1;
        if let Some(ty) = type_before(alloc, decls, bytes, at)? {
            return Ok(Some(ty));
        }
    }
    Ok(None)
}
