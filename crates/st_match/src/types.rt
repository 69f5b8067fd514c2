//! The types that are asked of the values of variables.

ghost use Rattle.std.specs.Prelude.{◌≡◌, ◌↔◌, IsTrue, IfOk};
ghost use Rattle.std.specs.List.{All};
ghost use Rattle.std.specs.Option.{option_copied};
ghost use Rattle.st_semantics.specs.Environments.{IsTypedValue, wrapped, type_of, listed_as};
ghost use Rattle.st_match.specs.inner.Types.{asked_as, asked_of, HasAsked};

use crate::environment::{append, find, single};
use crate::proper::is_proper;
use st_il::{Env, Listed, Ty, Value, copy_ty, is_within_height};
use st_num::{Boxed, HIGHEST_VALUE, Kind, Name, NoMemory, Row};
use st_types::{TypeTable, has_type};
use std::alloc::Global;

/// A variable, and the type that is asked of its value.
#[derive(Drop)]
pub(crate) struct Asked {
    pub(crate) name: Name,
    pub(crate) ty: Ty,
}

/// Whether the value has the type, with the limits of values.
fn is_typed_value(types: &TypeTable, value: &Value, ty: &Ty) -> bool
    ensures { IsTrue result ↔ IsTypedValue types.now ty.now value.now }
{
    if !has_type(types, value, ty) {
        return false;
    }
    if !is_within_height(value, HIGHEST_VALUE) {
        return false;
    }
    is_proper(value)
}

/// Whether the environment gives the variable a value of the type that is asked.
fn has_asked(types: &TypeTable, env: &Env, asked: &Asked) -> bool
    ensures { IsTrue result ↔ HasAsked types.now env.now asked.now }
{
    match find(&asked.name, env) {
        None => false,
        Some(value) => is_typed_value(types, value, &asked.ty),
    }
}

/// Whether the environment gives each variable a value of the type that is asked.
pub(crate) fn have_asked(types: &TypeTable, env: &Env, asked: &[Asked]) -> bool
    ensures { IsTrue result ↔ All (HasAsked types.now env.now) asked.now }
{
    for one in asked {
        if !has_asked(types, env, one) {
            return false;
        }
    }
    true
}

/// A type wrapped in the kinds of a dimension, outermost first.
#[cycle(wrapped)]
fn wrapped(alloc: Global, kinds: &[Kind], ty: &Ty) -> Result<Ty, NoMemory>
    ensures { IfOk result (λ whole. whole ≡ wrapped kinds.now ty.now) }
{
    match kinds {
        [] => {
            let same = copy_ty(alloc, ty)?;
            Ok(same)
        }
        [Kind::List, inner @ ..] => {
            let part = wrapped(alloc, inner, ty)?;
            let part = Boxed::new(alloc, part)?;
            Ok(Ty::List(part))
        }
        [Kind::Opt, inner @ ..] => {
            let part = wrapped(alloc, inner, ty)?;
            let part = Boxed::new(alloc, part)?;
            Ok(Ty::Opt(part))
        }
    }
}

/// The listed variable of a name.
fn listed_as<'a>(name: &Name, variables: &'a [Listed]) -> Option<&'a Listed>
    ensures { option_copied result ≡ listed_as name.now variables.now }
{
    for listed in variables {
        if name.as_slice() == listed.name.as_slice() {
            return Some(listed);
        }
    }
    None
}

/// What is asked of a listed variable.
fn asked_of_one(alloc: Global, name: &Name, listed: &Listed) -> Result<Asked, NoMemory>
    ensures { IfOk result (λ asked.
        asked ≡ record { name = name.now; ty = type_of listed.now }) }
{
    let ty = wrapped(alloc, listed.dim.as_slice(), &listed.ty)?;
    let name = name.copy(alloc)?;
    Ok(Asked { name, ty })
}

/// What is asked of a variable, if it is listed.
fn asked_as(alloc: Global, variables: &[Listed], name: &Name) -> Result<Row<Asked>, NoMemory>
    ensures { IfOk result (λ asked.
        asked ≡ asked_as name.now (listed_as name.now variables.now)) }
{
    match listed_as(name, variables) {
        None => Ok(Row::new(alloc)),
        Some(listed) => {
            let one = asked_of_one(alloc, name, listed)?;
            let row = single(alloc, one)?;
            Ok(row)
        }
    }
}

/// What is asked of these variables, of those that are listed.
pub(crate) fn asked_of(
    alloc: Global,
    variables: &[Listed],
    names: &[Name],
) -> Result<Row<Asked>, NoMemory>
    ensures { IfOk result (λ asked. asked ≡ asked_of variables.now names.now) }
{
    let mut asked = Row::new(alloc);
    for name in names {
        let more = asked_as(alloc, variables, name)?;
        asked = append(asked, more)?;
    }
    Ok(asked)
}
