//! The variables as they are listed inside of an iteration.

ghost use Rattle.std.specs.Prelude.{◌≡◌, IfOk, if◌then◌else◌};
ghost use Rattle.st_il.specs.Names.{has_name};
ghost use Rattle.st_semantics.specs.Iterations.{index_of};
ghost use Rattle.st_semantics.specs.Scopes.{inner, stepped, indices, listed_inside};

use crate::listed::has_name;
use st_il::{Iteration, Listed, Ty, copy_ty};
use st_num::{Dim, Kind, Name, NoMemory, Row};
use std::alloc::Global;

/// The kinds but for the outermost.
fn inner(kinds: &[Kind]) -> &[Kind]
    ensures { result.now ≡ inner kinds.now }
{
    match kinds {
        [] => kinds,
        [_, rest @ ..] => rest,
    }
}

/// The kinds of a variable that are left inside of an iteration over these names.
fn kinds_left<'l>(names: &[Name], variable: &'l Listed) -> &'l [Kind]
    ensures { result.now ≡ (if has_name names.now variable.now.name
        then inner variable.now.dim else variable.now.dim) }
{
    let kinds = variable.dim.as_slice();
    if has_name(names, &variable.name) {
        inner(kinds)
    } else {
        kinds
    }
}

/// A variable as it is listed inside of an iteration over these names.
fn stepped(alloc: Global, names: &[Name], variable: &Listed) -> Result<Listed, NoMemory>
    ensures { IfOk result (λ inner. inner ≡ stepped names.now variable.now) }
{
    let name = variable.name.copy(alloc)?;
    let ty = copy_ty(alloc, &variable.ty)?;
    let dim = Dim::from_slice(alloc, kinds_left(names, variable))?;
    Ok(Listed { name, ty, dim })
}

/// The index of an iteration as a listed variable, if it has one.
fn index_listed(alloc: Global, how: &Iteration) -> Result<Row<Listed>, NoMemory>
    ensures { IfOk result (λ listed. listed ≡ indices (index_of how.now)) }
{
    let mut listed = Row::new(alloc);
    match how {
        Iteration::Below(index, _) => {
            let name = index.copy(alloc)?;
            let ty = Ty::Nat;
            let dim = Dim::new(alloc);
            listed.push(Listed { name, ty, dim })?;
            Ok(listed)
        }
        Iteration::Star | Iteration::Plus | Iteration::Quest | Iteration::Times(_) => Ok(listed),
    }
}

/// The variables as they are listed inside of an iteration.
pub(crate) fn listed_inside(
    alloc: Global,
    how: &Iteration,
    names: &[Name],
    listed: &[Listed],
) -> Result<Row<Listed>, NoMemory>
    ensures { IfOk result
        (λ inside. inside ≡ listed_inside how.now names.now listed.now) }
{
    let mut inside = index_listed(alloc, how)?;
    for variable in listed {
        let variable = stepped(alloc, names, variable)?;
        inside.push(variable)?;
    }
    Ok(inside)
}
