//! The variables as they are listed inside an iteration.

ghost use Rattle.std.specs.Prelude.{◌≡◌, ◌++◌, IfOk, if◌then◌else◌};
ghost use Rattle.st_il.specs.Names.{has_name};
ghost use Rattle.st_semantics.specs.Iterations.{index_of};
ghost use Rattle.st_semantics.specs.Scopes.{inner, stepped, stepped_all, indices, listed_inside};

use st_il::{Iteration, Listed, Ty, copy_ty};
use st_num::{Dim, Kind, Name, NoMemory, Row};
use std::alloc::Global;

/// Whether a name is among these.
fn is_among(name: &Name, names: &[Name]) -> bool
    ensures { result ≡ has_name names.now name.now }
{
    for other in names {
        if name.as_slice() == other.as_slice() {
            return true;
        }
    }
    false
}

/// The kinds but for the outermost one.
fn inner<'a>(kinds: &'a [Kind]) -> &'a [Kind]
    ensures { result.now ≡ inner kinds.now }
{
    match kinds {
        [] => kinds,
        [_, rest @ ..] => rest,
    }
}

/// The kinds of a variable that are left inside an iteration over these names.
fn kinds_inside<'a>(names: &[Name], variable: &'a Listed) -> &'a [Kind]
    ensures { result.now ≡ (if has_name names.now variable.now.name
        then inner variable.now.dim else variable.now.dim) }
{
    if is_among(&variable.name, names) {
        inner(variable.dim.as_slice())
    } else {
        variable.dim.as_slice()
    }
}

/// A variable as it is listed inside an iteration over these names.
fn stepped(alloc: Global, names: &[Name], variable: &Listed) -> Result<Listed, NoMemory>
    ensures { IfOk result (λ inside. inside ≡ stepped names.now variable.now) }
{
    let name = variable.name.copy(alloc)?;
    let ty = copy_ty(alloc, &variable.ty)?;
    let dim = Dim::from_slice(alloc, kinds_inside(names, variable))?;
    Ok(Listed { name, ty, dim })
}

/// The index of an iteration as a listed variable, if it has one.
fn indices(alloc: Global, how: &Iteration) -> Result<Row<Listed>, NoMemory>
    ensures { IfOk result (λ listed. listed ≡ indices (index_of how.now)) }
{
    let mut listed = Row::new(alloc);
    match how {
        Iteration::Below(index, _) => {
            let name = index.copy(alloc)?;
            let dim = Dim::new(alloc);
            listed.push(Listed {
                name,
                ty: Ty::Nat,
                dim,
            })?;
            Ok(listed)
        }
        Iteration::Star | Iteration::Plus | Iteration::Quest | Iteration::Times(_) => Ok(listed),
    }
}

/// Listed variables with others behind them, as they are listed inside.
fn with_stepped(
    alloc: Global,
    names: &[Name],
    variables: &[Listed],
    listed: Row<Listed>,
) -> Result<Row<Listed>, NoMemory>
    ensures { IfOk result (λ inside.
        inside ≡ listed ++ stepped_all names.now variables.now) }
{
    let mut inside = listed;
    for variable in variables {
        inside.push(stepped(alloc, names, variable)?)?;
    }
    Ok(inside)
}

/// The variables as they are listed inside an iteration: those that are iterated lose their
/// outermost kind, and the index is a number.
pub fn listed_inside(
    alloc: Global,
    how: &Iteration,
    names: &[Name],
    variables: &[Listed],
) -> Result<Row<Listed>, NoMemory>
    ensures { IfOk result (λ inside. inside ≡ listed_inside how.now names.now variables.now) }
{
    let index = indices(alloc, how)?;
    let inside = with_stepped(alloc, names, variables, index)?;
    Ok(inside)
}
