//! An internal language with all that is looked up in it again and again.

ghost use Rattle.std.specs.Prelude.{◌≡◌, ◌++◌, ◌∷◌, [], List, not, is_some, map, filter, if◌then◌else◌, IfOk, OnOk};
ghost use Rattle.st_il.specs.declared.definition.FunDef.{FunDef};
ghost use Rattle.st_order.specs.Modes.{HasFew};
ghost use Rattle.st_order.specs.Known.{all_now, at};
ghost use Rattle.st_il.specs.Names.{Name};
ghost use Rattle.st_modes.specs.inner.Citations.{called_by_function};
ghost use Rattle.st_order.specs.inner.Index.{names_in};
ghost use Rattle.st_modes.specs.inner.Needs.{IsIndexed};
ghost use Rattle.st_modes.specs.inner.Reaching.{Reached};
ghost use Rattle.st_modes.specs.inner.Targets.{IsLeastOf, least_first};

use crate::citations::{Citations, citations_of};
use crate::cited_by::calling_functions;
use crate::reaching::Cited;
use crate::targets::{Firsts, first_targets};
use st_il::{FunDef, Il, IlDef};
use st_num::{Name, NoMemory, Row};
use st_order::index::at;
use st_order::{Directions, directions_of};
use std::alloc::Global;

/// An internal language, with its directions, what its rules and clauses cite, the functions that
/// have no clauses, in order, and for the functions that lead to some of these the first one.
#[derive(Drop)]
pub(crate) struct Indexed<'a> {
    pub(crate) directions: Directions<'a>,
    pub(crate) citations: Citations<'a>,
    pub(crate) lacking: Row<&'a FunDef>,
    pub(crate) lacks: Firsts<'a>,
}

/// Adds a function under whose name nothing stands.
fn push_lacking<'a>(
    calls: &Cited,
    fun: &'a FunDef,
    lacking: &mut Row<&'a FunDef>,
) -> Result<(), NoMemory>
    ensures { OnOk result (all_now lacking.new ≡ all_now lacking.old
        ++ (if is_some (at calls.now.entries fun.now.name) then [] else fun.now ∷ [])) }
{
    if at(calls, &fun.name).is_none() {
        lacking.push(fun)?;
    }
    Ok(())
}

/// The functions under whose names nothing stands.
fn lacking_of<'a>(
    alloc: Global,
    calls: &Cited,
    funs: &[&'a FunDef],
) -> Result<Row<&'a FunDef>, NoMemory>
    ensures { IfOk result (λ lacking. all_now lacking
        ≡ filter (λ (f : FunDef). not (is_some (at calls.now.entries f.name))) (all_now funs.now)) }
{
    let mut lacking = Row::new(alloc);
    for fun in funs {
        push_lacking(calls, *fun, &mut lacking)?;
    }
    Ok(lacking)
}

/// The names of functions.
fn names_of<'a>(alloc: Global, funs: &[&'a FunDef]) -> Result<Row<&'a Name>, NoMemory>
    ensures { IfOk result (λ names.
        names_in names ≡ map (λ (f : FunDef). f.name) (all_now funs.now)) }
{
    let mut names = Row::new(alloc);
    for i in 0..funs.len() {
        let fun = funs[i];
        names.push(&fun.name)?;
    }
    Ok(names)
}

/// For the functions that lead to some of these the number of the first one.
fn lacks_of<'a>(
    alloc: Global,
    defs: &'a [IlDef],
    lacking: &[&'a FunDef],
) -> Result<Firsts<'a>, NoMemory>
    ensures { IfOk result (λ lacks. (start : List Name)
        → IsLeastOf (Reached start (λ (q : Name). called_by_function q defs.now))
        (map (λ (f : FunDef). f.name) (all_now lacking.now)) (least_first lacks.entries start)) }
{
    let calling = calling_functions(alloc, defs)?;
    let names = names_of(alloc, lacking)?;
    let lacks = first_targets(alloc, &calling, names.as_slice())?;
    Ok(lacks)
}

/// An internal language with all that is looked up in it.
pub(crate) fn index_il(alloc: Global, il: &Il) -> Result<Indexed, NoMemory>
    requires { HasFew il.now }
    ensures { IfOk result (λ indexed.
        IsIndexed indexed × (indexed.directions.il.now ≡ il.now)) }
{
    let directions = directions_of(alloc, il)?;
    let citations = citations_of(alloc, il)?;
    let lacking = lacking_of(alloc, &citations.calls, citations.funs.as_slice())?;
    let lacks = lacks_of(alloc, il.defs.as_slice(), lacking.as_slice())?;
    Ok(Indexed {
        directions,
        citations,
        lacking,
        lacks,
    })
}
