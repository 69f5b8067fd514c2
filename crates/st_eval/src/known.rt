//! Whether all variables of an expression are bound.

ghost use Rattle.std.specs.Prelude.{◌≡◌, ◌++◌, List, IfOk};
ghost use Rattle.st_il.specs.declared.definition.SyntaxDef.{SyntaxDef};
ghost use Rattle.st_il.specs.Names.{has_name, all_known, without};
ghost use Rattle.st_semantics.specs.Environments.{names_of};
ghost use Rattle.st_semantics.specs.Formed.{IsFormed, AreFormed};
ghost use Rattle.st_semantics.specs.Iterations.{count_of, index_of};
ghost use Rattle.st_semantics.specs.Variables.{vars, vars_of};
ghost use Rattle.st_semantics.specs.References.{exps_now};
ghost use Rattle.st_eval.specs.inner.Known.{names_now};

use st_il::{Env, IlExp, Iteration};
use st_num::{Name, NoMemory, Row};
use st_semantics::operands::{count_of, operands};
use std::alloc::Global;

/// The names of an environment.
pub(crate) fn names_of<'a>(alloc: Global, env: &'a Env) -> Result<Row<&'a Name>, NoMemory>
    ensures { IfOk result (λ names. names_now names ≡ names_of env.now) }
{
    let mut names = Row::new(alloc);
    for entry in env.entries.as_slice() {
        names.push(&entry.0)?;
    }
    Ok(names)
}

/// Whether a name is among these.
pub(crate) fn is_known(name: &Name, known: &[&Name]) -> bool
    ensures { result ≡ has_name (names_now known.now) name.now }
{
    for other in known {
        if name.as_slice() == other.as_slice() {
            return true;
        }
    }
    false
}

/// Whether all these names are among others.
fn are_known(names: &[Name], known: &[&Name]) -> bool
    ensures { result ≡ all_known (names_now known.now) names.now }
{
    for name in names {
        if !is_known(name, known) {
            return false;
        }
    }
    true
}

/// The index of an iteration, if it has one.
pub(crate) fn index_of<'a>(alloc: Global, how: &'a Iteration) -> Result<Row<&'a Name>, NoMemory>
    ensures { IfOk result (λ names. names_now names ≡ index_of how.now) }
{
    let mut names = Row::new(alloc);
    match how {
        Iteration::Below(index, _) => {
            names.push(index)?;
            Ok(names)
        }
        Iteration::Star | Iteration::Plus | Iteration::Quest | Iteration::Times(_) => Ok(names),
    }
}

/// Names with others behind them.
pub fn with_others<'a>(names: Row<&'a Name>, others: &[&'a Name]) -> Result<Row<&'a Name>, NoMemory>
    ensures { IfOk result (λ more. more ≡ names.entry ++ others.now) }
{
    let mut more = names;
    for other in others {
        more.push(*other)?;
    }
    Ok(more)
}

/// What is known inside an iteration: its index, and what is known outside.
fn known_inside<'a>(
    alloc: Global,
    how: &'a Iteration,
    known: &[&'a Name],
) -> Result<Row<&'a Name>, NoMemory>
    ensures { IfOk result (λ more.
        names_now more ≡ index_of how.now ++ names_now known.now) }
{
    let index = index_of(alloc, how)?;
    let more = with_others(index, known)?;
    Ok(more)
}

/// Whether all variables of an expression are known.
#[cycle(bound)]
pub(crate) fn is_bound<'a>(
    alloc: Global,
    exp: &'a IlExp,
    known: &[&'a Name],
) -> Result<bool, NoMemory>
    requires { (defs : List SyntaxDef) × IsFormed defs exp.now }
    ensures { IfOk result (λ bound. bound ≡ all_known (names_now known.now) (vars exp.now)) }
{
    match exp {
        IlExp::Var(name) => {
            let bound = is_known(name, known);
            Ok(bound)
        }
        IlExp::Iter(how, names, body) => {
            let bound = is_iteration_bound(alloc, how, names.as_slice(), body.get(), known)?;
            Ok(bound)
        }
        _ => {
            let exps = operands(alloc, exp)?;
            let bound = are_bound(alloc, exps.as_slice(), known)?;
            Ok(bound)
        }
    }
}

/// Whether all variables of several expressions are known.
#[cycle(bound)]
fn are_bound<'a>(alloc: Global, exps: &[&'a IlExp], known: &[&'a Name]) -> Result<bool, NoMemory>
    requires { (defs : List SyntaxDef) × AreFormed defs (exps_now exps.now) }
    ensures { IfOk result (λ bound.
        bound ≡ all_known (names_now known.now) (vars_of (exps_now exps.now))) }
{
    for i in 0..exps.len() {
        let bound = is_bound(alloc, exps[i], known)?;
        if !bound {
            return Ok(false);
        }
    }
    Ok(true)
}

/// Whether all variables of an iteration are known: those of its count, those that it names, and
/// but for its index those of its body.
#[cycle(bound)]
fn is_iteration_bound<'a>(
    alloc: Global,
    how: &'a Iteration,
    names: &[Name],
    body: &'a IlExp,
    known: &[&'a Name],
) -> Result<bool, NoMemory>
    requires count { (defs : List SyntaxDef) × AreFormed defs (count_of how.now) }
    requires body { (defs : List SyntaxDef) × IsFormed defs body.now }
    ensures { IfOk result (λ bound. bound ≡ all_known (names_now known.now)
        (vars_of (count_of how.now) ++ names.now ++ without (index_of how.now) (vars body.now))) }
{
    let exps = count_of(alloc, how)?;
    let counted = are_bound(alloc, exps.as_slice(), known)?;
    if !counted {
        return Ok(false);
    }
    if !are_known(names, known) {
        return Ok(false);
    }
    let inner = known_inside(alloc, how, known)?;
    let bound = is_bound(alloc, body, inner.as_slice())?;
    Ok(bound)
}
