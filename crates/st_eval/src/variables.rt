//! The variables of an expression.

ghost use Rattle.std.specs.Prelude.{◌≡◌, ◌++◌, List, IfOk};
ghost use Rattle.st_il.specs.declared.definition.SyntaxDef.{SyntaxDef};
ghost use Rattle.st_il.specs.Names.{without};
ghost use Rattle.st_semantics.specs.Formed.{IsFormed, AreFormed};
ghost use Rattle.st_semantics.specs.Iterations.{count_of, index_of};
ghost use Rattle.st_semantics.specs.Variables.{vars, vars_of};
ghost use Rattle.st_semantics.specs.References.{exps_now};
ghost use Rattle.st_eval.specs.inner.Known.{names_now};

use crate::known::{index_of, is_known, with_others};
use st_il::{IlExp, Iteration};
use st_num::{Name, NoMemory, Row};
use st_semantics::operands::{count_of, operands};
use std::alloc::Global;

/// Names with others behind them.
fn with_names<'a>(first: Row<&'a Name>, names: &'a [Name]) -> Result<Row<&'a Name>, NoMemory>
    ensures { IfOk result (λ more. names_now more ≡ names_now first.entry ++ names.now) }
{
    let mut more = first;
    for name in names {
        more.push(name)?;
    }
    Ok(more)
}

/// Names with others behind them, but for some.
fn with_names_but<'a>(
    first: Row<&'a Name>,
    some: &[&Name],
    names: &[&'a Name],
) -> Result<Row<&'a Name>, NoMemory>
    ensures { IfOk result (λ more. names_now more
        ≡ names_now first.entry ++ without (names_now some.now) (names_now names.now)) }
{
    let mut more = first;
    for name in names {
        if !is_known(name, some) {
            more.push(*name)?;
        }
    }
    Ok(more)
}

/// The variables of an expression, as they occur from left to right.
#[cycle(variables)]
pub fn variables<'a>(alloc: Global, exp: &'a IlExp) -> Result<Row<&'a Name>, NoMemory>
    requires { (defs : List SyntaxDef) × IsFormed defs exp.now }
    ensures { IfOk result (λ names. names_now names ≡ vars exp.now) }
{
    match exp {
        IlExp::Var(name) => {
            let mut names = Row::new(alloc);
            names.push(name)?;
            Ok(names)
        }
        IlExp::Iter(how, names, body) => {
            let found = iteration_variables(alloc, how, names.as_slice(), body.get())?;
            Ok(found)
        }
        _ => {
            let exps = operands(alloc, exp)?;
            let found = variables_of(alloc, exps.as_slice())?;
            Ok(found)
        }
    }
}

/// The variables of several expressions, those of one behind those of another.
#[cycle(variables)]
fn variables_of<'a>(alloc: Global, exps: &[&'a IlExp]) -> Result<Row<&'a Name>, NoMemory>
    requires { (defs : List SyntaxDef) × AreFormed defs (exps_now exps.now) }
    ensures { IfOk result (λ names. names_now names ≡ vars_of (exps_now exps.now)) }
{
    let mut names = Row::new(alloc);
    for i in 0..exps.len() {
        let found = variables(alloc, exps[i])?;
        names = with_others(names, found.as_slice())?;
    }
    Ok(names)
}

/// The variables of an iteration: those of its count, those that it names, and but for its index
/// those of its body.
#[cycle(variables)]
fn iteration_variables<'a>(
    alloc: Global,
    how: &'a Iteration,
    names: &'a [Name],
    body: &'a IlExp,
) -> Result<Row<&'a Name>, NoMemory>
    requires count { (defs : List SyntaxDef) × AreFormed defs (count_of how.now) }
    requires body { (defs : List SyntaxDef) × IsFormed defs body.now }
    ensures { IfOk result (λ found. names_now found ≡
        vars_of (count_of how.now) ++ names.now ++ without (index_of how.now) (vars body.now)) }
{
    let exps = count_of(alloc, how)?;
    let counted = variables_of(alloc, exps.as_slice())?;
    let named = with_names(counted, names)?;
    let inside = variables(alloc, body)?;
    let index = index_of(alloc, how)?;
    let found = with_names_but(named, index.as_slice(), inside.as_slice())?;
    Ok(found)
}
