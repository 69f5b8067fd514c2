//! What expressions come to.

ghost use Rattle.std.specs.Prelude.{◌≡◌, true, List, IfOk};
ghost use Rattle.st_il.specs.declared.expression.IlExp.{IlExp};
ghost use Rattle.st_semantics.specs.Parts.{Operation};
ghost use Rattle.st_semantics.specs.Forms.{HasForm, Strict, Iterates};
ghost use Rattle.st_semantics.specs.Formed.{IsFormed, AreFormed};
ghost use Rattle.st_semantics.specs.Matching.{no_answers};
ghost use Rattle.st_semantics.specs.Patterns.{is_pattern};
ghost use Rattle.st_semantics.specs.Iterations.{count_of, index_of, rows, gathered};
ghost use Rattle.st_semantics.specs.Evaluation.{Gives, GivesAll, Called, applied, tasks, each_task};
ghost use Rattle.st_match.specs.inner.Scope.{scope_env, entries_of, columns_now};
ghost use Rattle.st_semantics.specs.References.{exps_now};

use crate::caller::{Caller, NoFunctions};
use crate::column::{Table, element_scope, gathered, spread};
use crate::operations::operation;
use crate::scope::{Bound, scope_of, variable};
use st_il::{Env, IlExp, Iteration};
use st_num::{Name, NoMemory, Row};
use st_semantics::operands::{count_of, each, operands};
use st_semantics::{Outcome, Outcomes};
use st_types::TypeTable;
use std::alloc::Global;

/// What an expression comes to in an environment. Each record in it has the fields of its type, and
/// each absent part is of a list or an option.
pub fn value<C: Caller>(
    alloc: Global,
    types: &TypeTable,
    caller: &C,
    env: &Env,
    exp: &IlExp,
) -> Result<Outcome, NoMemory>
    requires callable { C.IsCallable caller.now }
    requires formed { IsFormed types.now exp.now }
    ensures { IfOk result (λ outcome.
        Gives types.now (C.answers caller.now) env.now exp.now outcome) }
{
    let scope = scope_of(alloc, env)?;
    let outcome = outcome_of(alloc, types, caller, scope.as_slice(), exp)?;
    Ok(outcome)
}

/// What several expressions come to in an environment, one after another: all their values, or the
/// first outcome that is none.
pub fn values<C: Caller>(
    alloc: Global,
    types: &TypeTable,
    caller: &C,
    env: &Env,
    exps: &[IlExp],
) -> Result<Outcomes, NoMemory>
    requires callable { C.IsCallable caller.now }
    requires formed { AreFormed types.now exps.now }
    ensures { IfOk result (λ outcomes.
        GivesAll types.now (C.answers caller.now) (tasks env.now exps.now) outcomes) }
{
    let scope = scope_of(alloc, env)?;
    let exps = each(alloc, exps)?;
    let outcomes = outcomes_of(alloc, types, caller, scope.as_slice(), exps.as_slice())?;
    Ok(outcomes)
}

/// What a pattern comes to in an environment. Nothing is called in it.
pub(crate) fn pattern_value(
    alloc: Global,
    types: &TypeTable,
    env: &Env,
    pattern: &IlExp,
) -> Result<Outcome, NoMemory>
    requires formed { IsFormed types.now pattern.now }
    requires pattern { is_pattern pattern.now ≡ true }
    ensures { IfOk result (λ outcome. Gives types.now no_answers env.now pattern.now outcome) }
{
    let outcome = value(alloc, types, &NoFunctions, env, pattern)?;
    Ok(outcome)
}

/// What the call comes to, where the arguments have values.
fn called<C: Caller>(caller: &C, fun: &Name, found: Outcomes) -> Result<Outcome, NoMemory>
    requires { C.IsCallable caller.now }
    ensures { IfOk result (λ outcome.
        Called (C.answers caller.now) fun.now found outcome) }
{
    match found {
        Outcomes::Values(args) => {
            let outcome = caller.call(fun, args)?;
            Ok(outcome)
        }
        Outcomes::Stopped(outcome) => Ok(outcome),
    }
}

/// What the operation of an expression makes, where its operands have values.
fn operated(
    alloc: Global,
    types: &TypeTable,
    exp: &IlExp,
    found: Outcomes,
) -> Result<Outcome, NoMemory>
    ensures { IfOk result (λ outcome. (es : List IlExp) (f : Operation)
        → HasForm types.now exp.now (Strict es f) → outcome ≡ applied f found) }
{
    match found {
        Outcomes::Values(values) => {
            let outcome = operation(alloc, types, exp, values)?;
            Ok(outcome)
        }
        Outcomes::Stopped(outcome) => Ok(outcome),
    }
}

/// What an expression comes to where these variables are bound.
#[cycle(value)]
fn outcome_of<'a, C: Caller>(
    alloc: Global,
    types: &TypeTable,
    caller: &C,
    scope: &[Bound<'a>],
    exp: &'a IlExp,
) -> Result<Outcome, NoMemory>
    requires callable { C.IsCallable caller.now }
    requires formed { IsFormed types.now exp.now }
    ensures { IfOk result (λ outcome.
        Gives types.now (C.answers caller.now) (scope_env scope.now) exp.now outcome) }
{
    match exp {
        IlExp::Var(name) => {
            let outcome = variable(alloc, name, scope)?;
            Ok(outcome)
        }
        IlExp::Call(fun, _) => {
            let exps = operands(alloc, exp)?;
            let found = outcomes_of(alloc, types, caller, scope, exps.as_slice())?;
            let outcome = called(caller, fun, found)?;
            Ok(outcome)
        }
        IlExp::Iter(how, names, body) => {
            let names = names.as_slice();
            let outcome = iterated(alloc, types, caller, scope, body.get(), how, names)?;
            Ok(outcome)
        }
        _ => {
            let exps = operands(alloc, exp)?;
            let found = outcomes_of(alloc, types, caller, scope, exps.as_slice())?;
            let outcome = operated(alloc, types, exp, found)?;
            Ok(outcome)
        }
    }
}

/// What several expressions come to, from left to right.
#[cycle(value)]
fn outcomes_of<'a, C: Caller>(
    alloc: Global,
    types: &TypeTable,
    caller: &C,
    scope: &[Bound<'a>],
    exps: &[&'a IlExp],
) -> Result<Outcomes, NoMemory>
    requires callable { C.IsCallable caller.now }
    requires formed { AreFormed types.now (exps_now exps.now) }
    ensures { IfOk result (λ outcomes. GivesAll types.now (C.answers caller.now)
        (tasks (scope_env scope.now) (exps_now exps.now)) outcomes) }
{
    let mut values = Row::new(alloc);
    for i in 0..exps.len() {
        let outcome = outcome_of(alloc, types, caller, scope, exps[i])?;
        match outcome {
            Outcome::Val(value) => values.push(value)?,
            Outcome::NoValue => return Ok(Outcomes::Stopped(Outcome::NoValue)),
            Outcome::Deep => return Ok(Outcomes::Stopped(Outcome::Deep)),
        }
    }
    Ok(Outcomes::Values(values))
}

/// What an iteration comes to.
#[cycle(value)]
fn iterated<'a, C: Caller>(
    alloc: Global,
    types: &TypeTable,
    caller: &C,
    scope: &[Bound<'a>],
    body: &'a IlExp,
    how: &'a Iteration,
    names: &'a [Name],
) -> Result<Outcome, NoMemory>
    requires callable { C.IsCallable caller.now }
    requires count { AreFormed types.now (count_of how.now) }
    requires body { IsFormed types.now body.now }
    ensures { IfOk result (λ outcome. (exp : IlExp)
        → HasForm types.now exp (Iterates how.now names.now body.now)
        → Gives types.now (C.answers caller.now) (scope_env scope.now) exp outcome) }
{
    let exps = count_of(alloc, how)?;
    let found = outcomes_of(alloc, types, caller, scope, exps.as_slice())?;
    match found {
        Outcomes::Stopped(outcome) => Ok(outcome),
        Outcomes::Values(count) => {
            let found = spread(alloc, how, names, scope, count.as_slice())?;
            match found {
                None => Ok(Outcome::NoValue),
                Some(elements) => {
                    let found = at_elements(
                        alloc, types, caller, scope, body, how, names, &elements,
                    )?;
                    let outcome = made_of(alloc, how, found)?;
                    Ok(outcome)
                }
            }
        }
    }
}

/// What an iteration makes, where its body has values.
fn made_of(alloc: Global, how: &Iteration, found: Outcomes) -> Result<Outcome, NoMemory>
    ensures { IfOk result (λ outcome. outcome ≡ applied (gathered how.now) found) }
{
    match found {
        Outcomes::Values(values) => {
            let outcome = gathered(alloc, how, values)?;
            Ok(outcome)
        }
        Outcomes::Stopped(outcome) => Ok(outcome),
    }
}

/// What the body of an iteration comes to at its elements, one after another.
#[cycle(value)]
fn at_elements<'a, C: Caller>(
    alloc: Global,
    types: &TypeTable,
    caller: &C,
    scope: &[Bound<'a>],
    body: &'a IlExp,
    how: &'a Iteration,
    names: &'a [Name],
    elements: &Table<'a>,
) -> Result<Outcomes, NoMemory>
    requires callable { C.IsCallable caller.now }
    requires formed { IsFormed types.now body.now }
    ensures { IfOk result (λ outcomes. GivesAll types.now (C.answers caller.now)
        (each_task (rows (index_of how.now) names.now (entries_of scope.now) elements.now.size 0
        (columns_now elements.now.columns)) body.now) outcomes) }
{
    let mut values = Row::new(alloc);
    for at in 0..elements.size {
        let inner = element_scope(alloc, how, names, elements, at, scope)?;
        let outcome = outcome_of(alloc, types, caller, inner.as_slice(), body)?;
        match outcome {
            Outcome::Val(value) => values.push(value)?,
            Outcome::NoValue => return Ok(Outcomes::Stopped(Outcome::NoValue)),
            Outcome::Deep => return Ok(Outcomes::Stopped(Outcome::Deep)),
        }
    }
    Ok(Outcomes::Values(values))
}
