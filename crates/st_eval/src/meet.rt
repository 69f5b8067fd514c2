//! Premises that are met with some variables bound.
//!
//! What is bound is told by references: an iterated premise goes over the elements of its lists one
//! after another, and copies none of them but where a condition is evaluated or matched.

ghost use Rattle.std.specs.Prelude.{◌≡◌, ◌++◌, ◌<◌, ◌^◌, List, IfOk, MatchOption};
ghost use Rattle.st_il.specs.declared.expression.IlPrem.{IlPrem, out-IlPrem};
ghost use Rattle.st_il.specs.declared.expression.IlPrem.TheOpen.{IlPrem-F};
ghost use Rattle.st_il.specs.Names.{Name};
ghost use Rattle.st_semantics.specs.Iterations.{index_of, spread, rows, Misfit, Over};
ghost use Rattle.st_match.specs.inner.Scope.{scope_env, entries_of, columns_now};
ghost use Rattle.st_eval.specs.Steps.{HasOnly};
ghost use Rattle.st_eval.specs.Setting.{IsSetting, AnswersCalls};
ghost use Rattle.st_eval.specs.Meeting.{IsMet, IsCondition};
ghost use Rattle.st_eval.specs.CanBeMet.{CanBeMet};
ghost use Rattle.st_eval.specs.inner.Known.{names_now};
ghost use Rattle.st_eval.specs.inner.Beside.{met_beside};
ghost use Rattle.st_eval.specs.inner.AtElements.{CanMeetEach, AllHaveOnly, AreMet, IsBehind};

use crate::condition::{Met, meet_condition};
use crate::each::{copy_names, count_values, gathered_met, names_known, stopped};
use crate::element::{bound_in, bound_inside, bound_names};
use crate::listing::listed_inside;
use crate::reading::Setting;
use st_il::{Env, IlExp, IlPrem, Iteration, Listed, Value, copy_fields};
use st_match::{Bound, Caller, Elements, Table, scope_of, spread};
use st_num::{Name, NoMemory, Row};
use st_semantics::Outcomes;
use st_types::TypeTable;
use std::alloc::Global;

/// What the inner premise comes to at the elements, one after another.
#[derive(Drop)]
pub(crate) enum AtElements {
    /// It holds at all of them, with these values of its variables at each.
    Hold(Row<Env>),
    /// It holds up to one at which it fails.
    Fails,
    /// It holds up to one at which it meets Deep.
    Deep,
}

/// What a condition comes to. Of what is bound only the variables that occur in it are copied.
fn met_condition<C: Caller>(
    alloc: Global,
    setting: &Setting<'_>,
    caller: &C,
    variables: &[Listed],
    scope: &[Bound],
    exp: &IlExp,
) -> Result<Met, NoMemory>
    requires setting { IsSetting setting.now }
    requires callable { C.IsCallable caller.now }
    requires answers { AnswersCalls setting.now (C.answers caller.now) }
    requires can { (bound : List Name)
        × HasOnly setting.now.index.now variables.now bound (scope_env scope.now)
        × IsCondition setting.now.index.now bound variables.now exp.now }
    ensures { IfOk result (λ met. (bound : List Name) (p : IlPrem)
        → out-IlPrem p ≡ IlPrem-F.If exp.now
        → HasOnly setting.now.index.now variables.now bound (scope_env scope.now)
        → IsCondition setting.now.index.now bound variables.now exp.now
        → IsMet setting.now.index.now setting.now.depth bound variables.now (scope_env scope.now) p
        (met_beside (scope_env scope.now) met)) }
{
    let env = bound_in(alloc, exp, scope)?;
    let met = meet_condition(alloc, setting, caller, variables, &env, exp)?;
    Ok(met)
}

/// The elements that an iteration goes over, where the lists of these variables fit.
pub fn table_over<'a>(
    alloc: Global,
    how: &Iteration,
    names: &[&Name],
    scope: &[Bound<'a>],
    count: &[Value],
) -> Result<Option<Table<'a>>, NoMemory>
    ensures { IfOk result (λ found. MatchOption found
        (spread how.now (names_now names.now) (scope_env scope.now) count.now ≡ Misfit)
        (λ elements. spread how.now (names_now names.now) (scope_env scope.now) count.now
        ≡ Over (rows (index_of how.now) (names_now names.now) (entries_of scope.now)
        elements.size 0 (columns_now elements.columns)))) }
{
    let names = copy_names(alloc, names)?;
    let found = spread(alloc, how, names.as_slice(), scope, count)?;
    Ok(found)
}

/// What an iterated premise comes to behind its elements.
fn met_behind(
    alloc: Global,
    types: &TypeTable,
    variables: &[Listed],
    known: &[&Name],
    how: &Iteration,
    names: &[Name],
    reached: AtElements,
) -> Result<Met, NoMemory>
    ensures { IfOk result (λ met. IsBehind types.now variables.now (names_now known.now)
        how.now names.now reached met) }
{
    match reached {
        AtElements::Hold(found) => {
            let found = found.as_slice();
            let met = gathered_met(alloc, types, variables, known, how, names, found)?;
            Ok(met)
        }
        AtElements::Fails => Ok(Met::Fails),
        AtElements::Deep => Ok(Met::Deep),
    }
}

/// What a premise comes to where these variables are bound. Where it holds, the values are those of
/// its own variables.
#[cycle(meet)]
fn met_in<'a, C: Caller>(
    alloc: Global,
    setting: &Setting<'_>,
    caller: &C,
    variables: &[Listed],
    scope: &[Bound<'a>],
    premise: &'a IlPrem,
) -> Result<Met, NoMemory>
    requires setting { IsSetting setting.now }
    requires callable { C.IsCallable caller.now }
    requires answers { AnswersCalls setting.now (C.answers caller.now) }
    requires can { (bound : List Name)
        × HasOnly setting.now.index.now variables.now bound (scope_env scope.now)
        × CanBeMet setting.now.index.now bound variables.now premise.now }
    ensures { IfOk result (λ met. (bound : List Name)
        → HasOnly setting.now.index.now variables.now bound (scope_env scope.now)
        → CanBeMet setting.now.index.now bound variables.now premise.now
        → IsMet setting.now.index.now setting.now.depth bound variables.now (scope_env scope.now)
        premise.now (met_beside (scope_env scope.now) met)) }
{
    match premise {
        IlPrem::If(exp) => {
            let met = met_condition(alloc, setting, caller, variables, scope, exp)?;
            Ok(met)
        }
        IlPrem::Goal(_, _) => Ok(Met::Fails),
        IlPrem::Otherwise => {
            let entries = Row::new(alloc);
            Ok(Met::Holds(Env { entries }))
        }
        IlPrem::Each(how, names, body) => {
            let names = names.as_slice();
            let met = met_each(
                alloc,
                setting,
                caller,
                variables,
                scope,
                how,
                names,
                body.get(),
            )?;
            Ok(met)
        }
    }
}

/// What an iterated premise comes to where these variables are bound.
#[cycle(meet)]
fn met_each<'a, C: Caller>(
    alloc: Global,
    setting: &Setting<'_>,
    caller: &C,
    variables: &[Listed],
    scope: &[Bound<'a>],
    how: &'a Iteration,
    names: &'a [Name],
    body: &'a IlPrem,
) -> Result<Met, NoMemory>
    requires setting { IsSetting setting.now }
    requires callable { C.IsCallable caller.now }
    requires answers { AnswersCalls setting.now (C.answers caller.now) }
    requires can { (bound : List Name) × (p : IlPrem)
        × HasOnly setting.now.index.now variables.now bound (scope_env scope.now)
        × CanMeetEach setting.now.index.now bound variables.now p how.now names.now body.now }
    ensures { IfOk result (λ met. (bound : List Name) (p : IlPrem)
        → HasOnly setting.now.index.now variables.now bound (scope_env scope.now)
        → CanMeetEach setting.now.index.now bound variables.now p how.now names.now body.now
        → IsMet setting.now.index.now setting.now.depth bound variables.now (scope_env scope.now) p
        (met_beside (scope_env scope.now) met)) }
{
    let known = bound_names(alloc, scope)?;
    let count = count_values(alloc, setting, caller, scope, known.as_slice(), how)?;
    match count {
        Outcomes::Stopped(outcome) => Ok(stopped(outcome)),
        Outcomes::Values(count) => {
            let bound = names_known(alloc, names, known.as_slice())?;
            let table = table_over(alloc, how, bound.as_slice(), scope, count.as_slice())?;
            match table {
                None => Ok(Met::Fails),
                Some(elements) => {
                    let inside = listed_inside(alloc, how, names, variables)?;
                    let reached = at_elements(
                        alloc,
                        setting,
                        caller,
                        inside.as_slice(),
                        scope,
                        how,
                        bound.as_slice(),
                        elements.columns.as_slice(),
                        elements.size,
                        body,
                    )?;
                    let known = known.as_slice();
                    let types = setting.types;
                    let met = met_behind(alloc, types, variables, known, how, names, reached)?;
                    Ok(met)
                }
            }
        }
    }
}

/// What the inner premise of an iterated one comes to at the elements, one after another.
#[cycle(meet)]
fn at_elements<'a, C: Caller>(
    alloc: Global,
    setting: &Setting<'_>,
    caller: &C,
    variables: &[Listed],
    scope: &[Bound<'a>],
    how: &'a Iteration,
    names: &[&'a Name],
    columns: &[Elements<'a>],
    size: u128,
    body: &'a IlPrem,
) -> Result<AtElements, NoMemory>
    requires setting { IsSetting setting.now }
    requires callable { C.IsCallable caller.now }
    requires answers { AnswersCalls setting.now (C.answers caller.now) }
    requires can { (bound : List Name)
        × (size < 2 ^ 128 → AllHaveOnly setting.now.index.now variables.now bound
        (rows (index_of how.now) (names_now names.now) (entries_of scope.now) size 0
        (columns_now columns.now)))
        × CanBeMet setting.now.index.now bound variables.now body.now }
    ensures small { IfOk result (λ reached. size < 2 ^ 128) }
    ensures met { IfOk result (λ reached. (bound : List Name)
        → (size < 2 ^ 128 → AllHaveOnly setting.now.index.now variables.now bound
        (rows (index_of how.now) (names_now names.now) (entries_of scope.now) size 0
        (columns_now columns.now)))
        → CanBeMet setting.now.index.now bound variables.now body.now
        → AreMet setting.now.index.now setting.now.depth bound variables.now body.now
        (rows (index_of how.now) (names_now names.now) (entries_of scope.now) size 0
        (columns_now columns.now)) reached) }
{
    let mut found = Row::new(alloc);
    for at in 0..size {
        let inner = bound_inside(alloc, how, names, columns, at, scope)?;
        let met = met_in(alloc, setting, caller, variables, inner.as_slice(), body)?;
        match met {
            Met::Holds(env) => found.push(env)?,
            Met::Fails => return Ok(AtElements::Fails),
            Met::Deep => return Ok(AtElements::Deep),
        }
    }
    Ok(AtElements::Hold(found))
}

/// What is met, with the entries of an environment behind those that it binds.
fn with_bound(alloc: Global, met: Met, env: &Env) -> Result<Met, NoMemory>
    ensures { IfOk result (λ whole. whole ≡ met_beside env.now met) }
{
    match met {
        Met::Holds(more) => {
            let bound = copy_fields(alloc, env.entries.as_slice())?;
            let mut entries = more.entries.into_vec();
            let mut bound = bound.into_vec();
            entries.append(&mut bound)?;
            let entries = Row::from_vec(entries);
            Ok(Met::Holds(Env { entries }))
        }
        Met::Fails => Ok(Met::Fails),
        Met::Deep => Ok(Met::Deep),
    }
}

/// What a premise comes to where the variables of an environment are bound. Where it holds, the
/// environment that it holds with has their values too.
pub(crate) fn meet<C: Caller>(
    alloc: Global,
    setting: &Setting<'_>,
    caller: &C,
    variables: &[Listed],
    env: &Env,
    premise: &IlPrem,
) -> Result<Met, NoMemory>
    requires setting { IsSetting setting.now }
    requires callable { C.IsCallable caller.now }
    requires answers { AnswersCalls setting.now (C.answers caller.now) }
    requires can { (bound : List Name)
        × HasOnly setting.now.index.now variables.now bound env.now
        × CanBeMet setting.now.index.now bound variables.now premise.now }
    ensures { IfOk result (λ met. (bound : List Name)
        → HasOnly setting.now.index.now variables.now bound env.now
        → CanBeMet setting.now.index.now bound variables.now premise.now
        → IsMet setting.now.index.now setting.now.depth bound variables.now env.now premise.now
        met) }
{
    let scope = scope_of(alloc, env)?;
    let met = met_in(alloc, setting, caller, variables, scope.as_slice(), premise)?;
    let whole = with_bound(alloc, met, env)?;
    Ok(whole)
}
