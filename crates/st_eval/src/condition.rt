//! Conditions that are met with some variables bound.

ghost use Rattle.std.specs.Prelude.{◌≡◌, ◌↔◌, ◌++◌, [], ◌∷◌, true, IsTrue, List, IfOk, MatchOption};
ghost use Rattle.st_il.specs.declared.expression.IlExp.{IlExp};
ghost use Rattle.st_il.specs.declared.expression.IlPrem.{IlPrem, out-IlPrem};
ghost use Rattle.st_il.specs.declared.expression.IlPrem.TheOpen.{IlPrem-F};
ghost use Rattle.st_il.specs.declared.value.Env.{Env};
ghost use Rattle.st_il.specs.declared.value.Value.TheVariants as variant;
ghost use Rattle.st_il.specs.Names.{Name, all_known};
ghost use Rattle.st_il.specs.Definitions.{syntaxes};
ghost use Rattle.st_semantics.specs.Environments.{names_of};
ghost use Rattle.st_semantics.specs.Formed.{IsFormed};
ghost use Rattle.st_semantics.specs.Patterns.{is_pattern, binds};
ghost use Rattle.st_semantics.specs.Variables.{vars};
ghost use Rattle.st_eval.specs.Steps.{HasOnly};
ghost use Rattle.st_eval.specs.Setting.{IsSetting, AnswersCalls};
ghost use Rattle.st_eval.specs.Meeting.{IsTested, IsMet, IsMatched, IsEquated, IsCondition};

use crate::known::{is_bound, names_of};
use crate::reading::{Setting, value_of};
use st_il::{Env, IlExp, Listed, Value, copy_env};
use st_match::{Caller, matches};
use st_num::{NoMemory, Row};
use st_semantics::Outcome;
use std::alloc::Global;

/// What a premise comes to that is met with some variables bound.
#[derive(Drop)]
pub enum Met {
    /// It holds, with these values of its variables.
    Holds(Env),
    /// It holds with no values of the variables that it binds.
    Fails,
    Deep,
}

/// Whether the value is the truth value `true`.
fn is_true(value: &Value) -> bool
    ensures { IsTrue result ↔ (value.now ≡ variant.Bool true) }
{
    match value {
        Value::Bool(truth) => *truth,
        _ => false,
    }
}

/// What a condition with this outcome comes to.
fn tested_by(alloc: Global, env: &Env, outcome: Outcome) -> Result<Met, NoMemory>
    ensures { IfOk result (λ met. IsTested env.now outcome met) }
{
    match outcome {
        Outcome::Val(value) => {
            if is_true(&value) {
                let same = copy_env(alloc, env)?;
                Ok(Met::Holds(same))
            } else {
                Ok(Met::Fails)
            }
        }
        Outcome::NoValue => Ok(Met::Fails),
        Outcome::Deep => Ok(Met::Deep),
    }
}

/// What a condition comes to, all of whose variables are bound.
pub fn tested<C: Caller>(
    alloc: Global,
    setting: &Setting<'_>,
    caller: &C,
    variables: &[Listed],
    env: &Env,
    exp: &IlExp,
) -> Result<Met, NoMemory>
    requires setting { IsSetting setting.now }
    requires callable { C.IsCallable caller.now }
    requires answers { AnswersCalls setting.now (C.answers caller.now) }
    requires formed { IsFormed (syntaxes setting.now.index.now) exp.now }
    ensures { IfOk result (λ met. (bound : List Name) (p : IlPrem)
        → out-IlPrem p ≡ IlPrem-F.If exp.now → all_known bound (vars exp.now) ≡ true
        → HasOnly setting.now.index.now variables.now bound env.now
        → IsMet setting.now.index.now setting.now.depth bound variables.now env.now p met) }
{
    let outcome = value_of(alloc, setting, caller, env, exp)?;
    let met = tested_by(alloc, env, outcome)?;
    Ok(met)
}

/// The last of some environments, if there are some.
pub(crate) fn one_of(found: Row<Env>) -> Option<Env>
    ensures { MatchOption result (found ≡ [])
        (λ env. (others : List Env) × (found ≡ others ++ env ∷ [])) }
{
    let mut found = found;
    found.pop()
}

/// What an equation comes to whose bound side has this value.
fn matched(
    alloc: Global,
    setting: &Setting<'_>,
    variables: &[Listed],
    env: &Env,
    pattern: &IlExp,
    value: &Value,
) -> Result<Met, NoMemory>
    requires setting { IsSetting setting.now }
    requires pattern { is_pattern pattern.now ≡ true }
    requires formed { IsFormed (syntaxes setting.now.index.now) pattern.now }
    requires bound { all_known (names_of env.now ++ binds pattern.now) (vars pattern.now) ≡ true }
    ensures { IfOk result (λ met. IsMatched (syntaxes setting.now.index.now) variables.now
        pattern.now value.now env.now met) }
{
    let found = matches(alloc, setting.types, variables, pattern, value, env)?;
    match one_of(found) {
        None => Ok(Met::Fails),
        Some(more) => Ok(Met::Holds(more)),
    }
}

/// What an equation comes to, one side of which is bound and the other one a pattern.
fn equation<C: Caller>(
    alloc: Global,
    setting: &Setting<'_>,
    caller: &C,
    variables: &[Listed],
    env: &Env,
    side: &IlExp,
    pattern: &IlExp,
) -> Result<Met, NoMemory>
    requires setting { IsSetting setting.now }
    requires callable { C.IsCallable caller.now }
    requires answers { AnswersCalls setting.now (C.answers caller.now) }
    requires side { IsFormed (syntaxes setting.now.index.now) side.now }
    requires pattern { is_pattern pattern.now ≡ true }
    requires formed { IsFormed (syntaxes setting.now.index.now) pattern.now }
    requires bound { all_known (names_of env.now ++ binds pattern.now) (vars pattern.now) ≡ true }
    ensures { IfOk result (λ met. IsEquated setting.now.index.now setting.now.depth variables.now
        env.now side.now pattern.now met) }
{
    let outcome = value_of(alloc, setting, caller, env, side)?;
    match outcome {
        Outcome::Val(value) => {
            let met = matched(alloc, setting, variables, env, pattern, &value)?;
            Ok(met)
        }
        Outcome::NoValue => Ok(Met::Fails),
        Outcome::Deep => Ok(Met::Deep),
    }
}

/// What a condition comes to: a test where all its variables are bound, and else an equation.
pub fn meet_condition<C: Caller>(
    alloc: Global,
    setting: &Setting<'_>,
    caller: &C,
    variables: &[Listed],
    env: &Env,
    exp: &IlExp,
) -> Result<Met, NoMemory>
    requires setting { IsSetting setting.now }
    requires callable { C.IsCallable caller.now }
    requires answers { AnswersCalls setting.now (C.answers caller.now) }
    requires can { (bound : List Name) × HasOnly setting.now.index.now variables.now bound env.now
        × IsCondition setting.now.index.now bound variables.now exp.now }
    ensures { IfOk result (λ met. (bound : List Name) (p : IlPrem)
        → out-IlPrem p ≡ IlPrem-F.If exp.now
        → HasOnly setting.now.index.now variables.now bound env.now
        → IsCondition setting.now.index.now bound variables.now exp.now
        → IsMet setting.now.index.now setting.now.depth bound variables.now env.now p met) }
{
    let known = names_of(alloc, env)?;
    let bound = is_bound(alloc, exp, known.as_slice())?;
    if bound {
        let met = tested(alloc, setting, caller, variables, env, exp)?;
        return Ok(met);
    }
    match exp {
        IlExp::Eq(left, right) => {
            let first = is_bound(alloc, left.get(), known.as_slice())?;
            if first {
                let met = equation(
                    alloc,
                    setting,
                    caller,
                    variables,
                    env,
                    left.get(),
                    right.get(),
                )?;
                Ok(met)
            } else {
                let met = equation(
                    alloc,
                    setting,
                    caller,
                    variables,
                    env,
                    right.get(),
                    left.get(),
                )?;
                Ok(met)
            }
        }
        _ => Ok(Met::Fails),
    }
}
