//! What an iterated premise comes to beside its elements: its count, the lists that it goes over, and
//! what is gathered of what the elements bind.

ghost use Rattle.std.specs.Prelude.{◌≡◌, ◌↔◌, ◌++◌, [], ◌∷◌, length, false, pos, IsTrue, IfOk, MatchOption};
ghost use Rattle.std.specs.Option.{option_copied};
ghost use Rattle.st_il.specs.declared.expression.IlExp.{out-IlExp};
ghost use Rattle.st_il.specs.declared.expression.IlExp.TheOpen.{IlExp-F};
ghost use Rattle.st_il.specs.declared.value.Value.TheVariants as variant;
ghost use Rattle.st_il.specs.Names.{Name, has_name, without, among};
ghost use Rattle.st_il.specs.Definitions.{syntaxes};
ghost use Rattle.st_semantics.specs.Environments.{value_in, type_of, listed_as, IsTypedValue};
ghost use Rattle.st_semantics.specs.Formed.{IsFormed, AreFormed};
ghost use Rattle.st_semantics.specs.Iterations.{count_of};
ghost use Rattle.st_semantics.specs.Parts.{option_list};
ghost use Rattle.st_semantics.specs.Evaluation.{GivesAll, tasks};
ghost use Rattle.st_semantics.specs.Depth.{bound_count};
ghost use Rattle.st_semantics.specs.Calls.{CallAt};
ghost use Rattle.st_match.specs.inner.Scope.{scope_env};
ghost use Rattle.st_eval.specs.Setting.{IsSetting, AnswersCalls};
ghost use Rattle.st_eval.specs.inner.Known.{names_now};
ghost use Rattle.st_eval.specs.inner.Gathered.{bound_one, alone, met_stopped, IsUnknownCount, values_there, gathered_entry, gathered_entries, HasNumber, IsCounted, met_counted, IsGathered};

use crate::condition::Met;
use crate::element::{bound_in, number_value};
use crate::known::{is_bound, is_known};
use crate::reading::{Setting, value_of};
use st_il::{Env, IlExp, Iteration, Listed, Value, copy_value};
use st_match::{Bound, Caller, gathered};
use st_num::{Name, NoMemory, Row};
use st_semantics::{Outcome, Outcomes};
use st_types::{TypeTable, has_type};
use std::alloc::Global;

/// The count of an iteration, if it has one.
fn count_exp<'a>(how: &'a Iteration) -> Option<&'a IlExp>
    ensures { count_of how.now ≡ option_list (option_copied result) }
{
    match how {
        Iteration::Star | Iteration::Plus | Iteration::Quest => None,
        Iteration::Times(exp) => Some(exp.get()),
        Iteration::Below(_, exp) => Some(exp.get()),
    }
}

/// One outcome as that of several expressions.
fn alone(alloc: Global, outcome: Outcome) -> Result<Outcomes, NoMemory>
    ensures { IfOk result (λ outcomes. outcomes ≡ alone outcome) }
{
    match outcome {
        Outcome::Val(value) => {
            let mut values = Row::new(alloc);
            values.push(value)?;
            Ok(Outcomes::Values(values))
        }
        Outcome::NoValue => Ok(Outcomes::Stopped(Outcome::NoValue)),
        Outcome::Deep => Ok(Outcomes::Stopped(Outcome::Deep)),
    }
}

/// What an expression comes to, if all its variables are bound.
fn value_known<'a, C: Caller>(
    alloc: Global,
    setting: &Setting<'_>,
    caller: &C,
    scope: &[Bound<'a>],
    known: &[&'a Name],
    exp: &'a IlExp,
) -> Result<Outcomes, NoMemory>
    requires setting { IsSetting setting.now }
    requires callable { C.IsCallable caller.now }
    requires answers { AnswersCalls setting.now (C.answers caller.now) }
    requires formed { IsFormed (syntaxes setting.now.index.now) exp.now }
    ensures { IfOk result (λ outcomes.
        GivesAll (syntaxes setting.now.index.now) (CallAt setting.now.index.now setting.now.depth)
        (tasks (scope_env scope.now) (bound_one (names_now known.now) exp.now)) outcomes) }
{
    let bound = is_bound(alloc, exp, known)?;
    if !bound {
        return Ok(Outcomes::Values(Row::new(alloc)));
    }
    let env = bound_in(alloc, exp, scope)?;
    let outcome = value_of(alloc, setting, caller, &env, exp)?;
    let outcomes = alone(alloc, outcome)?;
    Ok(outcomes)
}

/// What the count of an iteration comes to, if it has one whose variables are all bound.
pub fn count_values<'a, C: Caller>(
    alloc: Global,
    setting: &Setting<'_>,
    caller: &C,
    scope: &[Bound<'a>],
    known: &[&'a Name],
    how: &'a Iteration,
) -> Result<Outcomes, NoMemory>
    requires setting { IsSetting setting.now }
    requires callable { C.IsCallable caller.now }
    requires answers { AnswersCalls setting.now (C.answers caller.now) }
    requires formed { AreFormed (syntaxes setting.now.index.now) (count_of how.now) }
    ensures { IfOk result (λ outcomes.
        GivesAll (syntaxes setting.now.index.now) (CallAt setting.now.index.now setting.now.depth)
        (tasks (scope_env scope.now) (bound_count (names_now known.now) how.now)) outcomes) }
{
    match count_exp(how) {
        None => Ok(Outcomes::Values(Row::new(alloc))),
        Some(exp) => {
            let outcomes = value_known(alloc, setting, caller, scope, known, exp)?;
            Ok(outcomes)
        }
    }
}

/// What an iterated premise comes to whose count has this outcome, which is no value.
pub(crate) fn stopped(outcome: Outcome) -> Met
    ensures { result ≡ met_stopped outcome }
{
    match outcome {
        Outcome::Val(_) => Met::Fails,
        Outcome::NoValue => Met::Fails,
        Outcome::Deep => Met::Deep,
    }
}

/// Those of the names that are bound.
pub fn names_known<'a>(
    alloc: Global,
    names: &'a [Name],
    known: &[&Name],
) -> Result<Row<&'a Name>, NoMemory>
    ensures { IfOk result (λ bound. names_now bound ≡ among (names_now known.now) names.now) }
{
    let mut bound = Row::new(alloc);
    for name in names {
        if is_known(name, known) {
            bound.push(name)?;
        }
    }
    Ok(bound)
}

/// Copies of these names.
pub(crate) fn copy_names(alloc: Global, names: &[&Name]) -> Result<Row<Name>, NoMemory>
    ensures { IfOk result (λ copies. copies ≡ names_now names.now) }
{
    let mut copies = Row::new(alloc);
    for name in names {
        copies.push(name.copy(alloc)?)?;
    }
    Ok(copies)
}

/// Those of the names that are not bound.
fn names_unknown<'a>(
    alloc: Global,
    names: &'a [Name],
    known: &[&Name],
) -> Result<Row<&'a Name>, NoMemory>
    ensures { IfOk result (λ unknown.
        names_now unknown ≡ without (names_now known.now) names.now) }
{
    let mut unknown = Row::new(alloc);
    for name in names {
        if !is_known(name, known) {
            unknown.push(name)?;
        }
    }
    Ok(unknown)
}

/// The value of a variable, if the environment has it.
fn value_in<'a>(name: &Name, env: &'a Env) -> Option<&'a Value>
    ensures { option_copied result ≡ value_in env.now name.now }
{
    for entry in env.entries.as_slice() {
        if name.as_slice() == entry.0.as_slice() {
            return Some(&entry.1);
        }
    }
    None
}

/// Values with that of a variable behind them, if the environment has it.
fn with_value(
    alloc: Global,
    values: Row<Value>,
    name: &Name,
    env: &Env,
) -> Result<Row<Value>, NoMemory>
    ensures { IfOk result (λ more. more ≡ values ++ option_list (value_in env.now name.now)) }
{
    let mut more = values;
    match value_in(name, env) {
        None => Ok(more),
        Some(value) => {
            let value = copy_value(alloc, value)?;
            more.push(value)?;
            Ok(more)
        }
    }
}

/// The values of a variable at the elements.
fn values_there(alloc: Global, name: &Name, found: &[Env]) -> Result<Row<Value>, NoMemory>
    ensures { IfOk result (λ values. values ≡ values_there name.now found.now) }
{
    let mut values = Row::new(alloc);
    for env in found {
        values = with_value(alloc, values, name, env)?;
    }
    Ok(values)
}

/// The list or the option of the values of a variable at the elements, if it is not too high.
fn gathered_entry(
    alloc: Global,
    how: &Iteration,
    name: &Name,
    found: &[Env],
) -> Result<Option<(Name, Value)>, NoMemory>
    ensures { IfOk result (λ entry. entry ≡ gathered_entry how.now found.now name.now) }
{
    let values = values_there(alloc, name, found)?;
    let outcome = gathered(alloc, how, values)?;
    match outcome {
        Outcome::Val(value) => {
            let name = name.copy(alloc)?;
            Ok(Some((name, value)))
        }
        Outcome::NoValue => Ok(None),
        Outcome::Deep => Ok(None),
    }
}

/// The lists or options of the values of these variables at the elements, if none is too high.
fn gathered_entries(
    alloc: Global,
    how: &Iteration,
    names: &[&Name],
    found: &[Env],
) -> Result<Option<Row<(Name, Value)>>, NoMemory>
    ensures { IfOk result (λ entries.
        entries ≡ gathered_entries how.now found.now (names_now names.now)) }
{
    let mut entries = Row::new(alloc);
    for name in names {
        let Some(entry) = gathered_entry(alloc, how, name, found)? else {
            return Ok(None);
        };
        entries.push(entry)?;
    }
    Ok(Some(entries))
}

/// The variable that an expression is by itself, if it is one that is not bound.
fn unknown_variable<'a>(exp: &'a IlExp, known: &[&Name]) -> Option<&'a Name>
    ensures { MatchOption result
        ((x : Name) → out-IlExp exp.now ≡ IlExp-F.Var x
        → has_name (names_now known.now) x ≡ false → ⊥)
        (λ name. (out-IlExp exp.now ≡ IlExp-F.Var name.now)
        × (has_name (names_now known.now) name.now ≡ false)) }
{
    match exp {
        IlExp::Var(name) => {
            if is_known(name, known) {
                None
            } else {
                Some(name)
            }
        }
        _ => None,
    }
}

/// The variable that the count of an iteration is, if it is one that is not bound.
fn unknown_count<'a>(how: &'a Iteration, known: &[&Name]) -> Option<&'a Name>
    ensures { MatchOption result
        ((x : Name) → IsUnknownCount (names_now known.now) how.now x → ⊥)
        (λ name. IsUnknownCount (names_now known.now) how.now name.now) }
{
    match count_exp(how) {
        None => None,
        Some(exp) => unknown_variable(exp, known),
    }
}

/// The listed variable of a name.
fn listed_as<'a>(name: &Name, variables: &'a [Listed]) -> Option<&'a Listed>
    ensures { option_copied result ≡ listed_as name.now variables.now }
{
    for listed in variables {
        if name.as_slice() == listed.name.as_slice() {
            return Some(listed);
        }
    }
    None
}

/// Whether the number is a value of the listed variable.
fn has_number(types: &TypeTable, listed: &Listed, number: u128) -> bool
    ensures { IsTrue result
        ↔ IsTypedValue types.now (type_of listed.now) (variant.Num (pos number)) }
{
    let Some(value) = number_value(number) else {
        return false;
    };
    if !listed.dim.as_slice().is_empty() {
        return false;
    }
    has_type(types, &value, &listed.ty)
}

/// Whether the number is a value of the variable of this name, if it is listed.
fn may_be_number(types: &TypeTable, variables: &[Listed], name: &Name, number: u128) -> bool
    ensures { IsTrue result ↔ HasNumber types.now variables.now name.now number }
{
    match listed_as(name, variables) {
        None => true,
        Some(listed) => has_number(types, listed, number),
    }
}

/// Entries with a number behind them.
fn with_number(
    alloc: Global,
    entries: Row<(Name, Value)>,
    name: &Name,
    number: u128,
) -> Result<Row<(Name, Value)>, NoMemory>
    ensures { IfOk result (λ more.
        more ≡ entries ++ (name.now, variant.Num (pos number)) ∷ []) }
{
    let mut more = entries;
    match number_value(number) {
        None => Ok(more),
        Some(value) => {
            let name = name.copy(alloc)?;
            more.push((name, value))?;
            Ok(more)
        }
    }
}

/// Entries with the number of elements for a count that is not bound, if that has its type.
fn with_count(
    alloc: Global,
    types: &TypeTable,
    variables: &[Listed],
    known: &[&Name],
    how: &Iteration,
    number: u128,
    entries: Row<(Name, Value)>,
) -> Result<Option<Row<(Name, Value)>>, NoMemory>
    ensures { IfOk result (λ counted. IsCounted types.now variables.now (names_now known.now)
        how.now number entries counted) }
{
    match unknown_count(how, known) {
        None => Ok(Some(entries)),
        Some(name) => {
            if !may_be_number(types, variables, name, number) {
                return Ok(None);
            }
            let more = with_number(alloc, entries, name, number)?;
            Ok(Some(more))
        }
    }
}

/// It holds with these values, if there are some.
fn met_counted(entries: Option<Row<(Name, Value)>>) -> Met
    ensures { result ≡ met_counted entries }
{
    match entries {
        None => Met::Fails,
        Some(entries) => Met::Holds(Env { entries }),
    }
}

/// What an iterated premise comes to where it holds at all elements: what they bind is gathered.
pub fn gathered_met(
    alloc: Global,
    types: &TypeTable,
    variables: &[Listed],
    known: &[&Name],
    how: &Iteration,
    names: &[Name],
    found: &[Env],
) -> Result<Met, NoMemory>
    ensures { IfOk result (λ met. IsGathered types.now variables.now (names_now known.now)
        how.now names.now found.now met) }
{
    let unknown = names_unknown(alloc, names, known)?;
    let entries = gathered_entries(alloc, how, unknown.as_slice(), found)?;
    match entries {
        None => Ok(Met::Deep),
        Some(entries) => {
            let number = found.len() as u128;
            let counted = with_count(alloc, types, variables, known, how, number, entries)?;
            Ok(met_counted(counted))
        }
    }
}
