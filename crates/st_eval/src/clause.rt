//! Clauses that are tried from the values of their arguments on, and calls that they decide.

ghost use Rattle.std.specs.Prelude.{[], List, All, IfOk};
ghost use Rattle.st_il.specs.declared.value.Value.{Value};
ghost use Rattle.st_il.specs.Definitions.{clauses_in, clauses_of};
ghost use Rattle.st_semantics.specs.Calls.{CallAt, Decides};
ghost use Rattle.st_semantics.specs.ModeRules.{bound_in_clause};
ghost use Rattle.st_eval.specs.Steps.{HasOnly, IsMetUpTo};
ghost use Rattle.st_eval.specs.Setting.{IsSetting, AnswersCalls};
ghost use Rattle.st_eval.specs.Evaluable.{CanBeTried};
ghost use Rattle.st_eval.specs.inner.Tried.{ClauseIsMet, IsTried};

use crate::condition::{Met, one_of};
use crate::meet::meet;
use crate::reading::{Setting, value_of};
use st_il::{ClauseDef, Env, Value};
use st_match::{Caller, all_match};
use st_num::{Name, NoMemory};
use st_semantics::Outcome;
use std::alloc::Global;

/// What the premises of a clause come to, met one after another as they are written. Bound first are
/// the variables of its arguments.
fn meet_all<C: Caller>(
    alloc: Global,
    setting: &Setting<'_>,
    caller: &C,
    clause: &ClauseDef,
    first: Env,
) -> Result<Met, NoMemory>
    requires setting { IsSetting setting.now }
    requires callable { C.IsCallable caller.now }
    requires answers { AnswersCalls setting.now (C.answers caller.now) }
    requires clause { CanBeTried setting.now.index.now clause.now }
    requires variables { HasOnly setting.now.index.now clause.now.variables
        (bound_in_clause clause.now []) first }
    ensures { IfOk result (λ met. (vs : List Value)
        → IsMetUpTo setting.now.index.now setting.now.depth clause.now vs [] first
        → ClauseIsMet setting.now.index.now setting.now.depth clause.now vs met) }
{
    let variables = clause.variables.as_slice();
    let mut env = first;
    for premise in clause.premises.as_slice() {
        let met = meet(alloc, setting, caller, variables, &env, premise)?;
        match met {
            Met::Holds(more) => env = more,
            Met::Fails => return Ok(Met::Fails),
            Met::Deep => return Ok(Met::Deep),
        }
    }
    Ok(Met::Holds(env))
}

/// What a call comes to, if the clause decides it whose premises come to this.
fn decided_by<C: Caller>(
    alloc: Global,
    setting: &Setting<'_>,
    caller: &C,
    clause: &ClauseDef,
    met: Met,
) -> Result<Option<Outcome>, NoMemory>
    requires setting { IsSetting setting.now }
    requires callable { C.IsCallable caller.now }
    requires answers { AnswersCalls setting.now (C.answers caller.now) }
    requires clause { CanBeTried setting.now.index.now clause.now }
    ensures { IfOk result (λ decided. (vs : List Value)
        → ClauseIsMet setting.now.index.now setting.now.depth clause.now vs met
        → IsTried setting.now.index.now setting.now.depth clause.now vs decided) }
{
    match met {
        Met::Holds(env) => {
            let outcome = value_of(alloc, setting, caller, &env, &clause.result)?;
            Ok(Some(outcome))
        }
        Met::Fails => Ok(None),
        Met::Deep => Ok(Some(Outcome::Deep)),
    }
}

/// What a call with these arguments comes to, if the clause decides it.
fn try_clause<C: Caller>(
    alloc: Global,
    setting: &Setting<'_>,
    caller: &C,
    clause: &ClauseDef,
    args: &[Value],
) -> Result<Option<Outcome>, NoMemory>
    requires setting { IsSetting setting.now }
    requires callable { C.IsCallable caller.now }
    requires answers { AnswersCalls setting.now (C.answers caller.now) }
    requires clause { CanBeTried setting.now.index.now clause.now }
    ensures { IfOk result (λ decided.
        IsTried setting.now.index.now setting.now.depth clause.now args.now decided) }
{
    let variables = clause.variables.as_slice();
    let patterns = clause.args.as_slice();
    let found = all_match(alloc, setting.types, variables, patterns, args)?;
    match one_of(found) {
        None => Ok(None),
        Some(first) => {
            let met = meet_all(alloc, setting, caller, clause, first)?;
            let decided = decided_by(alloc, setting, caller, clause, met)?;
            Ok(decided)
        }
    }
}

/// What a call with these arguments comes to by the clauses of its function: the first that is chosen
/// or meets Deep decides it.
pub(crate) fn decide<C: Caller>(
    alloc: Global,
    setting: &Setting<'_>,
    caller: &C,
    fun: &Name,
    args: &[Value],
) -> Result<Outcome, NoMemory>
    requires setting { IsSetting setting.now }
    requires callable { C.IsCallable caller.now }
    requires answers { AnswersCalls setting.now (C.answers caller.now) }
    requires clauses { All (CanBeTried setting.now.index.now)
        (clauses_in setting.now.index.now.defs) }
    ensures { IfOk result (Decides setting.now.index.now
        (CallAt setting.now.index.now setting.now.depth)
        (clauses_of setting.now.index.now fun.now) args.now) }
{
    let clauses = setting.index.clauses_of(fun);
    for clause in clauses {
        let decided = try_clause(alloc, setting, caller, *clause, args)?;
        if let Some(outcome) = decided {
            return Ok(outcome);
        }
    }
    Ok(Outcome::NoValue)
}
