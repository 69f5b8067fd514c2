//! The rules on types that are broken in a rule or a clause.

ghost use Rattle.std.specs.Prelude.{◌≡◌, ◌↔◌, IsTrue, IfOk};
ghost use Rattle.st_ilcheck.specs.Definitions.{RuleBreaks, ClauseBreaks, IsResultOf};
ghost use Rattle.st_ilcheck.specs.inner.Clauses.{ArgumentsBreak, ResultBreaks};

use crate::keeping::is_call;
use crate::language::Language;
use crate::premises::{broken_in_premises, is_judgement, typings_in};
use crate::rows::append;
use crate::shape::has;
use crate::typing::{Typing, Typings, told, typing_of};
use st_il::{ClauseDef, RuleDef, Ty, TypeRule};
use st_num::{Name, NoMemory, Row};
use std::alloc::Global;

/// The rules T3 to T14 that are broken in a rule by the types of its expressions.
pub(crate) fn broken_in_rule(
    alloc: Global,
    language: &Language,
    rule: &RuleDef,
) -> Result<Row<TypeRule>, NoMemory>
    ensures { IfOk result (λ broken. RuleBreaks language.now rule.now broken) }
{
    let listed = rule.variables.as_slice();
    let found = typings_in(alloc, language, listed, rule.conclusion.as_slice())?;
    let Typings { types, broken } = found;
    let kept = is_judgement(alloc, language, &rule.relation, types.as_slice())?;
    let concluded = told(broken, TypeRule::T12, kept)?;
    let premises = rule.premises.as_slice();
    let more = broken_in_premises(alloc, language, listed, premises)?;
    let all = append(concluded, more)?;
    Ok(all)
}

/// Whether a type is the one that the function declares of its result.
fn is_result(
    alloc: Global,
    language: &Language,
    fun: &Name,
    found: &Option<Ty>,
) -> Result<bool, NoMemory>
    ensures { IfOk result
        (λ kept. IsTrue kept ↔ IsResultOf language.now fun.now found.now) }
{
    match language.function(fun) {
        None => Ok(false),
        Some(declared) => {
            let kept = has(alloc, language, found, &declared.result)?;
            Ok(kept)
        }
    }
}

/// The rules that are broken in the arguments of a clause, and by them.
fn broken_in_arguments(
    alloc: Global,
    language: &Language,
    clause: &ClauseDef,
) -> Result<Row<TypeRule>, NoMemory>
    ensures { IfOk result (λ broken. ArgumentsBreak language.now clause.now broken) }
{
    let listed = clause.variables.as_slice();
    let found = typings_in(alloc, language, listed, clause.args.as_slice())?;
    let Typings { types, broken } = found;
    let kept = is_call(alloc, language, &clause.fun, types.as_slice())?;
    let all = told(broken, TypeRule::T12, kept)?;
    Ok(all)
}

/// The rules that are broken in the result of a clause, and by it.
fn broken_in_result(
    alloc: Global,
    language: &Language,
    clause: &ClauseDef,
) -> Result<Row<TypeRule>, NoMemory>
    ensures { IfOk result (λ broken. ResultBreaks language.now clause.now broken) }
{
    let listed = clause.variables.as_slice();
    let found = typing_of(alloc, language, listed, &clause.result)?;
    let Typing { ty, broken } = found;
    let kept = is_result(alloc, language, &clause.fun, &ty)?;
    let all = told(broken, TypeRule::T12, kept)?;
    Ok(all)
}

/// The rules T3 to T14 that are broken in a clause by the types of its expressions.
pub(crate) fn broken_in_clause(
    alloc: Global,
    language: &Language,
    clause: &ClauseDef,
) -> Result<Row<TypeRule>, NoMemory>
    ensures { IfOk result (λ broken. ClauseBreaks language.now clause.now broken) }
{
    let arguments = broken_in_arguments(alloc, language, clause)?;
    let result_rules = broken_in_result(alloc, language, clause)?;
    let listed = clause.variables.as_slice();
    let premises = clause.premises.as_slice();
    let inside = broken_in_premises(alloc, language, listed, premises)?;
    let more = append(result_rules, inside)?;
    let all = append(arguments, more)?;
    Ok(all)
}
