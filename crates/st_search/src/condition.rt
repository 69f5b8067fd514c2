//! Conditions of rules: tests, and equations whose one side is matched.

ghost use Rattle.std.specs.Prelude.{◌≡◌, ◌↔◌, ◌++◌, ◌∷◌, [], ℕ, true, List, IsTrue, IfOk, IfErr};
ghost use Rattle.st_il.specs.declared.definition.Listed.{Listed};
ghost use Rattle.st_il.specs.declared.expression.IlExp.{IlExp};
ghost use Rattle.st_il.specs.declared.expression.IlPrem.{IlPrem, out-IlPrem};
ghost use Rattle.st_il.specs.declared.expression.IlPrem.TheOpen.{IlPrem-F};
ghost use Rattle.st_il.specs.declared.value.Env.{Env};
ghost use Rattle.st_il.specs.declared.value.Value.TheVariants as variant;
ghost use Rattle.st_il.specs.Names.{Name, all_known};
ghost use Rattle.st_il.specs.Definitions.{syntaxes};
ghost use Rattle.st_semantics.specs.Environments.{names_of};
ghost use Rattle.st_semantics.specs.Formed.{IsFormed};
ghost use Rattle.st_semantics.specs.Patterns.{is_pattern, binds};
ghost use Rattle.st_semantics.specs.Variables.{vars};
ghost use Rattle.st_semantics.specs.Derivation.{Root};
ghost use Rattle.st_match.specs.inner.Scope.{scope_env};
ghost use Rattle.st_match.specs.Matches.{AreMatches};
ghost use Rattle.st_eval.specs.Meeting.{IsEquation};
ghost use Rattle.st_eval.specs.Steps.{HasOnly};
ghost use Rattle.st_eval.specs.inner.Beside.{entries_among};
ghost use Rattle.st_search.specs.inner.Sought.{Finds, Stops};
ghost use Rattle.st_search.specs.inner.Steps.{step_seeks};
ghost use Rattle.st_search.specs.inner.Search.{IsSearch};
ghost use Rattle.st_search.specs.inner.Solutions.{with_children};

use crate::found::Solution;
use crate::holes::outcome_in;
use crate::setting::Search;
use crate::stop::Stop;
use st_eval::element::bound_in;
use st_il::{Child, Env, IlExp, Listed, Value, copy_children, copy_env};
use st_match::{Bound, matches};
use st_num::{NoMemory, Row};
use st_semantics::Outcome;
use std::alloc::Global;

/// Solutions with these environments, for each of which the same children stand.
pub(crate) fn with_children(
    alloc: Global,
    envs: &[Env],
    children: &[Child],
) -> Result<Row<Solution>, NoMemory>
    ensures { IfOk result (λ found. found ≡ with_children children.now envs.now) }
{
    let mut found = Row::new(alloc);
    for env in envs {
        let env = copy_env(alloc, env)?;
        let children = copy_children(alloc, children)?;
        found.push(Solution { env, children })?;
    }
    Ok(found)
}

/// The one solution that binds nothing and has no children.
fn unchanged(alloc: Global) -> Result<Row<Solution>, NoMemory>
    ensures { IfOk result (λ found.
        found ≡ record { env = record { entries = [] }; children = [] } ∷ []) }
{
    let mut found = Row::new(alloc);
    let entries = Row::new(alloc);
    let children = Row::new(alloc);
    let env = Env { entries };
    found.push(Solution { env, children })?;
    Ok(found)
}

/// Whether the value is the truth value `true`.
fn is_true(value: &Value) -> bool
    ensures { IsTrue result ↔ (value.now ≡ variant.Bool true) }
{
    match value {
        Value::Bool(truth) => *truth,
        _ => false,
    }
}

/// What a condition leads to, all of whose variables are bound.
pub(crate) fn test(
    alloc: Global,
    search: &Search<'_>,
    scope: &[Bound],
    exp: &IlExp,
) -> Result<Row<Solution>, Stop>
    requires search { IsSearch search.now }
    requires formed { IsFormed (syntaxes search.now.setting.index.now) exp.now }
    ensures found { IfOk result (λ found. (root : Root) (bound : List Name) (ls : List Listed)
        (p : IlPrem) → out-IlPrem p ≡ IlPrem-F.If exp.now → all_known bound (vars exp.now) ≡ true
        → HasOnly search.now.setting.index.now ls bound (scope_env scope.now)
        → Finds search.now.setting.index.now search.now.setting.depth 0
        (step_seeks search.now.setting.index.now search.now.setting.depth root bound ls
        (scope_env scope.now) p) found) }
    ensures stops { IfErr result (λ stop. (left : ℕ) (root : Root) (bound : List Name)
        (ls : List Listed) (p : IlPrem) → out-IlPrem p ≡ IlPrem-F.If exp.now
        → all_known bound (vars exp.now) ≡ true
        → Stops search.now.setting.index.now search.now.setting.depth left
        (step_seeks search.now.setting.index.now search.now.setting.depth root bound ls
        (scope_env scope.now) p) stop) }
{
    let outcome = outcome_in(alloc, search, scope, exp)?;
    match outcome {
        Outcome::Val(value) => {
            if is_true(&value) {
                let found = unchanged(alloc)?;
                Ok(found)
            } else {
                Ok(Row::new(alloc))
            }
        }
        Outcome::NoValue => Ok(Row::new(alloc)),
        Outcome::Deep => Err(Stop::Meets),
    }
}

/// The solutions by which a pattern has this value.
fn matched(
    alloc: Global,
    search: &Search<'_>,
    variables: &[Listed],
    scope: &[Bound],
    pattern: &IlExp,
    value: &Value,
) -> Result<Row<Solution>, NoMemory>
    requires search { IsSearch search.now }
    requires pattern { is_pattern pattern.now ≡ true }
    requires formed { IsFormed (syntaxes search.now.setting.index.now) pattern.now }
    requires bound { all_known (names_of (scope_env scope.now) ++ binds pattern.now)
        (vars pattern.now) ≡ true }
    ensures { IfOk result (λ found. (few : Env) × (envs : List Env)
        × (few.entries ≡ entries_among (scope_env scope.now) (vars pattern.now))
        × AreMatches (syntaxes search.now.setting.index.now) variables.now pattern.now value.now few
        envs × (found ≡ with_children [] envs)) }
{
    let few = bound_in(alloc, pattern, scope)?;
    let types = search.setting.types;
    let envs = matches(alloc, types, variables, pattern, value, &few)?;
    let found = with_children(alloc, envs.as_slice(), &[])?;
    Ok(found)
}

/// What an equation leads to, one side of which is bound, and the other one a pattern.
pub(crate) fn bind(
    alloc: Global,
    search: &Search<'_>,
    variables: &[Listed],
    scope: &[Bound],
    pattern: &IlExp,
    side: &IlExp,
) -> Result<Row<Solution>, Stop>
    requires search { IsSearch search.now }
    requires side { IsFormed (syntaxes search.now.setting.index.now) side.now }
    requires pattern { is_pattern pattern.now ≡ true }
    requires formed { IsFormed (syntaxes search.now.setting.index.now) pattern.now }
    requires bound { all_known (names_of (scope_env scope.now) ++ binds pattern.now)
        (vars pattern.now) ≡ true }
    ensures found { IfOk result (λ found. (root : Root) (bound : List Name) (p : IlPrem)
        (e : IlExp) → out-IlPrem p ≡ IlPrem-F.If e
        → IsEquation search.now.setting.index.now bound variables.now e side.now pattern.now
        → HasOnly search.now.setting.index.now variables.now bound (scope_env scope.now)
        → Finds search.now.setting.index.now search.now.setting.depth 0
        (step_seeks search.now.setting.index.now search.now.setting.depth root bound variables.now
        (scope_env scope.now) p) found) }
    ensures stops { IfErr result (λ stop. (left : ℕ) (root : Root) (bound : List Name)
        (p : IlPrem) (e : IlExp) → out-IlPrem p ≡ IlPrem-F.If e
        → IsEquation search.now.setting.index.now bound variables.now e side.now pattern.now
        → Stops search.now.setting.index.now search.now.setting.depth left
        (step_seeks search.now.setting.index.now search.now.setting.depth root bound variables.now
        (scope_env scope.now) p) stop) }
{
    let outcome = outcome_in(alloc, search, scope, side)?;
    match outcome {
        Outcome::Val(value) => {
            let found = matched(alloc, search, variables, scope, pattern, &value)?;
            Ok(found)
        }
        Outcome::NoValue => Ok(Row::new(alloc)),
        Outcome::Deep => Err(Stop::Meets),
    }
}
