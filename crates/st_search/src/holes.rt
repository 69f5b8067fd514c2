//! Expressions that are to have given values: what stands at the inputs of a rule, or at the outputs
//! of a goal. Some are evaluated, once for all values, and the others are matched.

ghost use Rattle.std.specs.Prelude.{◌≡◌, ◌++◌, ◌∷◌, [], ℕ, true, List, map, IfOk, IfErr, MatchOption};
ghost use Rattle.std.specs.List.{list_all};
ghost use Rattle.st_il.specs.declared.definition.Il.{Il};
ghost use Rattle.st_il.specs.declared.definition.SyntaxDef.{SyntaxDef};
ghost use Rattle.st_il.specs.declared.value.Env.{Env};
ghost use Rattle.st_il.specs.declared.value.Value.{Value};
ghost use Rattle.st_semantics.specs.declared.outcome.Outcome.TheVariants as variant;
ghost use Rattle.st_il.specs.Definitions.{syntaxes};
ghost use Rattle.st_semantics.specs.Formed.{IsFormed, AreFormed};
ghost use Rattle.st_semantics.specs.Evaluation.{tasks, GivesAll};
ghost use Rattle.st_semantics.specs.Patterns.{is_pattern, binds};
ghost use Rattle.st_semantics.specs.Variables.{vars_of};
ghost use Rattle.st_il.specs.Names.{all_known, flattened};
ghost use Rattle.st_semantics.specs.Environments.{names_of};
ghost use Rattle.st_semantics.specs.Calls.{CallAt, ValueAt};
ghost use Rattle.st_match.specs.inner.Scope.{scope_env};
ghost use Rattle.st_match.specs.inner.Found.{AreExtensions};
ghost use Rattle.st_eval.specs.inner.Beside.{entries_among};
ghost use Rattle.st_search.specs.declared.holes.Evaluated.{Evaluated};
ghost use Rattle.st_search.specs.inner.Sought.{StopsIf};
ghost use Rattle.st_search.specs.inner.Holes.{is_evaluated, AreHoles, IsHole, HasDeepHole, matched_of, AreFitting};
ghost use Rattle.st_search.specs.inner.Search.{IsSearch};

use crate::setting::{Search, outcome_of};
use crate::stop::Stop;
use st_eval::element::{bound_in, entries_among};
use st_eval::known::with_others;
use st_eval::variables::variables;
use st_il::{Env, IlExp, Listed, Value, copy_exp, copy_value, same_value};
use st_match::{Bound, extensions};
use st_num::{NoMemory, Row};
use st_semantics::{Outcome, Outcomes, is_pattern};
use std::alloc::Global;

/// Which expressions are evaluated.
#[derive(Clone, Copy)]
pub(crate) enum Evaluated {
    /// Those without variables, at the inputs of a rule.
    Closed,
    /// Those that are no patterns, at the outputs of a goal.
    Computed,
}

/// What stands at a hole.
#[derive(Drop)]
pub(crate) enum Hole {
    /// A pattern that is matched.
    Pattern,
    /// An expression with this value.
    Value(Value),
    /// An expression without a value.
    Nothing,
}

/// Whether an expression is evaluated.
fn is_evaluated(alloc: Global, which: Evaluated, exp: &IlExp) -> Result<bool, NoMemory>
    requires { (defs : List SyntaxDef) × IsFormed defs exp.now }
    ensures { IfOk result (λ evaluated. evaluated ≡ is_evaluated which exp.now) }
{
    match which {
        Evaluated::Closed => {
            let names = variables(alloc, exp)?;
            Ok(names.is_empty())
        }
        Evaluated::Computed => Ok(!is_pattern(exp)),
    }
}

/// What an expression comes to where these variables are bound.
pub(crate) fn outcome_in(
    alloc: Global,
    search: &Search<'_>,
    scope: &[Bound],
    exp: &IlExp,
) -> Result<Outcome, NoMemory>
    requires search { IsSearch search.now }
    requires formed { IsFormed (syntaxes search.now.setting.index.now) exp.now }
    ensures { IfOk result (λ outcome. ValueAt search.now.setting.index.now
        search.now.setting.depth (scope_env scope.now) exp.now outcome) }
{
    let env = bound_in(alloc, exp, scope)?;
    let outcome = outcome_of(alloc, search, &env, exp)?;
    Ok(outcome)
}

/// What stands at a hole.
fn hole_of(
    alloc: Global,
    search: &Search<'_>,
    which: Evaluated,
    scope: &[Bound],
    exp: &IlExp,
) -> Result<Hole, Stop>
    requires search { IsSearch search.now }
    requires formed { IsFormed (syntaxes search.now.setting.index.now) exp.now }
    ensures found { IfOk result (λ hole. IsHole search.now.setting.index.now
        search.now.setting.depth (scope_env scope.now) which exp.now hole) }
    ensures stops { IfErr result (λ stop. StopsIf ((is_evaluated which exp.now ≡ true)
        × ValueAt search.now.setting.index.now search.now.setting.depth (scope_env scope.now)
        exp.now variant.Deep) stop) }
{
    let evaluated = is_evaluated(alloc, which, exp)?;
    if !evaluated {
        return Ok(Hole::Pattern);
    }
    let outcome = outcome_in(alloc, search, scope, exp)?;
    match outcome {
        Outcome::Val(value) => Ok(Hole::Value(value)),
        Outcome::NoValue => Ok(Hole::Nothing),
        Outcome::Deep => Err(Stop::Meets),
    }
}

/// What stands at the holes of some expressions. All that are evaluated are so, in order, up to one
/// that is Deep.
pub(crate) fn holes_of(
    alloc: Global,
    search: &Search<'_>,
    which: Evaluated,
    scope: &[Bound],
    exps: &[IlExp],
) -> Result<Row<Hole>, Stop>
    requires search { IsSearch search.now }
    requires formed { AreFormed (syntaxes search.now.setting.index.now) exps.now }
    ensures found { IfOk result (λ holes. AreHoles search.now.setting.index.now
        search.now.setting.depth (scope_env scope.now) which exps.now holes) }
    ensures stops { IfErr result (λ stop. StopsIf (HasDeepHole search.now.setting.index.now
        search.now.setting.depth (scope_env scope.now) which exps.now) stop) }
{
    let mut holes = Row::new(alloc);
    for exp in exps {
        let hole = hole_of(alloc, search, which, scope, exp)?;
        holes.push(hole)?;
    }
    Ok(holes)
}

/// Adds a copy of an expression if a pattern stands at its hole.
fn with_pattern(
    alloc: Global,
    patterns: Row<IlExp>,
    exp: &IlExp,
    hole: &Hole,
) -> Result<Row<IlExp>, NoMemory>
    ensures { IfOk result (λ more. (il : Il) (n : ℕ) (env : Env) (which : Evaluated)
        → IsHole il n env which exp.now hole.now
        → more ≡ patterns ++ matched_of which (exp.now ∷ [])) }
{
    let mut more = patterns;
    match hole {
        Hole::Pattern => {
            more.push(copy_exp(alloc, exp)?)?;
            Ok(more)
        }
        Hole::Value(_) => Ok(more),
        Hole::Nothing => Ok(more),
    }
}

/// Copies of the expressions at whose holes patterns stand.
pub(crate) fn patterns_of(
    alloc: Global,
    exps: &[IlExp],
    holes: &[Hole],
) -> Result<Row<IlExp>, NoMemory>
    ensures { IfOk result (λ patterns. (il : Il) (n : ℕ) (env : Env) (which : Evaluated)
        → AreHoles il n env which exps.now holes.now → patterns ≡ matched_of which exps.now) }
{
    let mut patterns = Row::new(alloc);
    for i in 0..exps.len() {
        if i >= holes.len() {
            return Ok(patterns);
        }
        patterns = with_pattern(alloc, patterns, &exps[i], &holes[i])?;
    }
    Ok(patterns)
}

/// Adds the value if a pattern stands at the hole; none where the expression there has another one.
fn with_fitting(
    alloc: Global,
    found: Row<Value>,
    hole: &Hole,
    value: &Value,
) -> Result<Option<Row<Value>>, NoMemory>
    ensures { IfOk result (λ longer. MatchOption longer
        ((first : List Value) → AreFitting (hole.now ∷ []) (value.now ∷ []) first → ⊥)
        (λ longer. (first : List Value) × AreFitting (hole.now ∷ []) (value.now ∷ []) first
        × (longer ≡ found ++ first))) }
{
    let mut longer = found;
    match hole {
        Hole::Pattern => {
            longer.push(copy_value(alloc, value)?)?;
            Ok(Some(longer))
        }
        Hole::Value(own) => {
            if same_value(own, value) {
                Ok(Some(longer))
            } else {
                Ok(None)
            }
        }
        Hole::Nothing => Ok(None),
    }
}

/// The values at the patterns, if the other expressions have theirs.
pub(crate) fn fitting(
    alloc: Global,
    holes: &[Hole],
    values: &[Value],
) -> Result<Option<Row<Value>>, NoMemory>
    ensures { IfOk result (λ found. MatchOption found
        ((vs : List Value) → AreFitting holes.now values.now vs → ⊥)
        (λ vs. AreFitting holes.now values.now vs)) }
{
    if holes.len() != values.len() {
        return Ok(None);
    }
    let mut found = Row::new(alloc);
    for i in 0..holes.len() {
        let Some(longer) = with_fitting(alloc, found, &holes[i], &values[i])? else {
            return Ok(None);
        };
        found = longer;
    }
    Ok(Some(found))
}

/// Those of the variables of some expressions that are bound.
fn bound_in_all(alloc: Global, exps: &[IlExp], scope: &[Bound]) -> Result<Env, NoMemory>
    requires { (defs : List SyntaxDef) × AreFormed defs exps.now }
    ensures { IfOk result (λ env.
        env.entries ≡ entries_among (scope_env scope.now) (vars_of exps.now)) }
{
    let mut names = Row::new(alloc);
    for exp in exps {
        let more = variables(alloc, exp)?;
        names = with_others(names, more.as_slice())?;
    }
    let entries = entries_among(alloc, names.as_slice(), scope)?;
    Ok(Env { entries })
}

/// The environments of the variables of patterns, so that they have the values and what is bound
/// stays.
pub(crate) fn extended(
    alloc: Global,
    search: &Search<'_>,
    variables: &[Listed],
    scope: &[Bound],
    patterns: &[IlExp],
    values: &[Value],
) -> Result<Row<Env>, NoMemory>
    requires search { IsSearch search.now }
    requires patterns { list_all is_pattern patterns.now ≡ true }
    requires formed { AreFormed (syntaxes search.now.setting.index.now) patterns.now }
    requires bound { all_known (names_of (scope_env scope.now)
        ++ flattened (map binds patterns.now)) (vars_of patterns.now) ≡ true }
    ensures { IfOk result (λ found. (few : Env)
        × (few.entries ≡ entries_among (scope_env scope.now) (vars_of patterns.now))
        × AreExtensions (syntaxes search.now.setting.index.now) variables.now patterns.now values.now
        few found) }
{
    let few = bound_in_all(alloc, patterns, scope)?;
    let types = search.setting.types;
    let found = extensions(alloc, types, variables, patterns, values, &few)?;
    Ok(found)
}

/// The values of some expressions, one after another.
pub(crate) fn values_of(
    alloc: Global,
    search: &Search<'_>,
    scope: &[Bound],
    exps: &[IlExp],
) -> Result<Outcomes, NoMemory>
    requires search { IsSearch search.now }
    requires formed { AreFormed (syntaxes search.now.setting.index.now) exps.now }
    ensures { IfOk result (λ outcomes. GivesAll (syntaxes search.now.setting.index.now)
        (CallAt search.now.setting.index.now search.now.setting.depth)
        (tasks (scope_env scope.now) exps.now) outcomes) }
{
    let mut values = Row::new(alloc);
    for exp in exps {
        let outcome = outcome_in(alloc, search, scope, exp)?;
        match outcome {
            Outcome::Val(value) => values.push(value)?,
            Outcome::NoValue => return Ok(Outcomes::Stopped(Outcome::NoValue)),
            Outcome::Deep => return Ok(Outcomes::Stopped(Outcome::Deep)),
        }
    }
    Ok(Outcomes::Values(values))
}
