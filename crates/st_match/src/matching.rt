//! The environments that match a pattern with a value, or several patterns with several values.

ghost use Rattle.std.specs.Prelude.{◌≡◌, ◌↔◌, ◌++◌, true, map, IsTrue, IfOk};
ghost use Rattle.std.specs.List.{list_all};
ghost use Rattle.st_il.specs.Names.{flattened, all_known};
ghost use Rattle.st_semantics.specs.Environments.{names_of};
ghost use Rattle.st_semantics.specs.Formed.{IsFormed, AreFormed};
ghost use Rattle.st_semantics.specs.Patterns.{is_pattern, binds, bound_by};
ghost use Rattle.st_semantics.specs.Variables.{vars, vars_of};
ghost use Rattle.st_match.specs.Matches.{AreMatches, AreAllMatches};
ghost use Rattle.st_match.specs.inner.Fitting.{Fits, FitAll};
ghost use Rattle.st_match.specs.inner.Found.{AreExtensions, Suits, IsSought, IsMade, Adds, AreFound};

use crate::assembly::assembled;
use crate::covering::all_candidates;
use crate::environment::{each_once, single};
use crate::evaluation::pattern_value;
use crate::names::{in_order, vars_of, with_env_names};
use crate::types::{Asked, asked_of, have_asked};
use st_il::{Env, IlExp, Listed, Value, copy_env, same_value};
use st_num::{Name, NoMemory, Row};
use st_semantics::Outcome;
use st_types::TypeTable;
use std::alloc::Global;
use std::slice::from_ref;

/// What is matched, and what is asked of an environment that matches.
#[derive(Clone, Copy)]
pub(crate) struct Sought<'a> {
    pub(crate) types: &'a TypeTable,
    pub(crate) patterns: &'a [IlExp],
    /// One for each pattern.
    pub(crate) values: &'a [Value],
    /// The environment that is to be extended.
    pub(crate) env: &'a Env,
    /// The names that an environment is to have, in order.
    pub(crate) names: &'a [Name],
    pub(crate) asked: &'a [Asked],
}

/// Whether a pattern has the value in an environment.
fn fits(
    alloc: Global,
    types: &TypeTable,
    pattern: &IlExp,
    value: &Value,
    env: &Env,
) -> Result<bool, NoMemory>
    requires formed { IsFormed types.now pattern.now }
    requires pattern { is_pattern pattern.now ≡ true }
    ensures { IfOk result (λ yes. IsTrue yes
        ↔ Fits types.now pattern.now value.now env.now) }
{
    let outcome = pattern_value(alloc, types, env, pattern)?;
    match outcome {
        Outcome::Val(found) => Ok(same_value(&found, value)),
        Outcome::NoValue => Ok(false),
        Outcome::Deep => Ok(false),
    }
}

/// Whether the patterns have the values in an environment, one each.
fn all_fit(alloc: Global, sought: &Sought, env: &Env) -> Result<bool, NoMemory>
    requires { IsSought sought.now }
    ensures { IfOk result (λ yes. IsTrue yes ↔ FitAll sought.now.types.now
        sought.now.patterns.now sought.now.values.now env.now) }
{
    let patterns = sought.patterns;
    let values = sought.values;
    if patterns.len() != values.len() {
        return Ok(false);
    }
    for i in 0..patterns.len() {
        let yes = fits(alloc, sought.types, &patterns[i], &values[i], env)?;
        if !yes {
            return Ok(false);
        }
    }
    Ok(true)
}

/// Whether the variables have the types that are asked, and the patterns have the values.
fn suits(alloc: Global, sought: &Sought, env: &Env) -> Result<bool, NoMemory>
    requires { IsSought sought.now }
    ensures { IfOk result (λ yes. IsTrue yes ↔ Suits sought.now env.now) }
{
    if !have_asked(sought.types, env, sought.asked) {
        return Ok(false);
    }
    let yes = all_fit(alloc, sought, env)?;
    Ok(yes)
}

/// What was found, with this environment behind it, if that suits.
fn with_suited(
    alloc: Global,
    sought: &Sought,
    env: Env,
    found: Row<Env>,
) -> Result<Row<Env>, NoMemory>
    requires { IsSought sought.now }
    ensures { IfOk result (λ more. Adds (Suits sought.now) (λ made. made ≡ env) found more) }
{
    let yes = suits(alloc, sought, &env)?;
    if !yes {
        return Ok(found);
    }
    let mut more = found;
    more.push(env)?;
    Ok(more)
}

/// What was found, with what a candidate comes to behind it, if that suits.
fn with_candidate(
    alloc: Global,
    sought: &Sought,
    candidate: &Env,
    found: Row<Env>,
) -> Result<Row<Env>, NoMemory>
    requires { IsSought sought.now }
    ensures { IfOk result (λ more.
        Adds (Suits sought.now) (λ env. IsMade sought.now env candidate.now) found more) }
{
    let made = assembled(alloc, sought.names, sought.env, candidate)?;
    match made {
        None => Ok(found),
        Some(env) => {
            let more = with_suited(alloc, sought, env, found)?;
            Ok(more)
        }
    }
}

/// What the candidates come to that suits, each once.
///
/// Two candidates may come to one environment, as those of two splits of a list where a variable
/// stands in both parts. They are told apart by sorting, since there may be thousands.
fn found_among(alloc: Global, sought: &Sought, candidates: &[Env]) -> Result<Row<Env>, NoMemory>
    requires { IsSought sought.now }
    ensures { IfOk result (λ found. AreFound sought.now candidates.now found) }
{
    let mut found = Row::new(alloc);
    for candidate in candidates {
        found = with_candidate(alloc, sought, candidate, found)?;
    }
    Ok(each_once(found))
}

/// The environments that extend this one by the other variables of the patterns, each with a value
/// of its type in its dimension, so that the patterns have the values: exactly these, each once.
pub fn extensions(
    alloc: Global,
    types: &TypeTable,
    variables: &[Listed],
    patterns: &[IlExp],
    values: &[Value],
    env: &Env,
) -> Result<Row<Env>, NoMemory>
    requires patterns { list_all is_pattern patterns.now ≡ true }
    requires formed { AreFormed types.now patterns.now }
    requires bound { all_known (names_of env.now ++ flattened (map binds patterns.now))
        (vars_of patterns.now) ≡ true }
    ensures { IfOk result (λ found.
        AreExtensions types.now variables.now patterns.now values.now env.now found) }
{
    let start = single(alloc, copy_env(alloc, env)?)?;
    let all = all_candidates(alloc, patterns, values, start.as_slice())?;
    if all.is_empty() {
        return Ok(all);
    }
    let own = vars_of(alloc, patterns)?;
    let asked = asked_of(alloc, variables, own.as_slice())?;
    let names = with_env_names(alloc, env, own.as_slice())?;
    let ordered = in_order(alloc, names.as_slice())?;
    let sought = Sought {
        types,
        patterns,
        values,
        env,
        names: ordered.as_slice(),
        asked: asked.as_slice(),
    };
    let found = found_among(alloc, &sought, all.as_slice())?;
    Ok(found)
}

/// The environments that extend this one by the other variables of the pattern, each with a value
/// of its type in its dimension, so that the pattern has the value: exactly these, each once.
///
/// Each record in the pattern has the fields of its type, and each absent part is of a list or an
/// option, as in every expression that has a type.
pub fn matches(
    alloc: Global,
    types: &TypeTable,
    variables: &[Listed],
    pattern: &IlExp,
    value: &Value,
    env: &Env,
) -> Result<Row<Env>, NoMemory>
    requires pattern { is_pattern pattern.now ≡ true }
    requires formed { IsFormed types.now pattern.now }
    requires bound { all_known (names_of env.now ++ binds pattern.now) (vars pattern.now) ≡ true }
    ensures { IfOk result (λ found.
        AreMatches types.now variables.now pattern.now value.now env.now found) }
{
    let patterns = from_ref(pattern);
    let values = from_ref(value);
    let found = extensions(alloc, types, variables, patterns, values, env)?;
    Ok(found)
}

/// The environments of the variables of several patterns, each with a value of its type in its
/// dimension, so that the patterns have the values, one each: exactly these, each once. There is
/// none where there are more values than patterns, or fewer.
///
/// A pattern may need what another one binds, before or behind it.
pub fn all_match(
    alloc: Global,
    types: &TypeTable,
    variables: &[Listed],
    patterns: &[IlExp],
    values: &[Value],
) -> Result<Row<Env>, NoMemory>
    requires patterns { list_all is_pattern patterns.now ≡ true }
    requires formed { AreFormed types.now patterns.now }
    requires bound { all_known (bound_by patterns.now) (vars_of patterns.now) ≡ true }
    ensures { IfOk result (λ found.
        AreAllMatches types.now variables.now patterns.now values.now found) }
{
    let entries = Row::new(alloc);
    let env = Env { entries };
    let found = extensions(alloc, types, variables, patterns, values, &env)?;
    Ok(found)
}
