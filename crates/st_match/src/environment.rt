//! Environments that are looked up, copied and extended.

ghost use Rattle.std.specs.Prelude.{◌≡◌, ◌++◌, IfOk, [], ◌∷◌};
ghost use Rattle.std.specs.Option.{option_copied};
ghost use Rattle.st_il.specs.Names.{has_name};
ghost use Rattle.st_semantics.specs.Environments.{value_in};
ghost use Rattle.st_match.specs.inner.Fitting.{HasValue};
ghost use Rattle.st_match.specs.inner.Covering.{Covers, blank};
ghost use Rattle.st_match.specs.inner.Found.{AreEachOnce};

use st_il::{Env, Value, compare_env, copy_env, copy_fields, copy_value, same_value};
use st_num::{Name, NoMemory, Row};
use std::alloc::Global;

/// The first elements with the others behind them.
pub(crate) fn append<T: Drop>(first: Row<T>, others: Row<T>) -> Result<Row<T>, NoMemory>
    ensures { IfOk result (λ all. all ≡ first ++ others) }
{
    let mut all = first.into_vec();
    let mut others = others.into_vec();
    all.append(&mut others)?;
    Ok(Row::from_vec(all))
}

/// A row of one element.
pub(crate) fn single<T: Drop>(alloc: Global, element: T) -> Result<Row<T>, NoMemory>
    ensures { IfOk result (λ row. row ≡ element ∷ []) }
{
    let mut row = Row::new(alloc);
    row.push(element)?;
    Ok(row)
}

/// One environment, which has no variables.
pub(crate) fn no_variables(alloc: Global) -> Result<Row<Env>, NoMemory>
    ensures { IfOk result (λ envs. envs ≡ blank ∷ []) }
{
    let entries = Row::new(alloc);
    single(alloc, Env { entries })
}

/// The same environments again.
pub(crate) fn copy_envs(alloc: Global, envs: &[Env]) -> Result<Row<Env>, NoMemory>
    ensures { IfOk result (λ copies. copies ≡ envs.now) }
{
    let mut copies = Row::new(alloc);
    for env in envs {
        copies.push(copy_env(alloc, env)?)?;
    }
    Ok(copies)
}

/// The environments in their order, each once.
pub(crate) fn each_once(envs: Row<Env>) -> Row<Env>
    ensures { AreEachOnce envs result }
{
    let mut envs = envs.into_vec();
    envs.sort_unstable_by(|a, b| compare_env(a, b));
    envs.dedup_by(|a, b| compare_env(a, b).is_eq());
    Row::from_vec(envs)
}

/// The value of a variable.
pub(crate) fn find<'a>(name: &Name, env: &'a Env) -> Option<&'a Value>
    ensures { option_copied result ≡ value_in env.now name.now }
{
    for entry in env.entries.as_slice() {
        if name.as_slice() == entry.0.as_slice() {
            return Some(&entry.1);
        }
    }
    None
}

/// The environment with one more variable before the others.
fn with_value(alloc: Global, name: &Name, value: &Value, env: &Env) -> Result<Env, NoMemory>
    ensures { IfOk result (λ longer. longer.entries ≡ (name.now, value.now) ∷ env.now.entries) }
{
    let name = name.copy(alloc)?;
    let value = copy_value(alloc, value)?;
    let first = single(alloc, (name, value))?;
    let others = copy_fields(alloc, env.entries.as_slice())?;
    let entries = append(first, others)?;
    Ok(Env { entries })
}

/// The environment with this value of the variable, if it has no other value of it.
fn bind(alloc: Global, name: &Name, value: &Value, env: &Env) -> Result<Row<Env>, NoMemory>
    ensures { IfOk result (λ found. Covers (HasValue name.now value.now)
        (has_name (name.now ∷ [])) (env.now ∷ []) found) }
{
    match find(name, env) {
        Some(known) => {
            if !same_value(known, value) {
                return Ok(Row::new(alloc));
            }
            let same = copy_env(alloc, env)?;
            let found = single(alloc, same)?;
            Ok(found)
        }
        None => {
            let longer = with_value(alloc, name, value, env)?;
            let found = single(alloc, longer)?;
            Ok(found)
        }
    }
}

/// These environments with this value of the variable, those that have no other value of it.
pub(crate) fn bind_each(
    alloc: Global,
    name: &Name,
    value: &Value,
    envs: &[Env],
) -> Result<Row<Env>, NoMemory>
    ensures { IfOk result (λ found. Covers (HasValue name.now value.now)
        (has_name (name.now ∷ [])) envs.now found) }
{
    let mut found = Row::new(alloc);
    for env in envs {
        let more = bind(alloc, name, value, env)?;
        found = append(found, more)?;
    }
    Ok(found)
}
