//! Environments that are put together from an environment and one that extends it.

ghost use Rattle.std.specs.Prelude.{◌≡◌, IfOk, option_map};
ghost use Rattle.std.specs.Option.{option_copied};
ghost use Rattle.st_match.specs.inner.Assembly.{value_of_either, entries_of, entries};

use crate::environment::find;
use st_il::{Env, Value, copy_value};
use st_num::{Name, NoMemory, Row};
use std::alloc::Global;

/// The value of a variable, in the first of two environments that has one.
fn find_either<'a>(name: &Name, env: &'a Env, other: &'a Env) -> Option<&'a Value>
    ensures { option_copied result ≡ value_of_either env.now other.now name.now }
{
    match find(name, env) {
        Some(value) => Some(value),
        None => find(name, other),
    }
}

/// The environment of these names, each with its value in the first of two environments that has
/// one, where each has a value.
pub(crate) fn assembled(
    alloc: Global,
    names: &[Name],
    env: &Env,
    other: &Env,
) -> Result<Option<Env>, NoMemory>
    ensures { IfOk result (λ made.
        option_map entries made ≡ entries_of names.now env.now other.now) }
{
    let mut entries = Row::new(alloc);
    for name in names {
        match find_either(name, env, other) {
            None => return Ok(None),
            Some(value) => {
                let name = name.copy(alloc)?;
                let value = copy_value(alloc, value)?;
                entries.push((name, value))?;
            }
        }
    }
    Ok(Some(Env { entries }))
}
