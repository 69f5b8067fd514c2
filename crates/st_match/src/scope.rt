//! Variables and what they are bound to, without copies of values.

ghost use Rattle.std.specs.Prelude.{◌≡◌, Some, IfOk, option_map};
ghost use Rattle.st_semantics.specs.Environments.{lookup};
ghost use Rattle.st_semantics.specs.Parts.{given};
ghost use Rattle.st_match.specs.inner.Scope.{value_held, entries_of};

use crate::arithmetic::natural_value;
use st_il::{Env, Value, copy_value};
use st_num::{Name, NoMemory, Row};
use st_semantics::Outcome;
use std::alloc::Global;

/// What a variable is bound to.
#[derive(Clone, Copy)]
pub enum Held<'a> {
    Given(&'a Value),
    /// The number of an element of an iteration.
    Index(u128),
}

/// A variable that is bound.
#[derive(Clone, Copy)]
pub struct Bound<'a> {
    pub name: &'a Name,
    pub value: Held<'a>,
}

/// The variables of an environment, in its order.
pub fn scope_of<'a>(alloc: Global, env: &'a Env) -> Result<Row<Bound<'a>>, NoMemory>
    ensures { IfOk result (λ scope. entries_of scope ≡ env.now.entries) }
{
    let mut scope = Row::new(alloc);
    for entry in env.entries.as_slice() {
        scope.push(Bound {
            name: &entry.0,
            value: Held::Given(&entry.1),
        })?;
    }
    Ok(scope)
}

/// What the first variable of this name is bound to.
pub(crate) fn find<'a>(name: &Name, scope: &[Bound<'a>]) -> Option<Held<'a>>
    ensures { option_map value_held result ≡ lookup name.now (entries_of scope.now) }
{
    for bound in scope {
        if name.as_slice() == bound.name.as_slice() {
            return Some(bound.value);
        }
    }
    None
}

/// The value of a variable.
pub(crate) fn variable(alloc: Global, name: &Name, scope: &[Bound]) -> Result<Outcome, NoMemory>
    ensures { IfOk result (λ outcome.
        outcome ≡ given (lookup name.now (entries_of scope.now))) }
{
    match find(name, scope) {
        None => Ok(Outcome::NoValue),
        Some(Held::Given(value)) => {
            let value = copy_value(alloc, value)?;
            Ok(Outcome::Val(value))
        }
        Some(Held::Index(k)) => match natural_value(k) {
            None => Ok(Outcome::NoValue),
            Some(value) => Ok(Outcome::Val(value)),
        },
    }
}
