//! Breaches with the numbers of their definitions.

ghost use Rattle.std.specs.Prelude.{◌≡◌};
ghost use Rattle.st_elab_def.specs.inner.Walk.{numbered};

use crate::breach::{Breach, DefFault};
use st_num::Fault;

/// The answer for the definition of this number.
pub(crate) fn numbered<T: Drop>(definition: u32, answer: Result<T, Fault>) -> Result<T, DefFault>
    ensures { result ≡ numbered definition answer }
{
    match answer {
        Ok(found) => Ok(found),
        Err(Fault::Refused { at, rule }) => Err(DefFault::Refused(Breach {
            definition,
            at,
            rule,
        })),
        Err(Fault::Memory) => Err(DefFault::Memory),
    }
}
