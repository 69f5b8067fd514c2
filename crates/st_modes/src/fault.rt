//! Why an internal language has no modes.

ghost use Rattle.std.specs.Prelude.{◌≡◌};

use st_num::{NoMemory, RuleId};
use thiserror::Error;

/// Why an internal language has no modes.
#[derive(Debug, Drop, Error)]
pub enum ModeFault {
    /// The first definition that breaks one of the rules M1 to M7, by its number, counted from 0,
    /// and the least of them that it breaks.
    #[error("a definition breaks a rule of directions")]
    Refused { definition: u32, rule: RuleId },
    #[error("out of memory")]
    Memory,
}

impl From<NoMemory> for ModeFault {
    ghost use Rattle.st_modes.specs.declared.fault.ModeFault.TheVariants.{Memory};

    ghost from_gives = { λ _ fault. fault ≡ Memory };

    fn from(_: NoMemory) -> ModeFault {
        ModeFault::Memory
    }
}
