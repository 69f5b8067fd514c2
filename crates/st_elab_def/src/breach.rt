//! Why a source has no internal language.

ghost use Rattle.std.specs.Prelude.{◌≡◌};

use st_num::{NoMemory, RuleId, Span};
use thiserror::Error;

/// The first part of a source whose condition is false: the number of its definition, from 0, its
/// place, and the rule that it breaks (`docs/refusals.md`).
#[derive(Clone, Copy, Debug, PartialEq, Eq)]
pub struct Breach {
    pub definition: u32,
    pub at: Span,
    pub rule: RuleId,
}

/// Why there is no internal language.
#[derive(Clone, Copy, Debug, PartialEq, Eq, Error)]
pub enum DefFault {
    #[error("a definition breaks a rule")]
    Refused(Breach),
    #[error("out of memory")]
    Memory,
}

impl From<NoMemory> for DefFault {
    ghost use Rattle.st_elab_def.specs.declared.breach.DefFault.TheVariants.{Memory};

    ghost from_gives = { λ _ fault. fault ≡ Memory };

    fn from(_: NoMemory) -> DefFault {
        DefFault::Memory
    }
}
