//! Why a text, or a part of it, is refused.

ghost use Rattle.std.specs.Prelude.{◌≡◌};
ghost use Rattle.st_num.specs.declared.fault.Fault.TheVariants.{Memory};

use crate::memory::NoMemory;
use crate::rule::RuleId;
use crate::span::Span;
use thiserror::Error;

/// The first part that breaks a numbered rule (`docs/refusals.md`) with its place, or want of
/// memory.
#[derive(Clone, Copy, Debug, PartialEq, Eq, Error)]
pub enum Fault {
    #[error("{rule:?} is broken")]
    Refused { at: Span, rule: RuleId },
    #[error("out of memory")]
    Memory,
}

impl From<NoMemory> for Fault {
    ghost from_gives = { λ _ fault. fault ≡ Memory };

    fn from(_: NoMemory) -> Self {
        Fault::Memory
    }
}
