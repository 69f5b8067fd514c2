//! Why words are not read.

ghost use Rattle.std.specs.Prelude.{◌≡◌};
ghost use Rattle.st_words.specs.declared.fault.WordsFault.TheVariants.{Memory};

use st_num::NoMemory;
use std::alloc::AllocError;
use thiserror::Error;

/// Why words give no command.
#[derive(Clone, Copy, Debug, PartialEq, Eq, Error)]
pub enum WordsFault {
    /// The words ask for no command.
    #[error("usage")]
    Usage,
    #[error("out of memory")]
    Memory,
}

impl From<NoMemory> for WordsFault {
    ghost from_gives = { λ _ fault. fault ≡ Memory };

    fn from(_: NoMemory) -> Self {
        WordsFault::Memory
    }
}

impl From<AllocError> for WordsFault {
    ghost from_gives = { λ _ fault. fault ≡ Memory };

    fn from(_: AllocError) -> Self {
        WordsFault::Memory
    }
}
