//! Why bytes are no text.

ghost use Rattle.std.specs.Prelude.{◌≡◌};

use st_num::NoMemory;
use thiserror::Error;

/// Why bytes are no text. Lines count from 1.
#[derive(Clone, Copy, Debug, PartialEq, Eq, Error)]
pub enum TextFault {
    #[error("malformed at line {line}")]
    Malformed { line: u64 },
    #[error("out of memory")]
    Memory,
}

impl From<NoMemory> for TextFault {
    ghost use Rattle.st_text.specs.declared.fault.TextFault.TheVariants.{Memory};

    ghost from_gives = { λ _ fault. fault ≡ Memory };

    fn from(_: NoMemory) -> TextFault {
        TextFault::Memory
    }
}

/// The fault of a reader that is given one line.
pub(crate) const MALFORMED: TextFault = TextFault::Malformed { line: 1 };
