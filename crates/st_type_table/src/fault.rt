//! Why there is no table of types.

ghost use Rattle.std.specs.Prelude.{◌≡◌};

use st_num::{NoMemory, RuleId};
use thiserror::Error;

/// A condition on a part of a definition that is false.
#[derive(Clone, Copy, Debug, PartialEq, Eq)]
pub struct Broken {
    /// The number of the alternative or field, from 0; 0 in an alias.
    pub part: u32,
    /// The number, from 0, of the name that B2, B4 or B5 is about, among those in the types of the
    /// part, from left to right; 0 where the breach is one of the part as a whole.
    pub name: u32,
    pub rule: RuleId,
}

/// Why definitions have no table.
#[derive(Clone, Copy, Debug, PartialEq, Eq, Error)]
pub enum TypeFault {
    #[error("syntax {syntax} is refused: {broken:?}")]
    Refused { syntax: u32, broken: Broken },
    #[error("out of memory")]
    Memory,
}

impl From<NoMemory> for TypeFault {
    ghost use Rattle.st_type_table.specs.declared.fault.TypeFault.TheVariants.{Memory};

    ghost from_gives = { λ _ fault. fault ≡ Memory };

    fn from(_: NoMemory) -> TypeFault {
        TypeFault::Memory
    }
}
