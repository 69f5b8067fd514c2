//! Why a rule has no order.

ghost use Rattle.std.specs.Prelude.{◌≡◌};

use st_num::{Name, NoMemory};
use thiserror::Error;

/// Why the premises of a rule have no order.
#[derive(Debug, Drop, Error)]
pub enum OrderFault {
    /// The premise that cannot be run, counted from 1, and 0 where an input or an output of the
    /// conclusion is in the way; and the least variable that is not bound there, which an input
    /// that is no pattern has not.
    #[error("the premises of a rule cannot be ordered")]
    Unordered {
        premise: u32,
        variable: Option<Name>,
    },
    #[error("out of memory")]
    Memory,
}

impl From<NoMemory> for OrderFault {
    ghost use Rattle.st_order.specs.declared.fault.OrderFault.TheVariants.{Memory};

    ghost from_gives = { λ _ fault. fault ≡ Memory };

    fn from(_: NoMemory) -> OrderFault {
        OrderFault::Memory
    }
}
