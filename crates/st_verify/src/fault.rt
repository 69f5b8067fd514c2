//! The answers of the checker that are not Ok.

ghost use Rattle.std.specs.Prelude.{◌≡◌};
ghost use Rattle.st_verify.specs.Typing.{typing_of};

use st_il::TypeRule;
use st_num::NoMemory;
use st_semantics::VerifyRule;
use thiserror::Error;

/// Why a derivation, or the internal language that it speaks of, is not accepted.
#[derive(Clone, Copy, Debug, PartialEq, Eq, Error)]
pub enum VerifyFault {
    /// The first line that is refused, and the rule that it breaks. `typing` is the typing rule
    /// behind a V2.
    #[error("a line is refused")]
    Refused {
        rule: VerifyRule,
        line: u64,
        typing: Option<TypeRule>,
    },
    #[error("out of memory")]
    Memory,
}

impl From<NoMemory> for VerifyFault {
    ghost use Rattle.st_verify.specs.declared.fault.VerifyFault.TheVariants.{Memory};

    ghost from_gives = { λ _ fault. fault ≡ Memory };

    fn from(_: NoMemory) -> Self {
        VerifyFault::Memory
    }
}

/// The typing rule behind a V2. It takes no memory.
pub fn definition_rule(fault: &VerifyFault) -> Option<TypeRule>
    ensures { result ≡ typing_of fault.now }
{
    match fault {
        VerifyFault::Refused {
            rule: _,
            line: _,
            typing,
        } => *typing,
        VerifyFault::Memory => None,
    }
}
