//! Why no dimensions are found.

ghost use Rattle.std.specs.Prelude.{◌≡◌};
ghost use Rattle.st_dims.specs.declared.fault.DimFault.TheVariants.{Memory};

use st_num::{NoMemory, Span};
use thiserror::Error;

/// The first place that breaks a rule on dimensions, or want of memory.
#[derive(Clone, Copy, Debug, PartialEq, Eq, Error)]
pub enum DimFault {
    /// An occurrence whose iterations do not begin with its dimension, or of an index outside.
    #[error("I1")]
    I1(Span),
    /// An iteration that iterates nothing.
    #[error("I2")]
    I2(Span),
    #[error("out of memory")]
    Memory,
}

impl From<NoMemory> for DimFault {
    ghost from_gives = { λ _ fault. fault ≡ Memory };

    fn from(_: NoMemory) -> Self {
        DimFault::Memory
    }
}
