//! What fills the holes of a template.

ghost use Rattle.std.specs.Prelude.{◌≡◌};
ghost use Rattle.st_notation.specs.declared.filled.FitFault.TheVariants.{Memory};

use st_el::Exp;
use st_num::{NoMemory, Span};
use thiserror::Error;

/// What the type of a hole is, through aliases.
#[derive(Clone, Copy, Debug, PartialEq, Eq)]
pub enum Shape {
    /// Neither a list nor an option.
    Plain,
    List,
    Opt,
}

/// What fills a hole.
#[derive(Clone, Copy)]
pub enum Filled<'a> {
    One(&'a Exp),
    /// The elements of a list, also none.
    Run(&'a [Exp]),
    /// Nothing, in a hole of option type.
    Missing,
}

/// Why an expression gives no fillings of a template: it does not fit, or memory is wanting.
#[derive(Debug, Drop, PartialEq, Eq, Error)]
pub enum FitFault {
    #[error("no fit")]
    NoFit(Span),
    #[error("out of memory")]
    Memory,
}

impl From<NoMemory> for FitFault {
    ghost from_gives = { λ _ fault. fault ≡ Memory };

    fn from(_: NoMemory) -> Self {
        FitFault::Memory
    }
}
