//! What a search answers.

ghost use Rattle.std.specs.Prelude.{◌≡◌};

use st_il::{Tree, Value};
use st_num::{Name, NoMemory, Row};

/// What a relation derives from some inputs: the values at its outputs, and a derivation.
#[derive(Drop)]
pub struct Output {
    pub values: Row<Value>,
    pub tree: Tree,
}

/// All that a relation derives from some inputs, each once, in the order of the values.
#[derive(Drop)]
pub struct Outputs {
    pub found: Row<Output>,
}

/// Goals of which each follows the one before it.
#[derive(Drop)]
pub struct Chain {
    /// The relation of each goal, and its inputs.
    pub goals: Row<(Name, Row<Value>)>,
    /// The full name of the rule that meets Deep at the last goal, and the number of its premise,
    /// counted from 1, and 0 for its conclusion; none where there are as many goals as the depth.
    pub at: Option<(Name, u32)>,
}

/// Why there is no answer.
#[derive(Drop)]
pub enum SearchFault {
    /// A chain of goals leads to what is Deep.
    Deep(Chain),
    Memory,
}

impl From<NoMemory> for SearchFault {
    ghost use Rattle.st_search.specs.declared.answer.SearchFault.TheVariants.{Memory};

    ghost from_gives = { λ _ fault. fault ≡ Memory };

    fn from(_: NoMemory) -> SearchFault {
        SearchFault::Memory
    }
}
