//! What answers the goals of premises.

ghost use Rattle.std.specs.Prelude.{◌≡◌, ℕ, List, Result};
ghost use Rattle.st_il.specs.declared.value.Value.{Value};
ghost use Rattle.st_search.specs.declared.answer.Output.{Output};
ghost use Rattle.st_search.specs.declared.answer.SearchFault.{SearchFault};
ghost use Rattle.st_search.specs.declared.found.Found.{Found};

use crate::answer::{Output, SearchFault};
use crate::found::Found;
use st_il::Value;
use st_num::{Name, Row};

/// What answers goals.
pub(crate) trait Finder {
    /// What may be answered: the relation, the inputs and the answer.
    ghost answers: { Self → List ℕ → List Value → Result (Found Output) SearchFault → Type 0 };

    /// It may be asked whatever goal.
    ghost IsCallable: { Self → Type 0 };

    /// All outputs that the relation derives from the inputs.
    fn find(&self, relation: &Name, inputs: Row<Value>) -> Result<Found<Output>, SearchFault>
        requires { IsCallable self.now }
        ensures { answers self.now relation.now inputs result };
}

/// A closure answers the goals that it is called with.
impl<F: Fn(&Name, Row<Value>) -> Result<Found<Output>, SearchFault>> Finder for F {
    ghost use Rattle.st_search.specs.inner.Finding.{MayFind};

    ghost answers = { λ f relation inputs result. MayFind (F.post f) relation inputs result };

    ghost IsCallable = { λ f. F.IsAlwaysCallable f };

    fn find(&self, relation: &Name, inputs: Row<Value>) -> Result<Found<Output>, SearchFault> {
        self(relation, inputs)
    }
}
