//! Dimensions of variables.

ghost use Rattle.std.specs.Prelude.{◌≡◌, [], ◌∷◌, ◌++◌, OnOk, OnErr, IfOk, MatchOption};

use crate::NoMemory;
use smallvec::SmallVec;
use std::alloc::Global;
use std::marker::Model;

/// What an iteration makes of its body: a list, or an option.
#[derive(Clone, Copy, Debug, PartialEq, Eq, Default)]
pub enum Kind {
    #[default]
    List,
    Opt,
}

/// The kinds of the iterations round an occurrence of a variable, outermost first. Chains of up to
/// four iterations take no memory.
#[derive(Drop)]
pub struct Dim {
    kinds: SmallVec<Kind, 4>,
}

impl Model for Dim {
    ghost use Rattle.std.specs.Prelude.{List};
    ghost use Rattle.st_num.specs.declared.dim.Kind.{Kind};

    ghost Value = { List Kind };

    ghost view = { λ dim. dim.kinds.items };
}

impl Dim {
    /// The dimension of a variable that stands in no iteration.
    pub fn new(alloc: Global) -> Dim
        ensures { result ≡ [] }
    {
        Dim {
            kinds: SmallVec::new(alloc),
        }
    }

    /// The dimension of these kinds, outermost first.
    pub fn from_slice(alloc: Global, kinds: &[Kind]) -> Result<Dim, NoMemory>
        ensures { IfOk result (λ dim. dim ≡ kinds.now) }
    {
        let mut dim = Dim::new(alloc);
        for kind in kinds {
            dim.push(*kind)?;
        }
        Ok(dim)
    }

    /// The kinds, outermost first.
    pub fn as_slice(&self) -> &[Kind]
        ensures { result.now ≡ self.now }
    {
        self.kinds.as_slice()
    }

    /// Adds an innermost kind.
    pub fn push(&mut self, kind: Kind) -> Result<(), NoMemory>
        ensures ok { OnOk result (self.new ≡ self.old ++ kind ∷ []) }
        ensures err { OnErr result (self.new ≡ self.old) }
    {
        self.kinds.push(kind)?;
        Ok(())
    }

    /// Takes the innermost kind off.
    pub fn pop(&mut self) -> Option<Kind>
        ensures { MatchOption result ((self.old ≡ []) × (self.new ≡ []))
            (λ kind. self.old ≡ self.new ++ kind ∷ []) }
    {
        self.kinds.pop()
    }
}
