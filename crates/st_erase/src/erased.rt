//! An erased expression, before it stands at its place.

ghost use Rattle.std.specs.Prelude.{◌≡◌, [], ◌∷◌, IfOk};
ghost use Rattle.st_erase.specs.Places.{whole, count, run, in_arithmetic, parts_of};

use crate::form::{only, unplaced};
use st_el::{Exp, Node};
use st_num::{Boxed, NoMemory, Row};
use std::alloc::Global;

/// What an erased expression is to the place where it stands.
#[derive(Clone, Copy, Debug, PartialEq, Eq)]
pub enum ErasedKind {
    Plain,
    /// It stands in `$( )`, except as an operand of arithmetic.
    Arithmetic,
    /// A list of two parts or more, which a hole of list type takes as a run of elements.
    Run,
    /// It was left out.
    Absent,
}

/// An erased expression.
#[derive(Drop)]
pub struct Erased {
    pub exp: Exp,
    pub kind: ErasedKind,
}

impl Erased {
    /// The expression where it is no operand of arithmetic.
    pub fn whole(self, alloc: Global) -> Result<Exp, NoMemory>
        ensures { IfOk result (λ exp. exp ≡ whole self) }
    {
        let Erased { exp, kind } = self;
        match kind {
            ErasedKind::Arithmetic => in_arithmetic(alloc, exp),
            ErasedKind::Plain | ErasedKind::Run | ErasedKind::Absent => Ok(exp),
        }
    }

    /// The expression as a count.
    pub fn count(self, alloc: Global) -> Result<Exp, NoMemory>
        ensures { IfOk result (λ exp. exp ≡ count self) }
    {
        let Erased { exp, .. } = self;
        match &exp.node {
            Node::Number(_) | Node::Name(_) => Ok(exp),
            _ => in_arithmetic(alloc, exp),
        }
    }

    /// The elements in a hole that takes a run.
    pub fn run(self, alloc: Global) -> Result<Row<Exp>, NoMemory>
        ensures { IfOk result (λ elements. elements ≡ run self) }
    {
        let Erased { exp, kind } = self;
        match kind {
            ErasedKind::Absent => Ok(Row::new(alloc)),
            ErasedKind::Arithmetic => only(alloc, in_arithmetic(alloc, exp)?),
            ErasedKind::Plain => only(alloc, exp),
            ErasedKind::Run => elements(alloc, exp),
        }
    }
}

/// The parts of a sequence; any other expression is its one element.
fn elements(alloc: Global, exp: Exp) -> Result<Row<Exp>, NoMemory>
    ensures { IfOk result (λ parts. parts ≡ parts_of exp) }
{
    let Exp { at, node } = exp;
    match node {
        Node::Seq(parts) => Ok(parts),
        node => only(alloc, Exp { at, node }),
    }
}

/// The expression in `$( )`.
fn in_arithmetic(alloc: Global, exp: Exp) -> Result<Exp, NoMemory>
    ensures { IfOk result (λ whole. whole ≡ in_arithmetic exp) }
{
    let node = Node::Arith(Boxed::new(alloc, exp)?);
    Ok(unplaced(node))
}
