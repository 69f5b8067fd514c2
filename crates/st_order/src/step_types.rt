//! Whether a relation leads from what it takes to what it takes again.

ghost use Rattle.std.specs.Prelude.{◌≡◌, ◌↔◌, slice_get, IsTrue};
ghost use Rattle.st_il.specs.declared.definition.Il.{Il};
ghost use Rattle.st_type_table.specs.Same.{SameAll};
ghost use Rattle.st_il.specs.Definitions.{syntaxes};
ghost use Rattle.st_semantics.specs.Directions.{inputs_by, outputs_by, IsStepping};
ghost use Rattle.st_order.specs.Tagged.{IsTagged};
ghost use Rattle.st_order.specs.inner.HolesOf.{is_hole, IsNextHole};
ghost use Rattle.st_order.specs.inner.Inputs.{mask_told};

use crate::directions::{Inputs, inputs_of, is_input};
use st_il::{RelationDef, Ty};
use st_types::TypeTable;

/// Whether a hole is an input, or else an output.
fn is_side(inputs: &Inputs, input: bool, hole: usize) -> bool
    ensures { result ≡ is_hole input (slice_get (mask_told inputs.now) hole) }
{
    match is_input(inputs, hole) {
        Some(is) => if input { is } else { !is },
        None => false,
    }
}

/// The first hole from this one on that is an input, or else an output.
fn next_hole(inputs: &Inputs, input: bool, holes: &[Ty], from: usize) -> Option<usize>
    ensures { IsNextHole input (mask_told inputs.now) holes.now from result }
{
    for hole in from..holes.len() {
        if is_side(inputs, input, hole) {
            return Some(hole);
        }
    }
    None
}

/// Whether the types at inputs are those at outputs, through aliases.
fn have_same_types(types: &TypeTable, inputs: &Inputs, holes: &[Ty]) -> bool
    ensures { IsTrue result ↔ SameAll types.now (inputs_by (mask_told inputs.now) holes.now)
        (outputs_by (mask_told inputs.now) holes.now) }
{
    let mut from = 0;
    let mut to = 0;
    'holes: loop {
        let input = next_hole(inputs, true, holes, from);
        let output = next_hole(inputs, false, holes, to);
        let Some(one) = input else {
            return output.is_none();
        };
        let Some(other) = output else {
            return false;
        };
        if !types.same(&holes[one], &holes[other]) {
            return false;
        }
        from = one + 1;
        to = other + 1;
    }
}

/// Whether a relation is directed, and the types at its inputs are those at its outputs, through
/// aliases: then what comes out can be taken again.
pub fn stepping(types: &TypeTable, relation: &RelationDef) -> bool
    requires { IsTagged relation.now }
    ensures { (il : Il) → types.now ≡ syntaxes il → IsTrue result ↔ IsStepping il relation.now }
{
    match inputs_of(relation) {
        Some(inputs) => have_same_types(types, &inputs, relation.holes.as_slice()),
        None => false,
    }
}
