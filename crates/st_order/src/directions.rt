//! Which holes of a relation are inputs.

ghost use Rattle.std.specs.Prelude.{◌≡◌, ◌++◌, true, Some, replicate, slice_get, option_map, option_and_then, is_some, IfOk};
ghost use Rattle.st_il.specs.declared.template.Template.{out-Template};
ghost use Rattle.st_semantics.specs.Directions.{is_arrow, direction_at, direction, inputs_or_all};
ghost use Rattle.st_order.specs.Tagged.{IsTagged};
ghost use Rattle.st_order.specs.inner.Arrow.{told_by};
ghost use Rattle.st_order.specs.inner.Inputs.{mask_told};

use crate::arrow::{Sides, sides_of};
use st_il::{RelationDef, Template, template_of};
use st_num::{Mark, NoMemory, Row};
use st_semantics::push_holes;
use std::alloc::Global;

/// Whether inputs lead to outputs by this sign.
fn is_arrow(sign: Mark) -> bool
    ensures { result ≡ is_arrow sign }
{
    match sign {
        Mark::SquigglyArrow | Mark::SquigglyArrowStar => true,
        _ => false,
    }
}

/// For each hole of a notation with an arrow at its top, whether it is an input.
fn mask_at(alloc: Global, template: &Template) -> Result<Option<Row<bool>>, NoMemory>
    ensures { IfOk result (λ mask. mask ≡ direction_at (out-Template template.now)) }
{
    match template {
        Template::Infix(left, sign, right) => {
            if !is_arrow(*sign) {
                return Ok(None);
            }
            let mut mask = Row::new(alloc);
            push_holes(left.get(), true, &mut mask)?;
            push_holes(right.get(), false, &mut mask)?;
            Ok(Some(mask))
        }
        _ => Ok(None),
    }
}

/// For each hole of a relation, whether it is an input; none where it is undirected.
pub(crate) fn mask_of(alloc: Global, relation: &RelationDef) -> Result<Option<Row<bool>>, NoMemory>
    ensures { IfOk result (λ mask. mask ≡ direction relation.now) }
{
    if !relation.mode.is_empty() {
        let mask = relation.mode.copy(alloc)?;
        return Ok(Some(mask));
    }
    match template_of(alloc, &relation.tag)? {
        None => Ok(None),
        Some(template) => mask_at(alloc, &template),
    }
}

/// Whether a relation has a direction.
pub fn is_directed(alloc: Global, relation: &RelationDef) -> Result<bool, NoMemory>
    ensures { IfOk result (λ is. is ≡ is_some (direction relation.now)) }
{
    let mask = mask_of(alloc, relation)?;
    Ok(mask.is_some())
}

/// So many holes, which are inputs.
fn all_inputs(alloc: Global, len: usize) -> Result<Row<bool>, NoMemory>
    ensures { IfOk result (λ mask. mask ≡ replicate len true) }
{
    let mut mask = Row::new(alloc);
    'holes: while mask.len() < len {
        mask.push(true)?;
    }
    Ok(mask)
}

/// For each hole of a relation, whether it is an input; all are where it is undirected.
pub(crate) fn mask_or_all(alloc: Global, relation: &RelationDef) -> Result<Row<bool>, NoMemory>
    ensures { IfOk result (λ mask. mask ≡ inputs_or_all (Some relation.now)) }
{
    match mask_of(alloc, relation)? {
        Some(mask) => Ok(mask),
        None => all_inputs(alloc, relation.holes.len()),
    }
}

/// Which holes of a relation are inputs.
#[derive(Clone, Copy)]
pub(crate) enum Inputs<'a> {
    /// Those of which a hint says so.
    Hinted(&'a [bool]),
    /// Those before the arrow of its notation.
    Leading(Sides),
}

/// Which holes of a relation are inputs, if it has a direction.
pub(crate) fn inputs_of(relation: &RelationDef) -> Option<Inputs>
    requires { IsTagged relation.now }
    ensures { option_map mask_told result ≡ direction relation.now }
{
    if !relation.mode.is_empty() {
        return Some(Inputs::Hinted(relation.mode.as_slice()));
    }
    match sides_of(relation.tag.as_slice()) {
        Some(sides) => Some(Inputs::Leading(sides)),
        None => None,
    }
}

/// Whether a hole stands before the arrow, if there is such a hole.
fn is_before(sides: Sides, hole: usize) -> Option<bool>
    ensures { result ≡ slice_get (told_by sides) hole }
{
    if hole < sides.before {
        return Some(true);
    }
    if hole < sides.holes {
        Some(false)
    } else {
        None
    }
}

/// Whether a hole is an input, if there is such a hole.
pub(crate) fn is_input(inputs: &Inputs, hole: usize) -> Option<bool>
    ensures { result ≡ slice_get (mask_told inputs.now) hole }
{
    match inputs {
        Inputs::Hinted(mask) => mask.get(hole).copied(),
        Inputs::Leading(sides) => is_before(*sides, hole),
    }
}

/// Whether a hole of a relation is an input; none where the relation is undirected, or has no such
/// hole.
pub fn direction(relation: &RelationDef, hole: usize) -> Option<bool>
    requires { IsTagged relation.now }
    ensures { result
        ≡ option_and_then (λ mask. slice_get mask hole) (direction relation.now) }
{
    match inputs_of(relation) {
        Some(inputs) => is_input(&inputs, hole),
        None => None,
    }
}
