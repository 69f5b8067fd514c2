//! What stands at the inputs of a relation, and what at its outputs.

ghost use Rattle.std.specs.Prelude.{◌≡◌, ◌++◌, [], ◌∷◌, slice_get, if◌then◌else◌, IfOk, OnOk};
ghost use Rattle.st_order.specs.inner.HolesOf.{at_holes, is_hole};
ghost use Rattle.st_order.specs.inner.Parts.{exps_in};

use st_il::IlExp;
use st_num::{NoMemory, Row};
use std::alloc::Global;

/// Whether a hole is an input, or else an output.
pub(crate) fn is_hole(mask: &[bool], hole: usize, input: bool) -> bool
    ensures { result ≡ is_hole input (slice_get mask.now hole) }
{
    match mask.get(hole) {
        Some(is) => if input { *is } else { !*is },
        None => false,
    }
}

/// Adds an expression if it stands at an input, or else at an output.
fn push_at_hole<'a>(
    mask: &[bool],
    hole: usize,
    input: bool,
    exp: &'a IlExp,
    found: &mut Row<&'a IlExp>,
) -> Result<(), NoMemory>
    ensures { OnOk result (exps_in found.new ≡ exps_in found.old
        ++ (if is_hole input (slice_get mask.now hole) then exp.now ∷ [] else [])) }
{
    if is_hole(mask, hole, input) {
        found.push(exp)?;
    }
    Ok(())
}

/// The expressions that stand at inputs, or else those at outputs.
pub fn at_holes<'a>(
    alloc: Global,
    mask: &[bool],
    input: bool,
    exps: &'a [IlExp],
) -> Result<Row<&'a IlExp>, NoMemory>
    ensures { IfOk result (λ found. exps_in found ≡ at_holes input mask.now exps.now) }
{
    let mut found = Row::new(alloc);
    for i in 0..exps.len() {
        push_at_hole(mask, i, input, &exps[i], &mut found)?;
    }
    Ok(found)
}
