//! An internal language, lowered.

ghost use Rattle.std.specs.Prelude.{IfOk};
ghost use Rattle.st_algo.specs.Lowered.{AreLowered};

use crate::algorithm::Algos;
use crate::functions::all_functions;
use crate::relations::all_relations;
use st_il::Il;
use st_num::NoMemory;
use st_order::Modes;
use st_order::masks::directions_of;
use std::alloc::Global;

/// The algorithms of all rules and clauses of an internal language: those of the rules by the
/// orders that its modes have. Premises of a clause are run as they are written.
pub fn lower(alloc: Global, il: &Il, modes: &Modes) -> Result<Algos, NoMemory>
    ensures { IfOk result (AreLowered il.now modes.now) }
{
    let directions = directions_of(alloc, il)?;
    let relations = all_relations(alloc, &directions, modes)?;
    let funs = all_functions(alloc, &directions)?;
    Ok(Algos { relations, funs })
}
