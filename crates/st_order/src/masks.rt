//! The directions of all relations of an internal language, by their names.

ghost use Rattle.std.specs.Prelude.{◌≡◌, ℕ, List, IfOk, OnOk};
ghost use Rattle.st_order.specs.Known.{AreDirections, at};
ghost use Rattle.st_semantics.specs.Directions.{mask};
ghost use Rattle.st_order.specs.inner.Masks.{AreMasks, behind};

use crate::directions::mask_or_all;
use crate::index::{at, put};
use indexmap::IndexMap;
use st_il::{Il, IlDef};
use st_num::{Name, NoMemory, Row};
use std::alloc::Global;

/// For each relation, by its name, which of its holes are inputs; of an undirected one all are.
pub(crate) type Masks<'a> = IndexMap<&'a Name, Row<bool>>;

/// Puts the direction of a relation under its name.
fn put_relation<'a>(
    alloc: Global,
    definition: &'a IlDef,
    masks: &mut Masks<'a>,
) -> Result<(), NoMemory>
    ensures { OnOk result ((q : List ℕ) → at masks.new.entries q
        ≡ behind definition.now q (at masks.old.entries q)) }
{
    match definition {
        IlDef::Relation(relation) => {
            let mask = mask_or_all(alloc, relation)?;
            put(masks, &relation.name, mask)
        }
        IlDef::Syntax(_) | IlDef::Var(_, _) | IlDef::Rule(_) | IlDef::Fun(_) | IlDef::Clause(_) => {
            Ok(())
        }
    }
}

/// The directions of the relations that are declared: of two with one name that of the first.
#[tactic(auto, using(crate::proofs::MaskAmong::mask_among_behind, crate::proofs::MaskAmong::mask_among_all))]
pub(crate) fn masks(alloc: Global, il: &Il) -> Result<Masks, NoMemory>
    ensures { IfOk result (λ masks. AreMasks il.now masks.entries) }
{
    let defs = il.defs.as_slice();
    let mut masks = IndexMap::new(alloc);
    for i in 0..defs.len() {
        put_relation(alloc, &defs[defs.len() - 1 - i], &mut masks)?;
    }
    Ok(masks)
}

/// An internal language, and for each of its relations which of its holes are inputs.
#[derive(Drop)]
pub struct Directions<'a> {
    pub il: &'a Il,
    masks: Masks<'a>,
}

/// The directions of the relations of an internal language.
pub fn directions_of(alloc: Global, il: &Il) -> Result<Directions, NoMemory>
    ensures { IfOk result (λ directions.
        AreDirections directions × (directions.il.now ≡ il.now)) }
{
    let masks = masks(alloc, il)?;
    Ok(Directions { il, masks })
}

/// Which holes of the relation of a name are inputs; none of one that is not declared.
pub fn mask_under<'m>(directions: &'m Directions, name: &'m Name) -> &'m [bool]
    requires { AreDirections directions.now }
    ensures { result.now ≡ mask directions.now.il.now name.now }
{
    match at(&directions.masks, name) {
        Some(mask) => mask.as_slice(),
        None => &[],
    }
}
