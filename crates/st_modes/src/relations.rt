//! What is known of the relations of an internal language: their directions, and which of them
//! cite themselves.

ghost use Rattle.std.specs.Prelude.{◌≡◌, ℕ, List, IfOk, OnOk};
ghost use Rattle.st_order.specs.Known.{at};
ghost use Rattle.st_modes.specs.inner.Relations.{directed_behind, AreDirected, AreRelations, is_directed};

use crate::circles::{Circles, circles_of};
use indexmap::IndexMap;
use st_il::{Il, IlDef};
use st_num::{Name, NoMemory};
use st_order::directions::is_directed;
use st_order::index::{at, put};
use st_order::{Directions, directions_of};
use std::alloc::Global;

/// Puts under the name of a relation whether it has a direction.
fn put_relation<'a>(
    alloc: Global,
    definition: &'a IlDef,
    directed: &mut IndexMap<&'a Name, bool>,
) -> Result<(), NoMemory>
    ensures { OnOk result ((q : List ℕ) → at directed.new.entries q
        ≡ directed_behind definition.now q (at directed.old.entries q)) }
{
    match definition {
        IlDef::Relation(relation) => {
            let is = is_directed(alloc, relation)?;
            put(directed, &relation.name, is)
        }
        IlDef::Syntax(_) | IlDef::Var(_, _) | IlDef::Rule(_) | IlDef::Fun(_) | IlDef::Clause(_) => {
            Ok(())
        }
    }
}

/// Whether the relations that are declared have a direction: of two with one name the first.
fn directed(alloc: Global, il: &Il) -> Result<IndexMap<&Name, bool>, NoMemory>
    ensures { IfOk result (λ directed. AreDirected il.now directed.entries) }
{
    let defs = il.defs.as_slice();
    let mut directed = IndexMap::new(alloc);
    for i in 0..defs.len() {
        put_relation(alloc, &defs[defs.len() - 1 - i], &mut directed)?;
    }
    Ok(directed)
}

/// The directions of the relations of an internal language, and which of them cite themselves.
#[derive(Drop)]
pub(crate) struct Relations<'a> {
    pub(crate) directions: Directions<'a>,
    directed: IndexMap<&'a Name, bool>,
    pub(crate) circles: Circles<'a>,
}

/// The same of this internal language.
pub(crate) fn known_relations(alloc: Global, il: &Il) -> Result<Relations, NoMemory>
    ensures { IfOk result (λ relations.
        AreRelations relations × (relations.directions.il.now ≡ il.now)) }
{
    let directions = directions_of(alloc, il)?;
    let directed = directed(alloc, il)?;
    let circles = circles_of(alloc, il)?;
    Ok(Relations {
        directions,
        directed,
        circles,
    })
}

/// Whether the relation of a name is declared and has a direction.
pub(crate) fn has_direction(relations: &Relations, name: &Name) -> bool
    ensures { result ≡ is_directed relations.now name.now }
{
    match at(&relations.directed, name) {
        Some(directed) => *directed,
        None => false,
    }
}
