//! Relations and functions by their names.

ghost use Rattle.std.specs.Prelude.{◌≡◌, ◌∷◌, List, IfOk, OnOk};
ghost use Rattle.st_il.specs.declared.definition.IlDef.{IlDef};
ghost use Rattle.st_ilcheck.specs.inner.Heads.{FindFunctions, FindRelations};

use crate::index::put;
use indexmap::IndexMap;
use st_il::{FunDef, IlDef, RelationDef};
use st_num::{Name, NoMemory};
use std::alloc::Global;

/// Adds what is declared here in front of other definitions, if it is a function.
fn add_function<'a>(
    map: &mut IndexMap<&'a Name, &'a FunDef>,
    def: &'a IlDef,
) -> Result<(), NoMemory>
    ensures { OnOk result ((defs : List IlDef) → FindFunctions defs map.old.entries
        → FindFunctions (def.now ∷ defs) map.new.entries) }
{
    match def {
        IlDef::Fun(fun) => {
            let _later = put(map, &fun.name, fun)?;
            Ok(())
        }
        IlDef::Syntax(_) | IlDef::Var(_, _) | IlDef::Relation(_) => Ok(()),
        IlDef::Rule(_) | IlDef::Clause(_) => Ok(()),
    }
}

/// Adds what is declared here in front of other definitions, if it is a relation.
fn add_relation<'a>(
    map: &mut IndexMap<&'a Name, &'a RelationDef>,
    def: &'a IlDef,
) -> Result<(), NoMemory>
    ensures { OnOk result ((defs : List IlDef) → FindRelations defs map.old.entries
        → FindRelations (def.now ∷ defs) map.new.entries) }
{
    match def {
        IlDef::Relation(relation) => {
            let _later = put(map, &relation.name, relation)?;
            Ok(())
        }
        IlDef::Syntax(_) | IlDef::Var(_, _) | IlDef::Fun(_) => Ok(()),
        IlDef::Rule(_) | IlDef::Clause(_) => Ok(()),
    }
}

/// The functions by their names: the first of each name.
pub(crate) fn functions_by_name<'a>(
    alloc: Global,
    defs: &'a [IlDef],
) -> Result<IndexMap<&'a Name, &'a FunDef>, NoMemory>
    ensures { IfOk result (λ map. FindFunctions defs.now map.entries) }
{
    let mut map = IndexMap::new(alloc);
    for i in 0..defs.len() {
        add_function(&mut map, &defs[defs.len() - 1 - i])?;
    }
    Ok(map)
}

/// The relations by their names: the first of each name.
pub(crate) fn relations_by_name<'a>(
    alloc: Global,
    defs: &'a [IlDef],
) -> Result<IndexMap<&'a Name, &'a RelationDef>, NoMemory>
    ensures { IfOk result (λ map. FindRelations defs.now map.entries) }
{
    let mut map = IndexMap::new(alloc);
    for i in 0..defs.len() {
        add_relation(&mut map, &defs[defs.len() - 1 - i])?;
    }
    Ok(map)
}
