//! Relations and functions by their names, and the heads of rules and clauses.

ghost use Rattle.std.specs.Prelude.{◌≡◌, ◌&&◌, ◌||◌, ℕ, List, Some, IfOk, OnOk};
ghost use Rattle.std.specs.Option.{option_copied};
ghost use Rattle.st_num.specs.Names.{same_name};
ghost use Rattle.st_el.specs.declared.definition.Def.{Def};
ghost use Rattle.st_elab_table.specs.declared.decls.Decls.{Decls};
ghost use Rattle.st_elab_table.specs.Inferred.{fun_named};
ghost use Rattle.st_elab_rows.specs.Told.{Told};
ghost use Rattle.st_elab_table.specs.Judgements.{relation_named};
ghost use Rattle.st_elab_def.specs.Phases.{Placed};
ghost use Rattle.st_elab_def.specs.inner.Heads.{Finds, KnowsRules, HasHead, on_head, on_function};
ghost use Rattle.st_ilcheck.specs.Index.{at, has_pair};
ghost use Rattle.st_elab_def.specs.inner.Walk.{FirstBreachAt};

use indexmap::{IndexMap, IndexSet};
use st_elab_table::Decls;
use st_il::{FunDef, RelationDef};
use st_ilcheck::index::{add_pair, at, put};
use st_num::{Fault, Name, NoMemory, RuleId, Span};
use std::alloc::Global;

/// The relations and the functions of a source, by their names.
#[derive(Drop)]
pub(crate) struct Known<'a> {
    relations: IndexMap<&'a Name, &'a RelationDef>,
    funs: IndexMap<&'a Name, &'a FunDef>,
}

/// The relations by their names: the first of each name.
fn relations_by_name<'a>(
    alloc: Global,
    relations: &'a [RelationDef],
) -> Result<IndexMap<&'a Name, &'a RelationDef>, NoMemory>
    ensures { IfOk result (λ map. (q : List ℕ)
        → option_copied (at map.entries q) ≡ relation_named relations.now q) }
{
    let mut map = IndexMap::new(alloc);
    for i in 0..relations.len() {
        let relation = &relations[relations.len() - 1 - i];
        let _later = put(&mut map, &relation.name, relation)?;
    }
    Ok(map)
}

/// The functions by their names: the first of each name.
fn funs_by_name<'a>(
    alloc: Global,
    funs: &'a [FunDef],
) -> Result<IndexMap<&'a Name, &'a FunDef>, NoMemory>
    ensures { IfOk result (λ map. (q : List ℕ)
        → option_copied (at map.entries q) ≡ fun_named funs.now q) }
{
    let mut map = IndexMap::new(alloc);
    for i in 0..funs.len() {
        let fun = &funs[funs.len() - 1 - i];
        let _later = put(&mut map, &fun.name, fun)?;
    }
    Ok(map)
}

impl<'a> Known<'a> {
    /// The relations and the functions that are declared.
    pub(crate) fn of(alloc: Global, decls: &'a Decls) -> Result<Known<'a>, NoMemory>
        ensures { IfOk result (Finds decls.now) }
    {
        Ok(Known {
            relations: relations_by_name(alloc, decls.relations.as_slice())?,
            funs: funs_by_name(alloc, decls.funs.as_slice())?,
        })
    }
}

/// The relation of a rule, where no rule of it before has this name.
pub(crate) fn head<'k, 'a>(
    known: &Known<'k>,
    rules: &mut IndexSet<(&'a Name, &'a Name)>,
    place: Span,
    relation: &'a Name,
    name: &'a Name,
) -> Result<&'k RelationDef, Fault>
    ensures told { (D : Decls) (before : List Def) (rest : List Placed) → Finds D known.now
        → KnowsRules before rules.old.keys
        → Told (λ R. HasHead D before relation.now name.now R.now)
        (FirstBreachAt D (on_head before place relation.now name.now rest)) result }
    ensures more { OnOk result ((p q : List ℕ) → has_pair rules.new.keys p q
        ≡ (has_pair rules.old.keys p q || (same_name p relation.now && same_name q name.now))) }
{
    let Some(found) = at(&known.relations, relation) else {
        return Err(Fault::Refused {
            at: place,
            rule: RuleId::B2,
        });
    };
    if !add_pair(rules, relation, name)? {
        return Err(Fault::Refused {
            at: place,
            rule: RuleId::B6,
        });
    }
    Ok(found)
}

/// The function of a clause.
pub(crate) fn function<'k>(known: &Known<'k>, place: Span, name: &Name) -> Result<&'k FunDef, Fault>
    ensures { (D : Decls) (rest : List Placed) → Finds D known.now
        → Told (λ f. fun_named D.funs name.now ≡ Some f.now)
        (FirstBreachAt D (on_function place name.now rest)) result }
{
    match at(&known.funs, name) {
        Some(found) => Ok(found),
        None => Err(Fault::Refused {
            at: place,
            rule: RuleId::B2,
        }),
    }
}
