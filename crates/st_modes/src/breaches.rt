//! The first definition that breaks one of the rules M1 to M7.
//!
//! The definitions are gone through from the last one on. What is kept is which relations have a
//! rule with an `otherwise` among those behind, and the first of them that breaks a rule.

ghost use Rattle.std.specs.Prelude.{◌≡◌, ◌<◌, ◌^◌, ◌∷◌, List, length, IfOk, OnOk};
ghost use Rattle.st_il.specs.declared.definition.IlDef.{IlDef};
ghost use Rattle.st_order.specs.inner.Index.{names_in};
ghost use Rattle.st_modes.specs.inner.Relations.{AreRelations};
ghost use Rattle.st_modes.specs.inner.Breaches.{AreDecided, IsLeast, IsFound, IsBreachAnswer, earlier};

use crate::clause_modes::clause_breach;
use crate::relations::{Relations, known_relations};
use crate::rule_modes::{have_otherwise, rule_breach};
use indexmap::IndexSet;
use st_il::{Il, IlDef};
use st_num::{Name, NoMemory, RuleId};
use st_order::index::add;
use std::alloc::Global;

/// A definition that breaks a rule, by its number, and the least that it breaks.
#[derive(Clone, Copy, Debug)]
pub(crate) struct ModeBreach {
    pub(crate) definition: u32,
    pub(crate) rule: RuleId,
}

/// The least of the rules that a definition breaks, where these relations have a rule with an
/// `otherwise` behind it.
fn definition_breach(
    alloc: Global,
    relations: &Relations,
    decided: &IndexSet<&Name>,
    definition: &IlDef,
) -> Result<Option<RuleId>, NoMemory>
    requires { AreRelations relations.now }
    ensures { IfOk result (λ breach. (after : List IlDef)
        → AreDecided (names_in decided.now.keys) after
        → IsLeast relations.now.directions.il.now (definition.now, after) breach) }
{
    match definition {
        IlDef::Rule(rule) => {
            let breach = rule_breach(relations, decided, rule);
            Ok(breach)
        }
        IlDef::Clause(clause) => {
            let broken = clause_breach(alloc, &relations.directions, clause)?;
            Ok(broken)
        }
        IlDef::Syntax(_) | IlDef::Var(_, _) | IlDef::Relation(_) | IlDef::Fun(_) => Ok(None),
    }
}

/// Adds the relation of a rule that has an `otherwise`.
fn note_otherwise<'a>(
    definition: &'a IlDef,
    decided: &mut IndexSet<&'a Name>,
) -> Result<(), NoMemory>
    ensures { OnOk result ((after : List IlDef) → AreDecided (names_in decided.old.keys) after
        → AreDecided (names_in decided.new.keys) (definition.now ∷ after)) }
{
    match definition {
        IlDef::Rule(rule) => {
            let has = have_otherwise(rule.premises.as_slice());
            if !has {
                return Ok(());
            }
            add(decided, &rule.relation)?;
            Ok(())
        }
        IlDef::Syntax(_)
        | IlDef::Var(_, _)
        | IlDef::Relation(_)
        | IlDef::Fun(_)
        | IlDef::Clause(_) => Ok(()),
    }
}

/// The breach of the definition of this number, if it breaks a rule, or else the one found behind
/// it.
fn earlier(definition: u32, breach: Option<RuleId>, found: Option<ModeBreach>) -> Option<ModeBreach>
    ensures { result ≡ earlier definition breach found }
{
    match breach {
        Some(rule) => Some(ModeBreach { definition, rule }),
        None => found,
    }
}

/// The first definition that breaks a rule, if there is one, where this is known of the relations.
fn first_breach(
    alloc: Global,
    relations: &Relations,
    defs: &[IlDef],
) -> Result<Option<ModeBreach>, NoMemory>
    requires relations { AreRelations relations.now }
    requires few { length defs.now < 2 ^ 32 }
    ensures { IfOk result (IsFound relations.now.directions.il.now 0 defs.now) }
{
    let mut decided = IndexSet::new(alloc);
    let mut found = None;
    for i in 0..defs.len() {
        let number = defs.len() - 1 - i;
        let definition = &defs[number];
        let breach = definition_breach(alloc, relations, &decided, definition)?;
        found = earlier(number as u32, breach, found);
        note_otherwise(definition, &mut decided)?;
    }
    Ok(found)
}

/// The first definition that breaks one of the rules M1 to M7, if there is one.
pub(crate) fn mode_breach(alloc: Global, il: &Il) -> Result<Option<ModeBreach>, NoMemory>
    requires { length il.now.defs < 2 ^ 32 }
    ensures { IfOk result (IsBreachAnswer il.now) }
{
    let relations = known_relations(alloc, il)?;
    let found = first_breach(alloc, &relations, il.defs.as_slice())?;
    Ok(found)
}
