//! The rules of an internal language: by the numbers of their relations, and their full names.

ghost use Rattle.std.specs.Prelude.{◌≡◌, ◌++◌, [], ◌∷◌, IfOk, OnOk};
ghost use Rattle.std.specs.Option.{option_copied};
ghost use Rattle.st_il.specs.Definitions.{relations, relations_in, rules_of, rules_in, rules_from};
ghost use Rattle.st_semantics.specs.Marks.{full_name};
ghost use Rattle.st_order.specs.Answers.{rule_at};
ghost use Rattle.st_order.specs.Known.{all_now};

use st_il::{Il, IlDef, RelationDef, RuleDef};
use st_num::{Name, NoMemory, Row};
use std::alloc::Global;

/// Adds a relation.
fn push_relation<'a>(
    definition: &'a IlDef,
    relations: &mut Row<&'a RelationDef>,
) -> Result<(), NoMemory>
    ensures { OnOk result (all_now relations.new
        ≡ all_now relations.old ++ relations_in (definition.now ∷ [])) }
{
    match definition {
        IlDef::Relation(relation) => relations.push(relation),
        IlDef::Syntax(_) | IlDef::Var(_, _) | IlDef::Rule(_) | IlDef::Fun(_) | IlDef::Clause(_) => {
            Ok(())
        }
    }
}

/// The relations of an internal language, in order.
pub fn relations_of(alloc: Global, il: &Il) -> Result<Row<&RelationDef>, NoMemory>
    ensures { IfOk result (λ row. all_now row ≡ relations il.now) }
{
    let defs = il.defs.as_slice();
    let mut row = Row::new(alloc);
    for definition in defs {
        push_relation(definition, &mut row)?;
    }
    Ok(row)
}

/// Adds a rule if it is one of the relation of this name.
fn push_rule<'a>(
    name: &Name,
    definition: &'a IlDef,
    rules: &mut Row<&'a RuleDef>,
) -> Result<(), NoMemory>
    ensures { OnOk result (all_now rules.new
        ≡ all_now rules.old ++ rules_from name.now (rules_in (definition.now ∷ []))) }
{
    match definition {
        IlDef::Rule(rule) => {
            if *name == rule.relation {
                rules.push(rule)?;
            }
            Ok(())
        }
        IlDef::Syntax(_)
        | IlDef::Var(_, _)
        | IlDef::Relation(_)
        | IlDef::Fun(_)
        | IlDef::Clause(_) => Ok(()),
    }
}

/// The rules of the relation of a name, in order.
pub fn rules_of<'a>(alloc: Global, il: &'a Il, name: &Name) -> Result<Row<&'a RuleDef>, NoMemory>
    ensures { IfOk result (λ row. all_now row ≡ rules_of il.now name.now) }
{
    let defs = il.defs.as_slice();
    let mut row = Row::new(alloc);
    for definition in defs {
        push_rule(name, definition, &mut row)?;
    }
    Ok(row)
}

/// The rule of a number of the relation of a number.
pub(crate) fn rule_at(
    alloc: Global,
    il: &Il,
    relation: u32,
    rule: u32,
) -> Result<Option<&RuleDef>, NoMemory>
    ensures { IfOk result (λ found. option_copied found ≡ rule_at il.now relation rule) }
{
    let relations = relations_of(alloc, il)?;
    match relations.get(relation as usize) {
        Some(relation) => {
            let rules = rules_of(alloc, il, &relation.name)?;
            Ok(rules.get(rule as usize).copied())
        }
        None => Ok(None),
    }
}

/// Adds bytes.
fn push_bytes(bytes: &[u8], text: &mut Name) -> Result<(), NoMemory>
    ensures { OnOk result (text.new ≡ text.old ++ bytes.now) }
{
    for byte in bytes {
        text.push(*byte)?;
    }
    Ok(())
}

/// The full name of a rule: that of its relation, and behind a `/` its own, where it is not empty.
pub fn full_name(alloc: Global, rule: &RuleDef) -> Result<Name, NoMemory>
    ensures { IfOk result (λ name. name ≡ full_name rule.now) }
{
    let mut name = rule.relation.copy(alloc)?;
    if rule.name.is_empty() {
        return Ok(name);
    }
    name.push(b'/')?;
    push_bytes(rule.name.as_slice(), &mut name)?;
    Ok(name)
}
