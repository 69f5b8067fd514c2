//! How the rules of relations are printed.

ghost use Rattle.std.specs.Prelude.{◌≡◌, ◌++◌, OnOk, flat_map};
ghost use Rattle.std.specs.List.{enumerate_from};
ghost use Rattle.std.specs.Option.{option_copied};
ghost use Rattle.st_il.specs.Definitions.{relations};
ghost use Rattle.st_index.specs.Names.{all_now};
ghost use Rattle.st_semantics.specs.Marks.{full_name};
ghost use Rattle.st_prose.specs.ProseText.{rule_heading, algorithms_at, algorithm_at, rule_steps, rule_text, relation_text};

use crate::expression::print_word;
use crate::step::print_steps;
use st_algo::{Algorithm, Algos};
use st_il::{RelationDef, RuleDef};
use st_index::Index;
use st_num::NoMemory;
use std::alloc::Global;

/// The algorithms of the rules of a relation, by its number.
fn algorithms_at(algos: &Algos, relation: usize) -> &[Option<Algorithm>]
    ensures { result.now ≡ algorithms_at algos.now relation }
{
    match algos.relations.get(relation) {
        Some(algorithms) => algorithms.as_slice(),
        None => &[],
    }
}

/// The algorithm of a rule, by its number, if it has one.
fn algorithm_at(algorithms: &[Option<Algorithm>], rule: usize) -> Option<&Algorithm>
    ensures { option_copied result ≡ algorithm_at algorithms.now rule }
{
    match algorithms.get(rule) {
        Some(Some(algorithm)) => Some(algorithm),
        Some(None) | None => None,
    }
}

/// Appends the full name of a rule.
fn print_full_name(rule: &RuleDef, out: &mut Vec<u8>) -> Result<(), NoMemory>
    ensures { OnOk result (out.new.items ≡ out.old.items ++ full_name rule.now) }
{
    print_word(rule.relation.as_slice(), out)?;
    if rule.name.is_empty() {
        return Ok(());
    }
    print_word(b"/", out)?;
    print_word(rule.name.as_slice(), out)
}

/// Appends the heading of a rule.
fn print_heading(rule: &RuleDef, out: &mut Vec<u8>) -> Result<(), NoMemory>
    ensures { OnOk result (out.new.items ≡ out.old.items ++ rule_heading rule.now) }
{
    print_word(b"Rule ", out)?;
    print_full_name(rule, out)?;
    print_word(b":\n", out)
}

/// Appends what stands under the heading of a rule.
fn print_rule_steps(
    alloc: Global,
    index: &Index,
    algorithm: Option<&Algorithm>,
    out: &mut Vec<u8>,
) -> Result<(), NoMemory>
    ensures { OnOk result (out.new.items
        ≡ out.old.items ++ rule_steps index.now (option_copied algorithm.entry)) }
{
    match algorithm {
        Some(algorithm) => print_steps(alloc, index, algorithm.steps.as_slice(), out),
        None => print_word(b"No algorithm.\n", out),
    }
}

/// Appends a rule, by its number.
fn print_rule(
    alloc: Global,
    index: &Index,
    algorithms: &[Option<Algorithm>],
    number: usize,
    rule: &RuleDef,
    out: &mut Vec<u8>,
) -> Result<(), NoMemory>
    ensures { OnOk result (out.new.items
        ≡ out.old.items ++ rule_text index.now algorithms.now (number, rule.now)) }
{
    print_heading(rule, out)?;
    print_rule_steps(alloc, index, algorithm_at(algorithms, number), out)
}

/// Appends rules, in order.
fn print_rules(
    alloc: Global,
    index: &Index,
    algorithms: &[Option<Algorithm>],
    rules: &[&RuleDef],
    out: &mut Vec<u8>,
) -> Result<(), NoMemory>
    ensures { OnOk result (out.new.items ≡ out.old.items
        ++ flat_map (rule_text index.now algorithms.now) (enumerate_from 0 (all_now rules.now))) }
{
    for i in 0..rules.len() {
        print_rule(alloc, index, algorithms, i, rules[i], out)?;
    }
    Ok(())
}

/// Appends the rules of a relation, by its number.
fn print_relation(
    alloc: Global,
    index: &Index,
    algos: &Algos,
    number: usize,
    relation: &RelationDef,
    out: &mut Vec<u8>,
) -> Result<(), NoMemory>
    ensures { OnOk result (out.new.items
        ≡ out.old.items ++ relation_text index.now algos.now (number, relation.now)) }
{
    let algorithms = algorithms_at(algos, number);
    let rules = index.rules_of(&relation.name);
    print_rules(alloc, index, algorithms, rules, out)
}

/// Appends the rules of all relations.
pub(crate) fn print_relations(
    alloc: Global,
    index: &Index,
    algos: &Algos,
    out: &mut Vec<u8>,
) -> Result<(), NoMemory>
    ensures { OnOk result (out.new.items ≡ out.old.items
        ++ flat_map (relation_text index.now algos.now)
        (enumerate_from 0 (relations index.now))) }
{
    let relations = index.relations();
    for i in 0..relations.len() {
        print_relation(alloc, index, algos, i, relations[i], out)?;
    }
    Ok(())
}
