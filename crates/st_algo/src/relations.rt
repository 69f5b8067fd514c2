//! The algorithms of the rules of all relations.

ghost use Rattle.std.specs.Prelude.{◌≡◌, ℕ, List, map, IfOk};
ghost use Rattle.std.specs.List.{enumerate_from};
ghost use Rattle.std.specs.Option.{option_copied, option_map};
ghost use Rattle.st_il.specs.Definitions.{relations, rules_of};
ghost use Rattle.st_order.specs.Known.{AreDirections, all_now};
ghost use Rattle.st_algo.specs.Lowered.{rule_algorithm, order_at, orders_at, rule_algorithms, relation_algorithms, all_relations};
ghost use Rattle.st_algo.specs.inner.Groups.{members};

use crate::algorithm::Algorithm;
use crate::groups::{Groups, rules_by_relation};
use crate::lowering::rule_algorithm;
use st_il::{RelationDef, RuleDef};
use st_num::{NoMemory, Row};
use st_order::Modes;
use st_order::index::at;
use st_order::masks::Directions;
use st_order::rules::relations_of;
use std::alloc::Global;

/// The orders of the rules of a relation, by its number.
fn orders_at(modes: &Modes, relation: usize) -> &[Option<Row<u32>>]
    ensures { result.now ≡ orders_at modes.now relation }
{
    match modes.orders.get(relation) {
        Some(orders) => orders.as_slice(),
        None => &[],
    }
}

/// The order of a rule, by its number, if it has one.
fn order_at(orders: &[Option<Row<u32>>], rule: usize) -> Option<&[u32]>
    ensures { option_copied result ≡ order_at orders.now rule }
{
    match orders.get(rule) {
        Some(Some(order)) => Some(order.as_slice()),
        Some(None) | None => None,
    }
}

/// The algorithm of a rule in its order, if it has one.
fn ordered_algorithm(
    alloc: Global,
    directions: &Directions,
    rule: &RuleDef,
    order: Option<&[u32]>,
) -> Result<Option<Algorithm>, NoMemory>
    requires { AreDirections directions.now }
    ensures { IfOk result (λ algorithm. algorithm
        ≡ option_map (rule_algorithm directions.now.il.now rule.now) (option_copied order.entry)) }
{
    match order {
        Some(order) => {
            let algorithm = rule_algorithm(alloc, directions, rule, order)?;
            Ok(Some(algorithm))
        }
        None => Ok(None),
    }
}

/// The algorithms of the rules of a relation, by their orders.
fn rule_algorithms(
    alloc: Global,
    directions: &Directions,
    rules: &[&RuleDef],
    orders: &[Option<Row<u32>>],
) -> Result<Row<Option<Algorithm>>, NoMemory>
    requires { AreDirections directions.now }
    ensures { IfOk result (λ row. row
        ≡ rule_algorithms directions.now.il.now orders.now (enumerate_from 0 (all_now rules.now))) }
{
    let mut row = Row::new(alloc);
    for i in 0..rules.len() {
        let order = order_at(orders, i);
        let algorithm = ordered_algorithm(alloc, directions, rules[i], order)?;
        row.push(algorithm)?;
    }
    Ok(row)
}

/// The algorithms of the rules of a relation, by its number.
fn relation_algorithms(
    alloc: Global,
    directions: &Directions,
    groups: &Groups<RuleDef>,
    modes: &Modes,
    number: usize,
    relation: &RelationDef,
) -> Result<Row<Option<Algorithm>>, NoMemory>
    requires directions { AreDirections directions.now }
    requires groups { (q : List ℕ)
        → members groups.now.entries q ≡ rules_of directions.now.il.now q }
    ensures { IfOk result (λ row. row
        ≡ relation_algorithms directions.now.il.now modes.now number relation.now) }
{
    let orders = orders_at(modes, number);
    match at(groups, &relation.name) {
        Some(rules) => {
            let rules = rules.as_slice();
            let row = rule_algorithms(alloc, directions, rules, orders)?;
            Ok(row)
        }
        None => Ok(Row::new(alloc)),
    }
}

/// The algorithms of the rules of all relations.
pub(crate) fn all_relations(
    alloc: Global,
    directions: &Directions,
    modes: &Modes,
) -> Result<Row<Row<Option<Algorithm>>>, NoMemory>
    requires { AreDirections directions.now }
    ensures { IfOk result (λ rows. rows
        ≡ all_relations directions.now.il.now modes.now
        (enumerate_from 0 (relations directions.now.il.now))) }
{
    let groups = rules_by_relation(alloc, directions.il)?;
    let relations = relations_of(alloc, directions.il)?;
    let relations = relations.as_slice();
    let mut rows = Row::new(alloc);
    for i in 0..relations.len() {
        let row = relation_algorithms(alloc, directions, &groups, modes, i, relations[i])?;
        rows.push(row)?;
    }
    Ok(rows)
}
