//! The text of the orders in which the premises of rules are run.

ghost use Rattle.std.specs.Prelude.{◌≡◌, ◌≢◌, ◌<◌, ◌^◌, ◌++◌, codes, decimal, map, flat_map, length, Some, Err, IfOk, OnOk, MatchBool};
ghost use Rattle.st_modes.specs.inner.Citations.{rules_under};
ghost use Rattle.st_order.specs.Modes.{HasFew, AreModes, orders_in};
ghost use Rattle.st_order.specs.Known.{AreDirections, all_now};
ghost use Rattle.st_il.specs.Definitions.{relations};
ghost use Rattle.st_semantics.specs.Marks.{HasUnfit, full_name};
ghost use Rattle.st_semantics.specs.OrderOf.{order_of};
ghost use Rattle.st_answers.specs.OrderTexts.{numbers_text, variable_text, order_text, rule_line, relation_lines, orders_text};
ghost use Rattle.st_answers.specs.inner.Relations.{AreRules, HaveFew, order_of_rule};

use crate::refusal::push_rule_part;
use itoa::Buffer;
use st_il::{Il, RelationDef, RuleDef};
use st_modes::{Rules, citations_of};
use st_num::{Name, NoMemory, Row};
use st_order::index::at;
use st_order::{Directions, Modes, directions_of, order_by, relations_of};
use st_semantics::{Unfit, Unordered};
use std::alloc::Global;

/// Adds a space and a number.
fn add_number(number: u32, bytes: &mut Vec<u8>) -> Result<(), NoMemory>
    ensures { OnOk result (bytes.new.items ≡ bytes.old.items ++ codes " " ++ decimal number) }
{
    let mut buffer = Buffer::new();
    bytes.extend_from_slice(b" ")?;
    bytes.extend_from_slice(buffer.format(number).as_bytes())?;
    Ok(())
}

/// Adds the numbers of premises, with a space in front of each.
fn add_numbers(numbers: &[u32], bytes: &mut Vec<u8>) -> Result<(), NoMemory>
    ensures { OnOk result (bytes.new.items ≡ bytes.old.items ++ numbers_text numbers.now) }
{
    for number in numbers {
        add_number(*number, bytes)?;
    }
    Ok(())
}

/// Adds the variable that is in the way, or a dash.
pub fn add_variable(variable: &Option<Name>, bytes: &mut Vec<u8>) -> Result<(), NoMemory>
    ensures { OnOk result (bytes.new.items ≡ bytes.old.items ++ variable_text variable.now) }
{
    match variable {
        None => bytes.extend_from_slice(b"-")?,
        Some(name) => bytes.extend_from_slice(name.as_slice())?,
    }
    Ok(())
}

/// Adds the mark of a rule without an order.
fn add_fault(fault: &Unordered, bytes: &mut Vec<u8>) -> Result<(), NoMemory>
    ensures { OnOk result (bytes.new.items ≡ bytes.old.items ++ order_text (Err fault.now)) }
{
    let mut buffer = Buffer::new();
    bytes.extend_from_slice(b" U2 ")?;
    bytes.extend_from_slice(buffer.format(fault.premise).as_bytes())?;
    bytes.extend_from_slice(b" ")?;
    add_variable(&fault.variable, bytes)
}

/// Adds the order of a rule, or what is in the way of one.
fn add_asked_order(
    alloc: Global,
    directions: &Directions,
    rule: &RuleDef,
    bytes: &mut Vec<u8>,
) -> Result<(), NoMemory>
    requires directions { AreDirections directions.now }
    requires few { length rule.now.premises < 2 ^ 32 }
    ensures { OnOk result (bytes.new.items
        ≡ bytes.old.items ++ order_text (order_of directions.now.il.now rule.now)) }
{
    match order_by(alloc, directions, rule)? {
        Ok(numbers) => add_numbers(numbers.as_slice(), bytes),
        Err(fault) => add_fault(&fault, bytes),
    }
}

/// Adds the order of a rule, where it is known; else asks what is in the way.
fn add_order(
    alloc: Global,
    directions: &Directions,
    rule: &RuleDef,
    order: &Option<Row<u32>>,
    bytes: &mut Vec<u8>,
) -> Result<(), NoMemory>
    requires directions { AreDirections directions.now }
    requires few { length rule.now.premises < 2 ^ 32 }
    requires order { order.now ≡ order_of_rule directions.now.il.now rule.now }
    ensures { OnOk result (bytes.new.items
        ≡ bytes.old.items ++ order_text (order_of directions.now.il.now rule.now)) }
{
    match order {
        Some(numbers) => add_numbers(numbers.as_slice(), bytes),
        None => add_asked_order(alloc, directions, rule, bytes),
    }
}

/// Adds the full name of a rule.
fn add_full_name(rule: &RuleDef, bytes: &mut Vec<u8>) -> Result<(), NoMemory>
    ensures { OnOk result (bytes.new.items ≡ bytes.old.items ++ full_name rule.now) }
{
    bytes.extend_from_slice(rule.relation.as_slice())?;
    push_rule_part(bytes, &rule.name)?;
    Ok(())
}

/// Adds the line of a rule.
fn add_rule(
    alloc: Global,
    directions: &Directions,
    rule: &RuleDef,
    order: &Option<Row<u32>>,
    bytes: &mut Vec<u8>,
) -> Result<(), NoMemory>
    requires directions { AreDirections directions.now }
    requires few { length rule.now.premises < 2 ^ 32 }
    requires order { order.now ≡ order_of_rule directions.now.il.now rule.now }
    ensures { OnOk result (bytes.new.items
        ≡ bytes.old.items ++ rule_line directions.now.il.now rule.now) }
{
    bytes.extend_from_slice(b"  ")?;
    add_full_name(rule, bytes)?;
    bytes.extend_from_slice(b":")?;
    add_order(alloc, directions, rule, order, bytes)?;
    bytes.extend_from_slice(b"\n")?;
    Ok(())
}

/// Adds the lines of rules that have these orders.
fn add_rules(
    alloc: Global,
    directions: &Directions,
    rules: &[&RuleDef],
    orders: &[Option<Row<u32>>],
    bytes: &mut Vec<u8>,
) -> Result<(), NoMemory>
    requires directions { AreDirections directions.now }
    requires few { HaveFew (all_now rules.now) }
    requires orders { orders.now
        ≡ map (order_of_rule directions.now.il.now) (all_now rules.now) }
    ensures { OnOk result (bytes.new.items
        ≡ bytes.old.items ++ flat_map (rule_line directions.now.il.now) (all_now rules.now)) }
{
    for (index, rule) in rules.iter().enumerate() {
        add_rule(alloc, directions, *rule, &orders[index], bytes)?;
    }
    Ok(())
}

/// Adds the lines of the rules of the relation of this name, which have these orders.
fn add_rules_under(
    alloc: Global,
    directions: &Directions,
    rules: &Rules,
    name: &Name,
    orders: &[Option<Row<u32>>],
    bytes: &mut Vec<u8>,
) -> Result<(), NoMemory>
    requires directions { AreDirections directions.now }
    requires few { HaveFew (rules_under rules.now.entries name.now) }
    requires orders { orders.now
        ≡ map (order_of_rule directions.now.il.now) (rules_under rules.now.entries name.now) }
    ensures { OnOk result (bytes.new.items ≡ bytes.old.items
        ++ flat_map (rule_line directions.now.il.now) (rules_under rules.now.entries name.now)) }
{
    match at(rules, name) {
        Some(found) => add_rules(alloc, directions, found.as_slice(), orders, bytes),
        None => Ok(()),
    }
}

/// Whether the mark of a relation says that it has no direction.
fn is_undirected(mark: &Option<Unfit>) -> bool
    ensures { MatchBool result (mark.now ≡ Some Unfit.U1) (mark.now ≢ Some Unfit.U1) }
{
    match mark {
        Some(Unfit::U1) => true,
        Some(Unfit::U2 { .. }) | Some(Unfit::U3(_)) | Some(Unfit::U4(_)) | None => false,
    }
}

/// Adds the lines of a relation that has this mark, and whose rules have these orders.
fn add_relation(
    alloc: Global,
    directions: &Directions,
    relation: &RelationDef,
    mark: &Option<Unfit>,
    rules: &Rules,
    orders: &[Option<Row<u32>>],
    bytes: &mut Vec<u8>,
) -> Result<(), NoMemory>
    requires directions { AreDirections directions.now }
    requires few { HasFew directions.now.il.now }
    requires mark { HasUnfit directions.now.il.now relation.now mark.now }
    requires rules { AreRules directions.now.il.now rules.now.entries }
    requires orders { orders.now ≡ orders_in directions.now.il.now relation.now }
    ensures { OnOk result (bytes.new.items
        ≡ bytes.old.items ++ relation_lines directions.now.il.now relation.now) }
{
    bytes.extend_from_slice(relation.name.as_slice())?;
    if is_undirected(mark) {
        bytes.extend_from_slice(b" U1\n")?;
        return Ok(());
    }
    bytes.extend_from_slice(b" directed\n")?;
    add_rules_under(alloc, directions, rules, &relation.name, orders, bytes)?;
    Ok(())
}

/// Adds the lines of relations that have these modes.
fn add_relations(
    alloc: Global,
    directions: &Directions,
    declared: &[&RelationDef],
    rules: &Rules,
    modes: &Modes,
    bytes: &mut Vec<u8>,
) -> Result<(), NoMemory>
    requires directions { AreDirections directions.now }
    requires few { HasFew directions.now.il.now }
    requires declared { all_now declared.now ≡ relations directions.now.il.now }
    requires rules { AreRules directions.now.il.now rules.now.entries }
    requires modes { AreModes directions.now.il.now modes.now }
    ensures { OnOk result (bytes.new.items
        ≡ bytes.old.items ++ orders_text directions.now.il.now) }
{
    let marks = modes.marks.as_slice();
    let orders = modes.orders.as_slice();
    for (number, relation) in declared.iter().enumerate() {
        let mark = &marks[number];
        let orders = orders[number].as_slice();
        add_relation(alloc, directions, *relation, mark, rules, orders, bytes)?;
    }
    Ok(())
}

/// The lines of the orders of an internal language that has these modes.
pub fn orders_printed(alloc: Global, il: &Il, modes: &Modes) -> Result<Vec<u8>, NoMemory>
    requires few { HasFew il.now }
    requires modes { AreModes il.now modes.now }
    ensures { IfOk result (λ bytes. bytes.items ≡ orders_text il.now) }
{
    let directions = directions_of(alloc, il)?;
    let declared = relations_of(alloc, il)?;
    let citations = citations_of(alloc, il)?;
    let mut bytes = Vec::new(alloc);
    add_relations(
        alloc,
        &directions,
        declared.as_slice(),
        &citations.rules,
        modes,
        &mut bytes,
    )?;
    Ok(bytes)
}
