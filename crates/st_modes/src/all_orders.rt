//! The orders of the rules of a relation.

ghost use Rattle.std.specs.Prelude.{◌≡◌, ◌<◌, ◌^◌, ◌++◌, ◌∷◌, [], List, All, map, length, IfOk, OnOk};
ghost use Rattle.std.specs.Borrow.{Bor};
ghost use Rattle.st_il.specs.declared.definition.RuleDef.{RuleDef};
ghost use Rattle.st_semantics.specs.declared.unfit.Unfit.TheVariants.{U2};
ghost use Rattle.st_semantics.specs.Marks.{full_name};
ghost use Rattle.st_order.specs.Known.{AreDirections, all_now};
ghost use Rattle.st_modes.specs.inner.Needs.{IsIndexed};
ghost use Rattle.st_modes.specs.inner.Orders.{AreOrders, IsOrdered, HasOrders, no_order, first_mark};

use crate::indexed::Indexed;
use st_il::{RelationDef, RuleDef};
use st_num::{NoMemory, Row};
use st_order::directions::is_directed;
use st_order::index::at;
use st_order::{Directions, full_name, order_by};
use st_semantics::{Unfit, Unordered};
use std::alloc::Global;

/// The orders of the rules of a relation, where they have one, and the mark of the relation where
/// it has no direction or a rule no order.
#[derive(Drop)]
pub(crate) struct Ordered {
    pub(crate) orders: Row<Option<Row<u32>>>,
    pub(crate) mark: Option<Unfit>,
}

/// Notes a rule that has no order, unless another one was noted before.
fn note(
    alloc: Global,
    rule: &RuleDef,
    fault: Unordered,
    mark: &mut Option<Unfit>,
) -> Result<(), NoMemory>
    ensures { OnOk result (mark.new
        ≡ first_mark mark.old (U2 (full_name rule.now) fault.premise fault.variable)) }
{
    if mark.is_some() {
        return Ok(());
    }
    let Unordered { premise, variable } = fault;
    let rule = full_name(alloc, rule)?;
    *mark = Some(Unfit::U2 {
        rule,
        premise,
        variable,
    });
    Ok(())
}

/// Adds the order of a rule, and notes it where it has none.
fn add_order(
    alloc: Global,
    directions: &Directions,
    rule: &RuleDef,
    found: &mut Ordered,
) -> Result<(), NoMemory>
    requires directions { AreDirections directions.now }
    requires few { length rule.now.premises < 2 ^ 32 }
    ensures { OnOk result ((rules : List RuleDef)
        → AreOrders directions.now.il.now rules found.old
        → AreOrders directions.now.il.now (rules ++ rule.now ∷ []) found.new) }
{
    let order = order_by(alloc, directions, rule)?;
    match order {
        Ok(numbers) => {
            found.orders.push(Some(numbers))?;
            Ok(())
        }
        Err(fault) => {
            found.orders.push(None)?;
            note(alloc, rule, fault, &mut found.mark)?;
            Ok(())
        }
    }
}

/// The orders of rules, and the first that has none.
fn orders_of_rules(
    alloc: Global,
    directions: &Directions,
    rules: &[&RuleDef],
) -> Result<Ordered, NoMemory>
    requires directions { AreDirections directions.now }
    requires few { All (λ (r : Bor RuleDef). length r.now.premises < 2 ^ 32) rules.now }
    ensures { IfOk result (AreOrders directions.now.il.now (all_now rules.now)) }
{
    let mut found = Ordered {
        orders: Row::new(alloc),
        mark: None,
    };
    for rule in rules {
        add_order(alloc, directions, *rule, &mut found)?;
    }
    Ok(found)
}

/// No order for each of these rules.
fn no_orders(alloc: Global, rules: &[&RuleDef]) -> Result<Row<Option<Row<u32>>>, NoMemory>
    ensures { IfOk result (λ orders. orders ≡ map no_order (all_now rules.now)) }
{
    let mut orders = Row::new(alloc);
    for _rule in rules {
        orders.push(None)?;
    }
    Ok(orders)
}

/// The orders of the rules of a relation that has a direction or has none.
fn orders_by(
    alloc: Global,
    directions: &Directions,
    directed: bool,
    rules: &[&RuleDef],
) -> Result<Ordered, NoMemory>
    requires directions { AreDirections directions.now }
    requires few { All (λ (r : Bor RuleDef). length r.now.premises < 2 ^ 32) rules.now }
    ensures { IfOk result (IsOrdered directions.now.il.now directed (all_now rules.now)) }
{
    if directed {
        return orders_of_rules(alloc, directions, rules);
    }
    let orders = no_orders(alloc, rules)?;
    Ok(Ordered {
        orders,
        mark: Some(Unfit::U1),
    })
}

/// The orders of the rules of a relation.
pub(crate) fn orders_of(
    alloc: Global,
    indexed: &Indexed,
    relation: &RelationDef,
) -> Result<Ordered, NoMemory>
    requires { IsIndexed indexed.now }
    ensures { IfOk result (HasOrders indexed.now.directions.il.now relation.now) }
{
    let directed = is_directed(alloc, relation)?;
    match at(&indexed.citations.rules, &relation.name) {
        Some(rules) => {
            let found = orders_by(alloc, &indexed.directions, directed, rules.as_slice())?;
            Ok(found)
        }
        None => {
            let found = orders_by(alloc, &indexed.directions, directed, &[])?;
            Ok(found)
        }
    }
}
