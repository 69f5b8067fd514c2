//! In which order the premises of one rule are run, or what is in the way.

use crate::told::{Call, expect_all, tell_number, tell_word};
use st_il::Il;
use st_num::{Name, NoMemory};
use st_order::{OrderFault, has_rule, order_rule};
use std::alloc::Global;
use std::test::Fail;

/// Appends what is in the way: the number of a premise, and a variable if there is one.
fn tell_fault(premise: u32, variable: &Option<Name>, out: &mut Vec<u8>) -> Result<(), NoMemory> {
    tell_word(b"U2", out)?;
    tell_number(premise as usize, out)?;
    match variable {
        Some(variable) => tell_word(variable.as_slice(), out),
        None => Ok(()),
    }
}

fn tell_order(order: &[u32], out: &mut Vec<u8>) -> Result<(), NoMemory> {
    for number in order {
        tell_number(*number as usize, out)?;
    }
    Ok(())
}

/// Appends the numbers of the premises of the first rule, or what is in the way.
pub(crate) fn tell_first_rule(alloc: Global, il: &Il, out: &mut Vec<u8>) -> Result<(), NoMemory> {
    if !has_rule(alloc, il, 0, 0)? {
        return Ok(());
    }
    match order_rule(alloc, il, 0, 0) {
        Ok(order) => tell_order(order.as_slice(), out),
        Err(OrderFault::Unordered { premise, variable }) => tell_fault(premise, &variable, out),
        Err(OrderFault::Memory) => Err(NoMemory),
    }
}

const ORDERS: [(&str, &str); 3] = [
    (
        "var n : nat\nrelation R: nat ~> nat\nrule R/a: n ~> n_3\n  -- if n_2 = $(n_1 + 1)\n  \
        -- if n_3 = $(n_2 + 1)\n  -- if n_1 = $(n + 1)\n",
        " 3 1 2",
    ),
    (
        "var n : nat\nrelation R: nat ~> nat\nrule R/a: n ~> n_2\n  -- if n_2 = $(n_1 + 1)\n",
        " U2 1 n_1",
    ),
    ("relation R: nat ~> nat\n", ""),
];

#[test]
fn the_order_of_one_rule(rt: HostRuntime) -> Result<(), Fail> {
    expect_all(&rt, rt.alloc(), Call::FirstRule, &ORDERS)
}
