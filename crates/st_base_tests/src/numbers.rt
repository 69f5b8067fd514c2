//! Numbers at the ends of their range, and their texts.

use st_num::{
    NoMemory, Num, NumFault, add, compare, div_exact, mul, pow, print_number, read_number, rem, sub,
};
use std::cmp::Ordering;
use std::test::Fail;

const LARGEST: &str = "340282366920938463463374607431768211455";

const SMALLEST: &str = "-340282366920938463463374607431768211455";

/// An operation between its operands, and the text of its result.
const OPERATIONS: [(&str, &str, &str, &str); 19] = [
    (LARGEST, "+", "1", "none"),
    ("3", "+", "-5", "-2"),
    ("0", "+", "0", "0"),
    ("0", "-", LARGEST, SMALLEST),
    ("0", "-", SMALLEST, LARGEST),
    ("-1", "-", LARGEST, "none"),
    ("-3", "*", "4", "-12"),
    ("18446744073709551616", "*", "18446744073709551616", "none"),
    ("7", "/", "2", "none"),
    ("-6", "/", "3", "-2"),
    ("6", "/", "0", "none"),
    ("-7", "rem", "2", "-1"),
    ("7", "rem", "-2", "1"),
    ("7", "rem", "0", "none"),
    ("0", "^", "0", "1"),
    ("2", "^", "127", "170141183460469231731687303715884105728"),
    ("2", "^", "128", "none"),
    ("-1", "^", LARGEST, "-1"),
    ("2", "^", "-1", "none"),
];

/// The number of a text, which has a `-` in front where it is negative.
fn number(text: &str) -> Option<Num> {
    match text.strip_prefix('-') {
        Some(digits) => Num::new(true, read_number(digits.as_bytes()).ok()?),
        None => Num::new(false, read_number(text.as_bytes()).ok()?),
    }
}

fn operated(left: Num, operation: &str, right: Num) -> Option<Num> {
    match operation {
        "+" => add(left, right),
        "-" => sub(left, right),
        "*" => mul(left, right),
        "/" => div_exact(left, right),
        "rem" => rem(left, right),
        _ => pow(left, right),
    }
}

/// Appends the result, where the operands are numbers.
fn tell(row: &(&str, &str, &str, &str), out: &mut Vec<u8>) -> Result<(), NoMemory> {
    let (Some(left), Some(right)) = (number(row.0), number(row.2)) else {
        return Ok(());
    };
    match operated(left, row.1, right) {
        Some(result) => print_number(result, out),
        None => Ok(out.extend_from_slice(b"none".as_slice())?),
    }
}

#[test]
fn operations_have_their_exact_result_or_none(rt: HostRuntime) -> Result<(), Fail> {
    for row in &OPERATIONS {
        let mut out = Vec::new(rt.alloc());
        tell(row, &mut out)?;
        assert!(rt; out.as_slice() == row.3.as_bytes(), "{row:?}");
    }
    Ok(())
}

const ORDER: [(&str, &str, Ordering); 4] = [
    ("-2", "-1", Ordering::Less),
    ("-1", "0", Ordering::Less),
    ("2", "1", Ordering::Greater),
    ("1", "1", Ordering::Equal),
];

#[test]
fn numbers_are_in_order_by_size(rt: HostRuntime) {
    for (left, right, wanted) in &ORDER {
        let order = match (number(left), number(right)) {
            (Some(left), Some(right)) => Some(compare(left, right)),
            _ => None,
        };
        assert!(rt; order == Some(*wanted), "{left} and {right}");
    }
}

const SPELLINGS: [(&str, Result<u128, NumFault>); 14] = [
    ("0", Ok(0)),
    ("007", Ok(7)),
    (LARGEST, Ok(u128::MAX)),
    (
        "340282366920938463463374607431768211456",
        Err(NumFault::Large),
    ),
    ("0xaF", Ok(175)),
    ("0xffffffffffffffffffffffffffffffff", Ok(u128::MAX)),
    ("0x100000000000000000000000000000000", Err(NumFault::Large)),
    ("0x", Err(NumFault::Malformed)),
    ("", Err(NumFault::Malformed)),
    ("12a", Err(NumFault::Malformed)),
    ("0X1", Err(NumFault::Malformed)),
    ("-1", Err(NumFault::Malformed)),
    ("+1", Err(NumFault::Malformed)),
    (
        "999999999999999999999999999999999999999a",
        Err(NumFault::Malformed),
    ),
];

#[test]
fn numbers_are_read_from_their_spellings(rt: HostRuntime) {
    for (text, wanted) in &SPELLINGS {
        assert!(rt; read_number(text.as_bytes()) == *wanted, "{text}");
    }
}
