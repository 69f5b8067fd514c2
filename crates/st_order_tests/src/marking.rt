//! The marks of relations in text, which say why a relation cannot be searched.

use crate::told::{Call, expect_all, tell_number, tell_word};
use st_num::{Name, NoMemory};
use st_semantics::Unfit;
use std::test::Fail;

/// Appends the parts of the mark of a rule without an order.
fn tell_unordered(
    rule: &Name,
    premise: u32,
    variable: &Option<Name>,
    out: &mut Vec<u8>,
) -> Result<(), NoMemory> {
    out.extend_from_slice(b"U2")?;
    tell_word(rule.as_slice(), out)?;
    tell_number(premise as usize, out)?;
    match variable {
        Some(variable) => tell_word(variable.as_slice(), out),
        None => Ok(()),
    }
}

fn tell_named(mark: &[u8], name: &Name, out: &mut Vec<u8>) -> Result<(), NoMemory> {
    out.extend_from_slice(mark)?;
    tell_word(name.as_slice(), out)
}

fn tell_mark(mark: &Option<Unfit>, out: &mut Vec<u8>) -> Result<(), NoMemory> {
    match mark {
        Some(Unfit::U1) => Ok(out.extend_from_slice(b"U1")?),
        Some(
            Unfit::U2 {
                rule,
                premise,
                variable,
            },
        ) => tell_unordered(rule, *premise, variable, out),
        Some(Unfit::U3(fun)) => tell_named(b"U3", fun, out),
        Some(Unfit::U4(relation)) => tell_named(b"U4", relation, out),
        None => Ok(out.push(b'-')?),
    }
}

pub(crate) fn tell_marks(marks: &[Option<Unfit>], out: &mut Vec<u8>) -> Result<(), NoMemory> {
    for mark in marks {
        tell_mark(mark, out)?;
        out.push(b'\n')?;
    }
    Ok(())
}

const MARKS: [(&str, &str); 4] = [
    // an output is bound by nothing
    (
        "var n : nat\nrelation T: nat ~> nat\nrule T/a: n ~> n\nrule T/b: n ~> n_1\n",
        "U2 T/b 0 n_1\n",
    ),
    // a function without clauses, which a clause of another one cites
    (
        "var n : nat\ndef $f(nat) : nat\ndef $g(nat) : nat\ndef $g(n) = $f(n)\n\
        relation T: nat ~> nat\nrule T/a: n ~> $g(n)\n",
        "U3 f\n",
    ),
    // a relation that has a mark is cited, directly or through another one
    (
        "var n : nat\nrelation T: nat ~> nat\nrelation Q: nat -> nat\nrelation S: nat ~> nat\n\
        rule T/a: n ~> 1\n  -- Q: n -> 1\nrule S/a: n ~> 1\n  -- T: n ~> 1\n",
        "U4 Q\nU1\nU4 Q\n",
    ),
    // relations that cite each other, without an `otherwise`
    (
        "var n : nat\nrelation P: nat ~> nat\nrelation Q: nat ~> nat\n\
        rule P/z: n ~> 1\n  -- Q: n ~> 1\nrule Q/a: n ~> 1\n  -- P: n ~> 1\n",
        "-\n-\n",
    ),
];

#[test]
fn marks_of_relations(rt: HostRuntime) -> Result<(), Fail> {
    expect_all(&rt, rt.alloc(), Call::Marks, &MARKS)
}
