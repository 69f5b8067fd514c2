//! The first token that is refused in a source, and what is left of one where it is made plain.

use crate::told::{Call, expect_all};
use std::test::Fail;

const REFUSED: [(&str, &str); 3] = [
    ("syntax color = | RED | GREEN", ""),
    ("rule T/a: RED ~>", "7"),
    ("var x : (nat,)", "6"),
];

#[test]
fn the_first_wrong_token_is_refused(rt: HostRuntime) -> Result<(), Fail> {
    expect_all(&rt, rt.alloc(), Call::FirstRefused, &REFUSED)
}

/// Fragments are one syntax, `mode` is the one hint that stays, and no place and no parentheses
/// stay.
const LIGHT: &str = "syntax color/one = | RED | ...
relation T: color ~> color hint(show in) hint(mode in)
syntax color/two = ... | GREEN
rule T/a: ((RED) ~> GREEN)
";

/// Rules whose conclusions are plain, and printed with the parentheses that they need.
const PLAIN: [(&str, &str); 13] = [
    (LIGHT, "0 syntax 2\n0 relation mode\n0 RED ~> GREEN\n"),
    ("rule T: (a \\/ b) /\\ (c)", "0 (a \\/ b) /\\ c\n"),
    ("rule T: x -> (a -> b)", "0 x -> a -> b\n"),
    ("rule T: (x -> a -> b) -> eps", "0 (x -> a -> b) -> eps\n"),
    (
        "rule T: |- (x -> a -> b) -> eps",
        "0 |- (x -> a -> b) -> eps\n",
    ),
    ("rule T: (A).B", "0 (A).B\n"),
    ("rule T: (x+)+", "0 (x+)+\n"),
    ("rule T: |a (|b|*)|", "0 |a (|b|*)|\n"),
    ("rule T: $((- n ^2) * m)", "0 $(- n ^2 * m)\n"),
    ("rule T: $f($((n + 1)))", "0 $f($(n + 1))\n"),
    (
        "rule T: $f($(n + 1))^(i < $($g))",
        "0 $f($(n + 1))^(i < $($g))\n",
    ),
    (
        "rule T: {LOCALS 1 2, NOTE \"a\\\"b\"}[.LOCALS[i] = true]",
        "0 {LOCALS 1 2, NOTE \"a\\\"b\"}[.LOCALS[i] = true]\n",
    ),
    ("rule T: `[1 .. eps]", "0 `[1 .. eps]\n"),
];

#[test]
fn definitions_are_made_plain(rt: HostRuntime) -> Result<(), Fail> {
    expect_all(&rt, rt.alloc(), Call::Plain, &PLAIN)
}
