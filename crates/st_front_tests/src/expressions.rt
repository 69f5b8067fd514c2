//! Short texts of expressions, with the columns of the faults counted by hand.

use crate::told::{Call, Repeated, expect_all, expect_repeated};
use std::test::Fail;

/// Expressions that are printed as they are written, and a comma that begins the next.
const PRINTED: [(&str, &str); 11] = [
    ("RED ~> GREEN", "RED ~> GREEN\n"),
    ("a ; b ; c -> d -> e", "a ; b ; c -> d -> e\n"),
    ("|- x : nat", "|- x : nat\n"),
    ("$($f(1, 2) + - 3 * n)", "$($f(1, 2) + - 3 * n)\n"),
    ("x[i] y[i : 2] |z|", "x[i] y[i : 2] |z|\n"),
    (
        "x^n $f(y)^(i < $(n + 1)) ((x*)+)?",
        "x^n $f(y)^(i < $(n + 1)) ((x*)+)?\n",
    ),
    ("{A 1, B x[0]} (x, y) eps", "{A 1, B x[0]} (x, y) eps\n"),
    (
        "x[.A[1 : 2].B[i] =++ y[.C = z]]",
        "x[.A[1 : 2].B[i] =++ y[.C = z]]\n",
    ),
    ("A.B `[1 .. \"t\"] true", "A.B `[1 .. \"t\"] true\n"),
    ("~ (a = b) /\\ c => d", "~ (a = b) /\\ c => d\n"),
    (
        "x, (y, z) A, |x| = $(1 + 2)",
        "x\n(y, z) A\n|x| = $(1 + 2)\n",
    ),
];

#[test]
fn expressions_are_printed_as_they_are_written(rt: HostRuntime) -> Result<(), Fail> {
    expect_all(&rt, rt.alloc(), Call::ParseExp, &PRINTED)
}

const REFUSED: [(&str, &str); 12] = [
    ("", "1:1 S1"),
    ("x,", "1:2 S1"),
    ("x y)", "1:4 S1"),
    ("x -- if y", "1:3 S1"),
    ("x rule T: y", "1:3 S1"),
    (", x", "1:1 S4"),
    ("x, , y", "1:4 S4"),
    ("|x, y|", "1:3 S4"),
    ("x[y, z]", "1:4 S1"),
    ("x, grammar", "1:4 S4"),
    ("x ...", "1:3 S4"),
    ("x ^ var", "1:5 S1"),
];

#[test]
fn what_is_refused_is_told(rt: HostRuntime) -> Result<(), Fail> {
    expect_all(&rt, rt.alloc(), Call::ParseExp, &REFUSED)
}

const COUNTED: [(Repeated, &str); 9] = [
    (("x", " -> x", 33, "", ""), "1:163 S3"),
    (("x", ", x -> x", 33, "", ""), "34"),
    (("x, ", "y ", 4_096, "", ""), "1:8194 S3"),
    (("x", ", x", 4_096, "", ""), "4097"),
    (("", "(", 101, "", ""), "1:101 S2"),
    (("x, ", "|(", 51, "", ""), "1:104 S2"),
    (("x, ", "(", 99, "y", ")"), "2"),
    (("x, ", "(", 100, "y", ")"), "1:1 S2"),
    (("x, ", "(", 100, "y", ") )"), "1:255 S1"),
];

#[test]
fn each_expression_counts_for_itself(rt: HostRuntime) -> Result<(), Fail> {
    expect_repeated(&rt, rt.alloc(), Call::CountExps, &COUNTED)
}
