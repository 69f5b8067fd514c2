//! To which steps rules and clauses in text are lowered.

use crate::told::{Call, expect_all, tell_number, tell_word};
use st_algo::{AlgoStep, Algorithm, Algos};
use st_il::IlExp;
use st_num::{Name, NoMemory};
use std::test::Fail;

/// Appends names.
fn tell_names(names: &[Name], out: &mut Vec<u8>) -> Result<(), NoMemory> {
    for name in names {
        tell_word(name.as_slice(), out)?;
    }
    Ok(())
}

/// Appends the variable that an expression is, or a line in place of any other expression.
fn tell_variable(exp: &IlExp, out: &mut Vec<u8>) -> Result<(), NoMemory> {
    match exp {
        IlExp::Var(name) => tell_word(name.as_slice(), out),
        _ => tell_word(b"_", out),
    }
}

/// Appends a step: its kind, and what it has.
fn tell_step(step: &AlgoStep, out: &mut Vec<u8>) -> Result<(), NoMemory> {
    match step {
        AlgoStep::Match(exps) => {
            tell_word(b"match", out)?;
            tell_number(exps.len(), out)
        }
        AlgoStep::Test(_) => tell_word(b"test", out),
        AlgoStep::Let(pattern, _) => {
            tell_word(b"let", out)?;
            tell_variable(pattern, out)
        }
        AlgoStep::Goal(relation, inputs, outputs) => {
            tell_word(b"goal", out)?;
            tell_word(relation.as_slice(), out)?;
            tell_number(inputs.len(), out)?;
            tell_number(outputs.len(), out)
        }
        AlgoStep::Loop(_, names, body) => {
            tell_word(b"for", out)?;
            tell_names(names.as_slice(), out)?;
            tell_step(body.get(), out)
        }
        AlgoStep::Otherwise => tell_word(b"otherwise", out),
        AlgoStep::Give(exps) => {
            tell_word(b"give", out)?;
            tell_number(exps.len(), out)
        }
    }
}

/// Appends an algorithm as a line: its name, and its steps.
fn tell_algorithm(algorithm: &Algorithm, out: &mut Vec<u8>) -> Result<(), NoMemory> {
    out.extend_from_slice(algorithm.name.as_slice())?;
    for step in algorithm.steps.as_slice() {
        out.push(b';')?;
        tell_step(step, out)?;
    }
    out.push(b'\n')?;
    Ok(())
}

fn tell_rule(algorithm: &Option<Algorithm>, out: &mut Vec<u8>) -> Result<(), NoMemory> {
    match algorithm {
        Some(algorithm) => tell_algorithm(algorithm, out)?,
        None => out.extend_from_slice(b"none\n")?,
    }
    Ok(())
}

fn tell_rules(row: &[Option<Algorithm>], out: &mut Vec<u8>) -> Result<(), NoMemory> {
    for algorithm in row {
        tell_rule(algorithm, out)?;
    }
    Ok(())
}

fn tell_clauses(row: &[Algorithm], out: &mut Vec<u8>) -> Result<(), NoMemory> {
    for algorithm in row {
        tell_algorithm(algorithm, out)?;
    }
    Ok(())
}

pub(crate) fn tell_algos(algos: &Algos, out: &mut Vec<u8>) -> Result<(), NoMemory> {
    for row in algos.relations.as_slice() {
        tell_rules(row.as_slice(), out)?;
    }
    for row in algos.funs.as_slice() {
        tell_clauses(row.as_slice(), out)?;
    }
    Ok(())
}

/// Each row is a text and what it is lowered to: for each rule and then for each clause a line with
/// its name and its steps. A step of expressions has their number; a `let` has the variable that is
/// its pattern; a goal has its relation and the numbers of its inputs and outputs.
const ALGORITHMS: [(&str, &str); 6] = [
    // the premises stand in the order in which they are run
    (
        "var n : nat\nrelation R: nat ~> nat\nrule R/a: n ~> n_3\n  -- if n_2 = $(n_1 + 1)\n  \
        -- if n_3 = $(n_2 + 1)\n  -- if n_1 = $(n + 1)\n",
        "a; match 1; let n_1; let n_2; let n_3; give 1\n",
    ),
    // an equation whose variables are bound is a test, and the pattern of another one comes first
    (
        "var n : nat\nrelation R: nat ~> nat\nrule R/a: n ~> n_1\n  -- if $(n + 1) = n_1\n  \
        -- if n_1 = $(n + 1)\n",
        "a; match 1; let n_1; test; give 1\n",
    ),
    // a goal inside of an iteration, and an `otherwise`
    (
        "var n : nat\nrelation R: nat ~> nat\nrelation L: nat* ~> nat*\n\
        rule R/a: n ~> 0\n  -- otherwise\nrule L/b: n* ~> n_1*\n  -- (R: n ~> n_1)*\n",
        "a; match 1; otherwise; give 1\nb; match 1; for n n_1 goal R 1 1; give 1\n",
    ),
    // a rule that has no order
    (
        "var n : nat\nrelation R: nat ~> nat\nrule R/a: n ~> n_1\n  -- if n > 3\n",
        "none\n",
    ),
    // inside of an iteration its index is bound
    (
        "var n : nat\nrelation R: nat* ~> nat\nrule R/a: n* ~> 0\n  -- (if n = i)^(i<2)\n",
        "a; match 1; for n test; give 1\n",
    ),
    // clauses, whose premises are run as they are written
    (
        "var n : nat\ndef $f(nat) : nat\ndef $f(n) = n_1\n  -- if n_1 = $(n + 1)\n  -- if n > 3\n",
        "f; match 1; let n_1; test; give 1\n",
    ),
];

#[test]
fn rules_and_clauses_are_lowered_to_their_steps(rt: HostRuntime) -> Result<(), Fail> {
    expect_all(&rt, rt.alloc(), Call::Algorithms, &ALGORITHMS)
}
