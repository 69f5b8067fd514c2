//! How steps are printed: each on a line of its own, behind its number.

ghost use Rattle.std.specs.Prelude.{◌≡◌, ◌++◌, OnOk, flat_map, codes};
ghost use Rattle.std.specs.Fmt.{decimal};
ghost use Rattle.std.specs.List.{enumerate_from};
ghost use Rattle.st_prose.specs.Sentences.{listed, exp_text, exps_text, mark_text, sentence};
ghost use Rattle.st_prose.specs.ProseText.{step_line, steps_text};

use crate::expression::{print_exp, print_exps, print_mark, print_names, print_word};
use itoa::Buffer;
use st_algo::AlgoStep;
use st_il::{IlExp, Iteration};
use st_index::Index;
use st_num::{Name, NoMemory, Row};
use std::alloc::Global;

/// Appends a number in decimal digits.
pub(crate) fn print_number(number: usize, out: &mut Vec<u8>) -> Result<(), NoMemory>
    ensures { OnOk result (out.new.items ≡ out.old.items ++ decimal number) }
{
    print_word(Buffer::new().format(number).as_bytes(), out)
}

/// Appends an expression with a text before and behind it.
fn print_one(
    alloc: Global,
    index: &Index,
    before: &[u8],
    exp: &IlExp,
    behind: &[u8],
    out: &mut Vec<u8>,
) -> Result<(), NoMemory>
    ensures { OnOk result (out.new.items
        ≡ out.old.items ++ (before.now ++ exp_text index.now exp.now ++ behind.now)) }
{
    print_word(before, out)?;
    print_exp(alloc, index, exp, out)?;
    print_word(behind, out)
}

/// Appends expressions with a text before and behind them.
fn print_all(
    alloc: Global,
    index: &Index,
    before: &[u8],
    exps: &Row<IlExp>,
    behind: &[u8],
    out: &mut Vec<u8>,
) -> Result<(), NoMemory>
    ensures { OnOk result (out.new.items
        ≡ out.old.items ++ (before.now ++ exps_text index.now exps.now ++ behind.now)) }
{
    print_word(before, out)?;
    print_exps(alloc, index, exps.as_slice(), out)?;
    print_word(behind, out)
}

/// Appends the front of the sentence of a loop, before that of its step.
fn print_loop(
    alloc: Global,
    index: &Index,
    how: &Iteration,
    names: &[Name],
    out: &mut Vec<u8>,
) -> Result<(), NoMemory>
    ensures { OnOk result (out.new.items ≡ out.old.items
        ++ (codes "For " ++ listed names.now ++ codes " under " ++ mark_text index.now how.now
        ++ codes ": ")) }
{
    print_word(b"For ", out)?;
    print_names(names, out)?;
    print_word(b" under ", out)?;
    print_mark(alloc, index, how, out)?;
    print_word(b": ", out)
}

/// Appends the front of the sentence of a goal, before its inputs.
fn print_goal(relation: &Name, out: &mut Vec<u8>) -> Result<(), NoMemory>
    ensures { OnOk result (out.new.items
        ≡ out.old.items ++ (codes "Find a result of " ++ relation.now)) }
{
    print_word(b"Find a result of ", out)?;
    print_word(relation.as_slice(), out)
}

/// Appends the sentence of a step.
fn print_step(
    alloc: Global,
    index: &Index,
    step: &AlgoStep,
    out: &mut Vec<u8>,
) -> Result<(), NoMemory>
    ensures { OnOk result (out.new.items ≡ out.old.items ++ sentence index.now step.now) }
{
    match step {
        AlgoStep::Match(patterns) => {
            print_all(alloc, index, b"Match the input with ", patterns, b".", out)
        }
        AlgoStep::Test(condition) => print_one(alloc, index, b"Check that ", condition, b".", out),
        AlgoStep::Let(pattern, exp) => {
            print_one(alloc, index, b"Match the value of ", exp, b" with ", out)?;
            print_one(alloc, index, b"", pattern, b".", out)
        }
        AlgoStep::Goal(relation, inputs, outputs) => {
            print_goal(relation, out)?;
            print_all(alloc, index, b" for ", inputs, b" and match it with ", out)?;
            print_all(alloc, index, b"", outputs, b".", out)
        }
        AlgoStep::Loop(how, names, inner) => {
            print_loop(alloc, index, how, names.as_slice(), out)?;
            print_step(alloc, index, inner.get(), out)
        }
        AlgoStep::Otherwise => print_word(b"Check that no earlier rule gives a result.", out),
        AlgoStep::Give(results) => { print_all(alloc, index, b"Give ", results, b".", out) }
    }
}

/// Appends the line of a step.
fn print_line(
    alloc: Global,
    index: &Index,
    number: usize,
    step: &AlgoStep,
    out: &mut Vec<u8>,
) -> Result<(), NoMemory>
    ensures { OnOk result
        (out.new.items ≡ out.old.items ++ step_line index.now (number, step.now)) }
{
    print_number(number, out)?;
    print_word(b". ", out)?;
    print_step(alloc, index, step, out)?;
    print_word(b"\n", out)
}

/// Appends the lines of steps, numbered from 1.
pub(crate) fn print_steps(
    alloc: Global,
    index: &Index,
    steps: &[AlgoStep],
    out: &mut Vec<u8>,
) -> Result<(), NoMemory>
    ensures { OnOk result (out.new.items ≡ out.old.items ++ steps_text index.now steps.now) }
{
    for i in 0..steps.len() {
        print_line(alloc, index, i + 1, &steps[i], out)?;
    }
    Ok(())
}
