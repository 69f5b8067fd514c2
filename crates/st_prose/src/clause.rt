//! How the clauses of functions are printed.

ghost use Rattle.std.specs.Prelude.{◌≡◌, ◌++◌, OnOk, flat_map};
ghost use Rattle.std.specs.List.{enumerate_from};
ghost use Rattle.st_prose.specs.ProseText.{clause_heading, clause_text, function_text};

use crate::expression::print_word;
use crate::step::{print_number, print_steps};
use st_algo::{Algorithm, Algos};
use st_index::Index;
use st_num::{Name, NoMemory};
use std::alloc::Global;

/// Appends the heading of a clause.
fn print_heading(number: usize, function: &Name, out: &mut Vec<u8>) -> Result<(), NoMemory>
    ensures { OnOk result (out.new.items
        ≡ out.old.items ++ clause_heading number function.now) }
{
    print_word(b"Clause ", out)?;
    print_number(number, out)?;
    print_word(b" of $", out)?;
    print_word(function.as_slice(), out)?;
    print_word(b":\n", out)
}

/// Appends a clause, by its number.
fn print_clause(
    alloc: Global,
    index: &Index,
    number: usize,
    clause: &Algorithm,
    out: &mut Vec<u8>,
) -> Result<(), NoMemory>
    ensures { OnOk result (out.new.items
        ≡ out.old.items ++ clause_text index.now (number, clause.now)) }
{
    print_heading(number, &clause.name, out)?;
    print_steps(alloc, index, clause.steps.as_slice(), out)
}

/// Appends the clauses of a function, numbered from 1.
fn print_function(
    alloc: Global,
    index: &Index,
    clauses: &[Algorithm],
    out: &mut Vec<u8>,
) -> Result<(), NoMemory>
    ensures { OnOk result (out.new.items ≡ out.old.items ++ function_text index.now clauses.now) }
{
    for i in 0..clauses.len() {
        print_clause(alloc, index, i + 1, &clauses[i], out)?;
    }
    Ok(())
}

/// Appends the clauses of all functions.
pub(crate) fn print_functions(
    alloc: Global,
    index: &Index,
    algos: &Algos,
    out: &mut Vec<u8>,
) -> Result<(), NoMemory>
    ensures { OnOk result (out.new.items
        ≡ out.old.items ++ flat_map (function_text index.now) algos.now.funs) }
{
    for clauses in algos.funs.as_slice() {
        print_function(alloc, index, clauses.as_slice(), out)?;
    }
    Ok(())
}
