//! The algorithms of the clauses of all functions.

ghost use Rattle.std.specs.Prelude.{◌≡◌, ◌++◌, ◌∷◌, [], ℕ, List, map, IfOk, OnOk};
ghost use Rattle.st_il.specs.Definitions.{funs_in, clauses_of};
ghost use Rattle.st_order.specs.Known.{AreDirections, all_now};
ghost use Rattle.st_algo.specs.Lowered.{clause_algorithm, fun_algorithms};
ghost use Rattle.st_algo.specs.inner.Groups.{members};

use crate::algorithm::Algorithm;
use crate::groups::{Groups, clauses_by_function};
use crate::lowering::clause_algorithm;
use st_il::{ClauseDef, FunDef, Il, IlDef};
use st_num::{NoMemory, Row};
use st_order::index::at;
use st_order::masks::Directions;
use std::alloc::Global;

/// Adds a function.
fn push_function<'a>(definition: &'a IlDef, functions: &mut Row<&'a FunDef>) -> Result<(), NoMemory>
    ensures { OnOk result (all_now functions.new
        ≡ all_now functions.old ++ funs_in (definition.now ∷ [])) }
{
    match definition {
        IlDef::Fun(function) => functions.push(function),
        IlDef::Syntax(_)
        | IlDef::Var(_, _)
        | IlDef::Relation(_)
        | IlDef::Rule(_)
        | IlDef::Clause(_) => Ok(()),
    }
}

/// The functions of an internal language, in order.
fn functions_of(alloc: Global, il: &Il) -> Result<Row<&FunDef>, NoMemory>
    ensures { IfOk result (λ row. all_now row ≡ funs_in il.now.defs) }
{
    let defs = il.defs.as_slice();
    let mut row = Row::new(alloc);
    for definition in defs {
        push_function(definition, &mut row)?;
    }
    Ok(row)
}

/// The algorithms of some clauses.
fn clause_algorithms(
    alloc: Global,
    directions: &Directions,
    clauses: &[&ClauseDef],
) -> Result<Row<Algorithm>, NoMemory>
    requires { AreDirections directions.now }
    ensures { IfOk result (λ row. row
        ≡ map (clause_algorithm directions.now.il.now) (all_now clauses.now)) }
{
    let mut row = Row::new(alloc);
    for clause in clauses {
        let algorithm = clause_algorithm(alloc, directions, *clause)?;
        row.push(algorithm)?;
    }
    Ok(row)
}

/// The algorithms of the clauses of a function.
fn fun_algorithms(
    alloc: Global,
    directions: &Directions,
    groups: &Groups<ClauseDef>,
    function: &FunDef,
) -> Result<Row<Algorithm>, NoMemory>
    requires directions { AreDirections directions.now }
    requires groups { (q : List ℕ)
        → members groups.now.entries q ≡ clauses_of directions.now.il.now q }
    ensures { IfOk result (λ row. row ≡ fun_algorithms directions.now.il.now function.now) }
{
    match at(groups, &function.name) {
        Some(clauses) => {
            let clauses = clauses.as_slice();
            let row = clause_algorithms(alloc, directions, clauses)?;
            Ok(row)
        }
        None => Ok(Row::new(alloc)),
    }
}

/// The algorithms of the clauses of all functions.
pub(crate) fn all_functions(
    alloc: Global,
    directions: &Directions,
) -> Result<Row<Row<Algorithm>>, NoMemory>
    requires { AreDirections directions.now }
    ensures { IfOk result (λ rows. rows
        ≡ map (fun_algorithms directions.now.il.now) (funs_in directions.now.il.now.defs)) }
{
    let groups = clauses_by_function(alloc, directions.il)?;
    let functions = functions_of(alloc, directions.il)?;
    let functions = functions.as_slice();
    let mut rows = Row::new(alloc);
    for function in functions {
        let row = fun_algorithms(alloc, directions, &groups, *function)?;
        rows.push(row)?;
    }
    Ok(rows)
}
