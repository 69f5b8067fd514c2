//! Which relations cite themselves, directly or through others.
//!
//! Relations with rules and functions with clauses are the nodes of a graph. One of them cites
//! itself exactly where it has an edge to a node of its own component.

ghost use Rattle.std.specs.Prelude.{◌≡◌, ◌++◌, [], length, map, replicate, slice_get, option_to_list, OnOk, IfOk};
ghost use Rattle.st_semantics.specs.ModeRules.{Relation, Function, cited_by_rule, cited_by_clause};
ghost use Rattle.st_order.specs.inner.Index.{names_in};
ghost use Rattle.st_modes.specs.inner.Circles.{cited_in, number_of, numbers_of, count_of, with_citations, all_citations, are_same, leads_back, is_circular, AreCircles};

use crate::citers::{Citers, citers_of, count_of, function_number, owner_number, relation_number};
use crate::citing::{push_clause_functions, push_relations, push_rule_functions};
use st_graph::{Components, numbering};
use st_il::{ClauseDef, Il, IlDef, RuleDef};
use st_num::{Name, NoMemory, Row};
use std::alloc::Global;

/// Adds the number of a function, if it has one.
fn push_function(citers: &Citers, name: &Name, row: &mut Row<usize>) -> Result<(), NoMemory>
    ensures { OnOk result
        (row.new ≡ row.old ++ option_to_list (number_of citers.now (Function name.now))) }
{
    if let Some(number) = function_number(citers, name) {
        row.push(number)?;
    }
    Ok(())
}

/// Adds the numbers of those functions that have one.
fn push_functions(citers: &Citers, names: &[&Name], row: &mut Row<usize>) -> Result<(), NoMemory>
    ensures { OnOk result
        (row.new ≡ row.old ++ numbers_of citers.now (map Function (names_in names.now))) }
{
    for name in names {
        push_function(citers, *name, row)?;
    }
    Ok(())
}

/// Adds the number of a relation, if it has one.
fn push_relation(citers: &Citers, name: &Name, row: &mut Row<usize>) -> Result<(), NoMemory>
    ensures { OnOk result
        (row.new ≡ row.old ++ option_to_list (number_of citers.now (Relation name.now))) }
{
    if let Some(number) = relation_number(citers, name) {
        row.push(number)?;
    }
    Ok(())
}

/// Adds the numbers of those relations that have one.
fn push_cited(citers: &Citers, names: &[&Name], row: &mut Row<usize>) -> Result<(), NoMemory>
    ensures { OnOk result
        (row.new ≡ row.old ++ numbers_of citers.now (map Relation (names_in names.now))) }
{
    for name in names {
        push_relation(citers, *name, row)?;
    }
    Ok(())
}

/// Adds the numbers of what a rule cites.
fn push_rule(
    alloc: Global,
    citers: &Citers,
    rule: &RuleDef,
    row: &mut Row<usize>,
) -> Result<(), NoMemory>
    ensures { OnOk result (row.new ≡ row.old ++ numbers_of citers.now (cited_by_rule rule.now)) }
{
    let mut functions = Row::new(alloc);
    push_rule_functions(rule, &mut functions)?;
    push_functions(citers, functions.as_slice(), row)?;
    let mut relations = Row::new(alloc);
    push_relations(rule.premises.as_slice(), &mut relations)?;
    push_cited(citers, relations.as_slice(), row)?;
    Ok(())
}

/// Adds the numbers of what a clause cites.
fn push_clause(
    alloc: Global,
    citers: &Citers,
    clause: &ClauseDef,
    row: &mut Row<usize>,
) -> Result<(), NoMemory>
    ensures { OnOk result
        (row.new ≡ row.old ++ numbers_of citers.now (cited_by_clause clause.now)) }
{
    let mut functions = Row::new(alloc);
    push_clause_functions(clause, &mut functions)?;
    push_functions(citers, functions.as_slice(), row)?;
    let mut relations = Row::new(alloc);
    push_relations(clause.premises.as_slice(), &mut relations)?;
    push_cited(citers, relations.as_slice(), row)?;
    Ok(())
}

/// Adds the numbers of what a definition cites as a rule or a clause.
fn push_citations(
    alloc: Global,
    citers: &Citers,
    definition: &IlDef,
    row: &mut Row<usize>,
) -> Result<(), NoMemory>
    ensures { OnOk result (row.new ≡ row.old ++ numbers_of citers.now (cited_in definition.now)) }
{
    match definition {
        IlDef::Rule(rule) => push_rule(alloc, citers, rule, row),
        IlDef::Clause(clause) => push_clause(alloc, citers, clause, row),
        IlDef::Syntax(_) | IlDef::Var(_, _) | IlDef::Relation(_) | IlDef::Fun(_) => Ok(()),
    }
}

/// Adds what a definition cites to the row of what it is a rule or a clause of.
fn add_citations(
    alloc: Global,
    citers: &Citers,
    definition: &IlDef,
    rows: &mut [Row<usize>],
) -> Result<(), NoMemory>
    requires { length rows.old ≡ count_of citers.now }
    ensures { OnOk result (rows.new ≡ with_citations citers.now rows.old definition.now) }
{
    let Some(number) = owner_number(citers, definition) else {
        return Ok(());
    };
    push_citations(alloc, citers, definition, &mut rows[number])
}

/// So many rows, of which each is empty.
fn empty_rows(alloc: Global, len: usize) -> Result<Vec<Row<usize>>, NoMemory>
    ensures { IfOk result (λ rows. rows.items ≡ replicate len []) }
{
    let mut rows = Vec::new(alloc);
    'rows: while rows.len() < len {
        rows.push(Row::new(alloc))?;
    }
    Ok(rows)
}

/// For each citer the numbers of those that it cites.
fn rows_of(alloc: Global, citers: &Citers, defs: &[IlDef]) -> Result<Vec<Row<usize>>, NoMemory>
    ensures { IfOk result (λ rows. rows.items
        ≡ all_citations citers.now (replicate (count_of citers.now) []) defs.now) }
{
    let mut rows = empty_rows(alloc, count_of(citers))?;
    for definition in defs {
        add_citations(alloc, citers, definition, &mut rows)?;
    }
    Ok(rows)
}

/// What cites what, and the numbers of the components of these citations.
#[derive(Drop)]
pub(crate) struct Circles<'a> {
    citers: Citers<'a>,
    rows: Vec<Row<usize>>,
    numbers: Vec<usize>,
}

/// What the rules and clauses of an internal language cite. Each citation is followed once.
pub(crate) fn circles_of(alloc: Global, il: &Il) -> Result<Circles, NoMemory>
    ensures { IfOk result (AreCircles il.now) }
{
    let defs = il.defs.as_slice();
    let citers = citers_of(alloc, defs)?;
    let rows = rows_of(alloc, &citers, defs)?;
    let components = numbering(alloc, &rows)?;
    let Components { numbers, .. } = components;
    Ok(Circles {
        citers,
        rows,
        numbers,
    })
}

/// Whether two nodes are in one component.
fn are_same(numbers: &[usize], one: usize, other: usize) -> bool
    ensures { result ≡ are_same (slice_get numbers.now one) (slice_get numbers.now other) }
{
    match (numbers.get(one), numbers.get(other)) {
        (Some(a), Some(b)) => *a == *b,
        _ => false,
    }
}

/// Whether an edge leads to a node of the component of this one.
fn leads_back(numbers: &[usize], node: usize, row: &[usize]) -> bool
    ensures { result ≡ leads_back numbers.now node row.now }
{
    for to in row {
        if are_same(numbers, *to, node) {
            return true;
        }
    }
    false
}

/// Whether a relation cites itself, directly or through others.
pub(crate) fn is_circular(circles: &Circles, name: &Name) -> bool
    ensures { result ≡ is_circular circles.now name.now }
{
    let Some(node) = relation_number(&circles.citers, name) else {
        return false;
    };
    match circles.rows.get(node) {
        Some(row) => leads_back(&circles.numbers, node, row.as_slice()),
        None => false,
    }
}
