//! The rules of relations, and the names that rules and clauses cite, under the names of relations
//! and of functions.

ghost use Rattle.std.specs.Prelude.{◌≡◌, ◌∷◌, ◌++◌, [], List, ℕ, unwrap_or, is_some, if◌then◌else◌, bytes_eq, true, IfOk, OnOk};
ghost use Rattle.st_il.specs.declared.definition.IlDef.{IlDef};
ghost use Rattle.st_il.specs.declared.definition.IlDef.TheVariants.{Rule};
ghost use Rattle.st_order.specs.Known.{at};
ghost use Rattle.st_modes.specs.inner.Citing.{functions_in_rule, functions_in_clause};
ghost use Rattle.st_modes.specs.inner.Reaching.{cited_under};
ghost use Rattle.st_modes.specs.inner.Citations.{HasRead, rules_under, relations_in_rule};

use crate::citing::{push_clause_functions, push_relations, push_rule_functions};
use crate::reaching::Cited;
use indexmap::IndexMap;
use st_il::{ClauseDef, FunDef, Il, IlDef, RuleDef};
use st_num::{Name, NoMemory, Row};
use st_order::index::{exchange, put};
use std::alloc::Global;

/// The rules of relations.
pub type Rules<'a> = IndexMap<&'a Name, Row<&'a RuleDef>>;

/// What is looked up by name in an internal language.
#[derive(Drop)]
pub struct Citations<'a> {
    /// The rules of each relation.
    pub rules: Rules<'a>,
    /// For each relation, the functions that stand in its rules.
    pub(crate) called: Cited<'a>,
    /// For each relation, the relations that stand in its rules.
    pub cited: Cited<'a>,
    /// For each function that has clauses, the functions that stand in them.
    pub(crate) calls: Cited<'a>,
    /// The functions that are declared, in order.
    pub(crate) funs: Row<&'a FunDef>,
}

/// What stood under a name, where nothing counts as an empty row.
pub(crate) fn row_of<T>(alloc: Global, found: Option<Row<T>>) -> Row<T>
    ensures { result ≡ unwrap_or found [] }
{
    match found {
        Some(row) => row,
        None => Row::new(alloc),
    }
}

/// Adds a rule to those of its relation.
fn add_rule<'a>(alloc: Global, rule: &'a RuleDef, rules: &mut Rules<'a>) -> Result<(), NoMemory>
    ensures { OnOk result ((q : List ℕ) → rules_under rules.new.entries q
        ≡ rules_under rules.old.entries q
        ++ (if bytes_eq q rule.now.relation then rule.now ∷ [] else [])) }
{
    let was = exchange(rules, &rule.relation, Row::new(alloc))?;
    let mut row = row_of(alloc, was);
    row.push(rule)?;
    put(rules, &rule.relation, row)?;
    Ok(())
}

/// Adds the functions that stand in a rule to those of its relation.
fn add_called<'a>(alloc: Global, rule: &'a RuleDef, called: &mut Cited<'a>) -> Result<(), NoMemory>
    ensures { OnOk result ((q : List ℕ) → cited_under called.new.entries q
        ≡ cited_under called.old.entries q
        ++ (if bytes_eq q rule.now.relation then functions_in_rule rule.now else [])) }
{
    let was = exchange(called, &rule.relation, Row::new(alloc))?;
    let mut names = row_of(alloc, was);
    push_rule_functions(rule, &mut names)?;
    put(called, &rule.relation, names)?;
    Ok(())
}

/// Adds the relations that stand in a rule to those of its relation.
fn add_cited<'a>(alloc: Global, rule: &'a RuleDef, cited: &mut Cited<'a>) -> Result<(), NoMemory>
    ensures { OnOk result ((q : List ℕ) → cited_under cited.new.entries q
        ≡ cited_under cited.old.entries q
        ++ (if bytes_eq q rule.now.relation then relations_in_rule rule.now else [])) }
{
    let was = exchange(cited, &rule.relation, Row::new(alloc))?;
    let mut names = row_of(alloc, was);
    push_relations(rule.premises.as_slice(), &mut names)?;
    put(cited, &rule.relation, names)?;
    Ok(())
}

/// Adds the functions that stand in a clause to those of its function.
fn add_calls<'a>(
    alloc: Global,
    clause: &'a ClauseDef,
    calls: &mut Cited<'a>,
) -> Result<(), NoMemory>
    ensures names { OnOk result ((q : List ℕ) → cited_under calls.new.entries q
        ≡ cited_under calls.old.entries q
        ++ (if bytes_eq q clause.now.fun then functions_in_clause clause.now else [])) }
    ensures there { OnOk result ((q : List ℕ) → is_some (at calls.new.entries q)
        ≡ (if bytes_eq q clause.now.fun then true else is_some (at calls.old.entries q))) }
{
    let was = exchange(calls, &clause.fun, Row::new(alloc))?;
    let mut names = row_of(alloc, was);
    push_clause_functions(clause, &mut names)?;
    put(calls, &clause.fun, names)?;
    Ok(())
}

/// Reads a rule.
fn read_rule<'a>(
    alloc: Global,
    rule: &'a RuleDef,
    citations: &mut Citations<'a>,
) -> Result<(), NoMemory>
    ensures { OnOk result ((defs : List IlDef) → HasRead defs citations.old
        → HasRead (defs ++ Rule rule.now ∷ []) citations.new) }
{
    add_rule(alloc, rule, &mut citations.rules)?;
    add_called(alloc, rule, &mut citations.called)?;
    add_cited(alloc, rule, &mut citations.cited)?;
    Ok(())
}

/// Reads a definition.
fn read<'a>(
    alloc: Global,
    definition: &'a IlDef,
    citations: &mut Citations<'a>,
) -> Result<(), NoMemory>
    ensures { OnOk result ((defs : List IlDef) → HasRead defs citations.old
        → HasRead (defs ++ definition.now ∷ []) citations.new) }
{
    match definition {
        IlDef::Rule(rule) => read_rule(alloc, rule, citations),
        IlDef::Clause(clause) => {
            add_calls(alloc, clause, &mut citations.calls)?;
            Ok(())
        }
        IlDef::Fun(fun) => {
            citations.funs.push(fun)?;
            Ok(())
        }
        IlDef::Syntax(_) | IlDef::Var(_, _) | IlDef::Relation(_) => Ok(()),
    }
}

/// What is looked up by name in an internal language.
pub fn citations_of(alloc: Global, il: &Il) -> Result<Citations, NoMemory>
    ensures { IfOk result (λ citations. HasRead il.now.defs citations) }
{
    let defs = il.defs.as_slice();
    let mut citations = Citations {
        rules: IndexMap::new(alloc),
        called: IndexMap::new(alloc),
        cited: IndexMap::new(alloc),
        calls: IndexMap::new(alloc),
        funs: Row::new(alloc),
    };
    for definition in defs {
        read(alloc, definition, &mut citations)?;
    }
    Ok(citations)
}
