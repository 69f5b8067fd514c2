//! Under each name those that cite it: relations by their rules, functions by their clauses.

ghost use Rattle.std.specs.Prelude.{◌≡◌, ◌++◌, ◌∷◌, [], ◌&&◌, ◌||◌, List, ℕ, if◌then◌else◌, bytes_eq, IfOk, OnOk};
ghost use Rattle.st_il.specs.declared.definition.IlDef.{IlDef};
ghost use Rattle.st_il.specs.Names.{has_name};
ghost use Rattle.st_order.specs.inner.Index.{names_in};
ghost use Rattle.st_modes.specs.inner.Reaching.{cited_under};
ghost use Rattle.st_modes.specs.inner.CitedBy.{AreCiting, AreCalling};

use crate::citations::row_of;
use crate::citing::{push_clause_functions, push_relations};
use crate::reaching::Cited;
use indexmap::IndexMap;
use st_il::IlDef;
use st_num::{Name, NoMemory, Row};
use st_order::index::{exchange, put};
use std::alloc::Global;

/// Adds a name to those under another one.
fn push_under<'a>(
    alloc: Global,
    key: &'a Name,
    name: &'a Name,
    found: &mut Cited<'a>,
) -> Result<(), NoMemory>
    ensures { OnOk result ((q : List ℕ) → cited_under found.new.entries q
        ≡ cited_under found.old.entries q ++ (if bytes_eq q key.now then name.now ∷ [] else [])) }
{
    let was = exchange(found, key, Row::new(alloc))?;
    let mut names = row_of(alloc, was);
    names.push(name)?;
    put(found, key, names)?;
    Ok(())
}

/// Adds a name to those under each of some names.
fn push_under_all<'a>(
    alloc: Global,
    keys: &[&'a Name],
    name: &'a Name,
    found: &mut Cited<'a>,
) -> Result<(), NoMemory>
    ensures { OnOk result ((p q : List ℕ) → has_name (cited_under found.new.entries q) p
        ≡ (has_name (cited_under found.old.entries q) p
        || (has_name (names_in keys.now) q && bytes_eq p name.now))) }
{
    for key in keys {
        push_under(alloc, *key, name, found)?;
    }
    Ok(())
}

/// Adds the relation of a rule to those under each relation that the rule cites.
fn add_citing<'a>(
    alloc: Global,
    definition: &'a IlDef,
    found: &mut Cited<'a>,
) -> Result<(), NoMemory>
    ensures { OnOk result ((defs : List IlDef) → AreCiting defs found.old.entries
        → AreCiting (defs ++ definition.now ∷ []) found.new.entries) }
{
    let IlDef::Rule(rule) = definition else {
        return Ok(());
    };
    let mut cited = Row::new(alloc);
    push_relations(rule.premises.as_slice(), &mut cited)?;
    push_under_all(alloc, cited.as_slice(), &rule.relation, found)?;
    Ok(())
}

/// Adds the function of a clause to those under each function that the clause calls.
fn add_calling<'a>(
    alloc: Global,
    definition: &'a IlDef,
    found: &mut Cited<'a>,
) -> Result<(), NoMemory>
    ensures { OnOk result ((defs : List IlDef) → AreCalling defs found.old.entries
        → AreCalling (defs ++ definition.now ∷ []) found.new.entries) }
{
    let IlDef::Clause(clause) = definition else {
        return Ok(());
    };
    let mut called = Row::new(alloc);
    push_clause_functions(clause, &mut called)?;
    push_under_all(alloc, called.as_slice(), &clause.fun, found)?;
    Ok(())
}

/// Under each relation those in whose rules it stands.
pub(crate) fn citing_relations(alloc: Global, defs: &[IlDef]) -> Result<Cited, NoMemory>
    ensures { IfOk result (λ found. AreCiting defs.now found.entries) }
{
    let mut found = IndexMap::new(alloc);
    for definition in defs {
        add_citing(alloc, definition, &mut found)?;
    }
    Ok(found)
}

/// Under each function those in whose clauses it stands.
pub(crate) fn calling_functions(alloc: Global, defs: &[IlDef]) -> Result<Cited, NoMemory>
    ensures { IfOk result (λ found. AreCalling defs.now found.entries) }
{
    let mut found = IndexMap::new(alloc);
    for definition in defs {
        add_calling(alloc, definition, &mut found)?;
    }
    Ok(found)
}
