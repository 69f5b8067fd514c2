//! Rules by the names of their relations, and clauses by those of their functions.

ghost use Rattle.std.specs.Prelude.{◌≡◌, ◌++◌, ◌∷◌, [], ℕ, List, Some, bytes_eq, if◌then◌else◌, IfOk, OnOk};
ghost use Rattle.st_il.specs.Definitions.{rules_of, rules_in, rules_from, clauses_of, clauses_in, clauses_from};
ghost use Rattle.st_index.specs.Names.{all_now, at};
ghost use Rattle.st_index.specs.inner.Groups.{members};

use crate::names::{at, put};
use indexmap::IndexMap;
use st_il::{ClauseDef, Il, IlDef, RuleDef};
use st_num::{Name, NoMemory, Row};
use std::alloc::Global;

/// What stands under each name, in order.
pub(crate) type Groups<'a, T> = IndexMap<&'a Name, Row<&'a T>>;

/// Takes out what stands under a name, so that nothing is left there.
fn take<'a, T>(
    alloc: Global,
    name: &'a Name,
    groups: &mut Groups<'a, T>,
) -> Result<Row<&'a T>, NoMemory>
    ensures row { IfOk result (λ row. all_now row ≡ members groups.old.entries name.now) }
    ensures rest { OnOk result ((q : List ℕ) → at groups.new.entries q
        ≡ (if bytes_eq q name.now then Some [] else at groups.old.entries q)) }
{
    let old = groups.insert(name, Row::new(alloc))?;
    match old {
        Some(row) => Ok(row),
        None => Ok(Row::new(alloc)),
    }
}

/// Adds one more under a name, behind what stands there.
fn add_under<'a, T>(
    alloc: Global,
    name: &'a Name,
    one: &'a T,
    groups: &mut Groups<'a, T>,
) -> Result<(), NoMemory>
    ensures { OnOk result ((q : List ℕ) → members groups.new.entries q
        ≡ members groups.old.entries q
        ++ (if bytes_eq q name.now then one.now ∷ [] else [])) }
{
    let mut row = take(alloc, name, groups)?;
    row.push(one)?;
    put(groups, name, row)?;
    Ok(())
}

/// Adds a definition that is a rule under the name of its relation.
fn add_rule<'a>(
    alloc: Global,
    definition: &'a IlDef,
    groups: &mut Groups<'a, RuleDef>,
) -> Result<(), NoMemory>
    ensures { OnOk result ((q : List ℕ) → members groups.new.entries q
        ≡ members groups.old.entries q ++ rules_from q (rules_in (definition.now ∷ []))) }
{
    match definition {
        IlDef::Rule(rule) => add_under(alloc, &rule.relation, rule, groups),
        IlDef::Syntax(_)
        | IlDef::Var(_, _)
        | IlDef::Relation(_)
        | IlDef::Fun(_)
        | IlDef::Clause(_) => Ok(()),
    }
}

/// The rules of an internal language by the names of their relations.
pub(crate) fn rules_by_relation(alloc: Global, il: &Il) -> Result<Groups<RuleDef>, NoMemory>
    ensures { IfOk result (λ groups. (q : List ℕ)
        → members groups.entries q ≡ rules_of il.now q) }
{
    let defs = il.defs.as_slice();
    let mut groups = IndexMap::new(alloc);
    for definition in defs {
        add_rule(alloc, definition, &mut groups)?;
    }
    Ok(groups)
}

/// Adds a definition that is a clause under the name of its function.
fn add_clause<'a>(
    alloc: Global,
    definition: &'a IlDef,
    groups: &mut Groups<'a, ClauseDef>,
) -> Result<(), NoMemory>
    ensures { OnOk result ((q : List ℕ) → members groups.new.entries q
        ≡ members groups.old.entries q
        ++ clauses_from q (clauses_in (definition.now ∷ []))) }
{
    match definition {
        IlDef::Clause(clause) => add_under(alloc, &clause.fun, clause, groups),
        IlDef::Syntax(_) | IlDef::Var(_, _) | IlDef::Relation(_) | IlDef::Rule(_) | IlDef::Fun(_) =>
            Ok(()),
    }
}

/// The clauses of an internal language by the names of their functions.
pub(crate) fn clauses_by_function(alloc: Global, il: &Il) -> Result<Groups<ClauseDef>, NoMemory>
    ensures { IfOk result (λ groups. (q : List ℕ)
        → members groups.entries q ≡ clauses_of il.now q) }
{
    let defs = il.defs.as_slice();
    let mut groups = IndexMap::new(alloc);
    for definition in defs {
        add_clause(alloc, definition, &mut groups)?;
    }
    Ok(groups)
}

/// What stands under a name, in order; nothing where nothing was put.
pub(crate) fn members_of<'m, 'a, T>(
    groups: &'m Groups<'a, T>,
    none: &'m Row<&'a T>,
    name: &Name,
) -> &'m [&'a T]
    requires { none.now ≡ [] }
    ensures { all_now result.now ≡ members groups.now.entries name.now }
{
    let Some(row) = at(groups, name) else {
        return none.as_slice();
    };
    row.as_slice()
}
