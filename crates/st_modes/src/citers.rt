//! What cites by rules or clauses, and its numbers.

ghost use Rattle.std.specs.Prelude.{◌≡◌, ◌<◌, true, OnOk, IfOk, IfSome};
ghost use Rattle.st_il.specs.declared.definition.IlDef.{IlDef};
ghost use Rattle.st_semantics.specs.ModeRules.{Relation, Function};
ghost use Rattle.st_modes.specs.inner.Circles.{citer_of, number_of, number_of_owner, count_of, knows, KnowsAll};

use indexmap::IndexSet;
use st_il::IlDef;
use st_num::{Name, NoMemory};
use st_order::index::{add, number_in};
use std::alloc::Global;

/// The relations that have rules, and the functions that have clauses.
#[derive(Drop)]
pub(crate) struct Citers<'a> {
    pub(crate) relations: IndexSet<&'a Name>,
    pub(crate) functions: IndexSet<&'a Name>,
}

/// Adds the relation of a rule, or the function of a clause.
fn add_citer<'a>(definition: &'a IlDef, citers: &mut Citers<'a>) -> Result<(), NoMemory>
    ensures new { OnOk result (knows citers.new definition.now ≡ true) }
    ensures old { OnOk result ((d : IlDef) → knows citers.old d ≡ true
        → knows citers.new d ≡ true) }
{
    match definition {
        IlDef::Rule(rule) => {
            add(&mut citers.relations, &rule.relation)?;
            Ok(())
        }
        IlDef::Clause(clause) => {
            add(&mut citers.functions, &clause.fun)?;
            Ok(())
        }
        IlDef::Syntax(_) | IlDef::Var(_, _) | IlDef::Relation(_) | IlDef::Fun(_) => Ok(()),
    }
}

/// The relations and functions of all rules and clauses.
pub(crate) fn citers_of(alloc: Global, defs: &[IlDef]) -> Result<Citers, NoMemory>
    ensures { IfOk result (λ citers. KnowsAll citers defs.now) }
{
    let relations = IndexSet::new(alloc);
    let functions = IndexSet::new(alloc);
    let mut citers = Citers {
        relations,
        functions,
    };
    for definition in defs {
        add_citer(definition, &mut citers)?;
    }
    Ok(citers)
}

/// How many there are.
pub(crate) fn count_of(citers: &Citers) -> usize
    ensures { result ≡ count_of citers.now }
{
    citers.relations.len() + citers.functions.len()
}

/// The number of a function, behind those of the relations.
pub(crate) fn function_number(citers: &Citers, name: &Name) -> Option<usize>
    ensures number { result ≡ number_of citers.now (Function name.now) }
    ensures within { IfSome result (λ number. number < count_of citers.now) }
{
    let before = citers.relations.len();
    let _size = citers.functions.len();
    match number_in(&citers.functions, name) {
        Some(number) => Some(before + number),
        None => None,
    }
}

/// The number of a relation.
pub(crate) fn relation_number(citers: &Citers, name: &Name) -> Option<usize>
    ensures number { result ≡ number_of citers.now (Relation name.now) }
    ensures within { IfSome result (λ number. number < count_of citers.now) }
{
    number_in(&citers.relations, name)
}

/// The number of what a definition is a rule or a clause of.
pub(crate) fn owner_number(citers: &Citers, definition: &IlDef) -> Option<usize>
    ensures number { result ≡ number_of_owner citers.now (citer_of definition.now) }
    ensures within { IfSome result (λ number. number < count_of citers.now) }
{
    match definition {
        IlDef::Rule(rule) => relation_number(citers, &rule.relation),
        IlDef::Clause(clause) => function_number(citers, &clause.fun),
        IlDef::Syntax(_) | IlDef::Var(_, _) | IlDef::Relation(_) | IlDef::Fun(_) => None,
    }
}
