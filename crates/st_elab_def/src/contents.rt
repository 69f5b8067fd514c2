//! The phase of rules and clauses.

ghost use Rattle.std.specs.Prelude.{◌≡◌, ◌&&◌, ◌||◌, [], ◌∷◌, ◌++◌, ℕ, List, OnOk, IsSomeAnd};
ghost use Rattle.st_num.specs.Names.{same_name};
ghost use Rattle.st_el.specs.declared.definition.Def.{Def};
ghost use Rattle.st_elab_rows.specs.Told.{Told};
ghost use Rattle.st_elab_table.specs.Clauses.{parts_of};
ghost use Rattle.st_elab_def.specs.Phases.{on_rule, on_clause, on_content};
ghost use Rattle.st_elab_def.specs.inner.Contents.{MakesRule, MakesClause, MakesContent};
ghost use Rattle.st_elab_def.specs.inner.Heads.{Finds, KnowsRules};
ghost use Rattle.st_ilcheck.specs.Index.{has_pair};
ghost use Rattle.st_elab_def.specs.inner.Walk.{standing, FirstBreachAt};

use crate::heads::{Known, function, head};
use indexmap::IndexSet;
use st_el::{Def, DefNode, Exp, Prem};
use st_elab_exp::{elaborate_clause, elaborate_rule};
use st_elab_table::Decls;
use st_il::IlDef;
use st_num::{Fault, Name, Row, Span};
use std::alloc::Global;

/// What the rule is, behind these rules, or its first breach. There is always something.
fn rule_of<'a>(
    alloc: Global,
    decls: &Decls,
    known: &Known<'_>,
    rules: &mut IndexSet<(&'a Name, &'a Name)>,
    place: Span,
    relation: &'a Name,
    name: &'a Name,
    conclusion: &Exp,
    premises: &Row<Prem>,
) -> Result<Option<IlDef>, Fault>
    ensures told { (before : List Def) → Finds decls.now known.now
        → KnowsRules before rules.old.keys
        → Told (λ made. IsSomeAnd made
        (MakesRule decls.now before place relation.now name.now conclusion.now premises.now))
        (FirstBreachAt decls.now
        (on_rule before place relation.now name.now conclusion.now premises.now)) result }
    ensures more { OnOk result ((p q : List ℕ) → has_pair rules.new.keys p q
        ≡ (has_pair rules.old.keys p q || (same_name p relation.now && same_name q name.now))) }
{
    let found = head(known, rules, place, relation, name)?;
    let rule = elaborate_rule(alloc, decls, found, name, conclusion, premises)?;
    Ok(Some(IlDef::Rule(rule)))
}

/// What the clause is, or its first breach.
fn clause_of(
    alloc: Global,
    decls: &Decls,
    known: &Known<'_>,
    place: Span,
    name: &Name,
    args: &Row<Exp>,
    value: &Exp,
    premises: &Row<Prem>,
) -> Result<Option<IlDef>, Fault>
    ensures { Finds decls.now known.now
        → Told (λ made. IsSomeAnd made
        (MakesClause decls.now place name.now (parts_of args.now value.now premises.now)))
        (FirstBreachAt decls.now
        (on_clause place name.now (parts_of args.now value.now premises.now))) result }
{
    let found = function(known, place, name)?;
    let clause = elaborate_clause(alloc, decls, found, place, args, value, premises)?;
    Ok(Some(IlDef::Clause(clause)))
}

/// What a definition is where it is a rule or a clause, behind these rules, or its first breach.
pub(crate) fn content<'a>(
    alloc: Global,
    decls: &Decls,
    known: &Known<'_>,
    rules: &mut IndexSet<(&'a Name, &'a Name)>,
    def: &'a Def,
) -> Result<Option<IlDef>, Fault>
    ensures told { (before behind : List Def) → Finds decls.now known.now
        → KnowsRules before rules.old.keys
        → Told (MakesContent decls.now (standing before def.now behind))
        (FirstBreachAt decls.now (on_content (standing before def.now behind))) result }
    ensures more { OnOk result ((before : List Def) → KnowsRules before rules.old.keys
        → KnowsRules (before ++ def.now ∷ []) rules.new.keys) }
{
    match &def.node {
        DefNode::Rule {
            relation,
            name,
            conclusion,
            premises,
        } => rule_of(
            alloc, decls, known, rules, def.at, relation, name, conclusion, premises,
        ),
        DefNode::Clause {
            name,
            args,
            result: value,
            premises,
        } => clause_of(alloc, decls, known, def.at, name, args, value, premises),
        DefNode::Syntax { .. } => Ok(None),
        DefNode::Var { .. } => Ok(None),
        DefNode::Relation { .. } => Ok(None),
        DefNode::Fun { .. } => Ok(None),
    }
}
