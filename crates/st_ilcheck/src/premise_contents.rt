//! What stands in premises, and in rules and clauses as a whole.

ghost use Rattle.std.specs.Prelude.{◌≡◌, ◌↔◌, ◌++◌, [], ◌∷◌, IsTrue, IfOk};
ghost use Rattle.st_il.specs.declared.expression.IlPrem.{IlPrem, out-IlPrem};
ghost use Rattle.st_il.specs.declared.expression.IlPrem.TheOpen.{IlPrem-F};
ghost use Rattle.st_ilcheck.specs.Typed.{KeepsVariables, KeepsIndices};
ghost use Rattle.st_ilcheck.specs.Variables.{AreListed, all_occurrences, IndicesStayInside};
ghost use Rattle.st_ilcheck.specs.inner.Contents.{IsPremContents, ArePremContents, AreAllContents};

use crate::contents::{
    Contents, contents_in, contents_of, contents_of_all, join, nothing, of_iteration, within,
};
use crate::variables::{are_listed, stay_inside};
use st_il::{ClauseDef, IlDef, IlPrem, RuleDef};
use st_num::NoMemory;
use st_semantics::operands::count_of;
use std::alloc::Global;

/// What stands in a premise.
fn contents_of_premise(alloc: Global, premise: &IlPrem) -> Result<Contents, NoMemory>
    ensures { IfOk result (λ found. IsPremContents premise.now found) }
{
    match premise {
        IlPrem::If(exp) => {
            let found = contents_of(alloc, exp)?;
            Ok(found)
        }
        IlPrem::Goal(_, exps) => {
            let found = contents_of_all(alloc, exps.as_slice())?;
            Ok(found)
        }
        IlPrem::Otherwise => Ok(nothing(alloc)),
        IlPrem::Each(how, _, body) => {
            let body = body.get();
            let own = of_iteration(alloc, how)?;
            let count = count_of(alloc, how)?;
            let exps = count.as_slice();
            let counted = contents_in(alloc, exps)?;
            let found = contents_of_premise(alloc, body)?;
            let inner = within(alloc, how, found)?;
            let parts = join(counted, inner)?;
            let all = join(own, parts)?;
            Ok(all)
        }
    }
}

/// What stands in several premises.
fn contents_of_premises(alloc: Global, premises: &[IlPrem]) -> Result<Contents, NoMemory>
    ensures { IfOk result (λ found. ArePremContents premises.now found) }
{
    let mut found = nothing(alloc);
    for premise in premises {
        let more = contents_of_premise(alloc, premise)?;
        let longer = join(found, more)?;
        found = longer;
    }
    Ok(found)
}

/// What stands in a rule.
pub(crate) fn contents_of_rule(alloc: Global, rule: &RuleDef) -> Result<Contents, NoMemory>
    ensures { IfOk result (λ found.
        AreAllContents rule.now.conclusion rule.now.premises found) }
{
    let conclusion = contents_of_all(alloc, rule.conclusion.as_slice())?;
    let premises = contents_of_premises(alloc, rule.premises.as_slice())?;
    let all = join(conclusion, premises)?;
    Ok(all)
}

/// What stands in a clause.
pub(crate) fn contents_of_clause(alloc: Global, clause: &ClauseDef) -> Result<Contents, NoMemory>
    ensures { IfOk result (λ found. AreAllContents
        (clause.now.args ++ clause.now.result ∷ []) clause.now.premises found) }
{
    let arguments = contents_of_all(alloc, clause.args.as_slice())?;
    let given = contents_of(alloc, &clause.result)?;
    let premises = contents_of_premises(alloc, clause.premises.as_slice())?;
    let expressions = join(arguments, given)?;
    let all = join(expressions, premises)?;
    Ok(all)
}

/// Whether the variables of a rule are listed as they occur.
fn rule_variables_kept(alloc: Global, rule: &RuleDef) -> Result<bool, NoMemory>
    ensures { IfOk result (λ kept. IsTrue kept ↔ AreListed rule.now.variables
        (all_occurrences rule.now.conclusion rule.now.premises)) }
{
    let found = contents_of_rule(alloc, rule)?;
    let listed = rule.variables.as_slice();
    Ok(are_listed(listed, found.occurrences.as_slice()))
}

/// Whether the variables of a clause are listed as they occur.
fn clause_variables_kept(alloc: Global, clause: &ClauseDef) -> Result<bool, NoMemory>
    ensures { IfOk result (λ kept. IsTrue kept ↔ AreListed clause.now.variables
        (all_occurrences (clause.now.args ++ clause.now.result ∷ []) clause.now.premises)) }
{
    let found = contents_of_clause(alloc, clause)?;
    let listed = clause.variables.as_slice();
    Ok(are_listed(listed, found.occurrences.as_slice()))
}

/// Whether the indices of a rule occur only in the bodies that they belong to.
fn rule_indices_kept(alloc: Global, rule: &RuleDef) -> Result<bool, NoMemory>
    ensures { IfOk result (λ kept. IsTrue kept
        ↔ IndicesStayInside rule.now.conclusion rule.now.premises) }
{
    let found = contents_of_rule(alloc, rule)?;
    let indices = found.indices.as_slice();
    Ok(stay_inside(indices, found.occurrences.as_slice()))
}

/// Whether the indices of a clause occur only in the bodies that they belong to.
fn clause_indices_kept(alloc: Global, clause: &ClauseDef) -> Result<bool, NoMemory>
    ensures { IfOk result (λ kept. IsTrue kept ↔ IndicesStayInside
        (clause.now.args ++ clause.now.result ∷ []) clause.now.premises) }
{
    let found = contents_of_clause(alloc, clause)?;
    let indices = found.indices.as_slice();
    Ok(stay_inside(indices, found.occurrences.as_slice()))
}

/// Whether the variables of a definition are listed as they occur: each once, with a dimension that
/// the iterations round each occurrence begin with, and that are all of them round one occurrence.
pub fn variables_kept(alloc: Global, def: &IlDef) -> Result<bool, NoMemory>
    ensures { IfOk result (λ kept. IsTrue kept ↔ KeepsVariables def.now) }
{
    match def {
        IlDef::Rule(rule) => rule_variables_kept(alloc, rule),
        IlDef::Clause(clause) => clause_variables_kept(alloc, clause),
        IlDef::Syntax(_) | IlDef::Var(_, _) | IlDef::Relation(_) | IlDef::Fun(_) => Ok(true),
    }
}

/// Whether the indices of a definition occur only in the bodies that they belong to.
pub fn indices_kept(alloc: Global, def: &IlDef) -> Result<bool, NoMemory>
    ensures { IfOk result (λ kept. IsTrue kept ↔ KeepsIndices def.now) }
{
    match def {
        IlDef::Rule(rule) => rule_indices_kept(alloc, rule),
        IlDef::Clause(clause) => clause_indices_kept(alloc, clause),
        IlDef::Syntax(_) | IlDef::Var(_, _) | IlDef::Relation(_) | IlDef::Fun(_) => Ok(true),
    }
}
