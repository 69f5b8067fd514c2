//! Rules, elaborated.

ghost use Rattle.std.specs.Prelude.{◌≡◌, IfOk};
ghost use Rattle.st_il.specs.declared.definition.Il.{Il};
ghost use Rattle.st_il.specs.declared.definition.RuleDef.{RuleDef};
ghost use Rattle.st_elab_table.specs.Questions.{Breach};
ghost use Rattle.st_elab_law.specs.Agreement.{Declares};
ghost use Rattle.st_elab_rows.specs.Told.{Told};
ghost use Rattle.st_elab_exp.specs.Exactly.{IsGiven, IsRefused};
ghost use Rattle.st_elab_table.specs.Judgements.{IsRelationOf};
ghost use Rattle.st_elab_exp.specs.Erasing.{RuleErases};
ghost use Rattle.st_elab_table.specs.Rules.{IsRuleScope, ElabRule, RuleBreach};

use crate::elaborate::around;
use crate::judgement::judged;
use crate::premise::elaborate_prems;
use crate::scope::{listed, scope_of};
use st_dims::mentions_of;
use st_el::{Exp, Prem};
use st_elab_table::{Decls, ExpFault, Scope};
use st_il::{RelationDef, RuleDef};
use st_num::{Name, Row};
use std::alloc::Global;

/// What the rule is, in the scope of its variables.
fn rule_in(
    alloc: Global,
    decls: &Decls,
    scope: &Scope,
    relation: &RelationDef,
    name: &Name,
    conclusion: &Exp,
    premises: &[Prem],
) -> Result<RuleDef, ExpFault>
    requires { IsRuleScope decls.now conclusion.now premises.now scope.now }
    ensures { Told (ElabRule decls.now relation.now name.now conclusion.now premises.now)
        (RuleBreach decls.now relation.now conclusion.now premises.now) result }
{
    let within = around(alloc, scope)?;
    let exps = judged(alloc, decls, scope, &within, relation, conclusion)?;
    let prems = elaborate_prems(alloc, decls, scope, &within, premises)?;
    let relation = relation.name.copy(alloc)?;
    let name = name.copy(alloc)?;
    let variables = listed(alloc, scope)?;
    Ok(RuleDef {
        relation,
        name,
        variables,
        conclusion: exps,
        premises: prems,
    })
}

/// What a rule of this relation and name is: exactly its elaboration, or else exactly the first
/// breach. It is erased to the rule. Memory is wanting also where more than 10,000 questions lie
/// inside one another.
pub fn elaborate_rule(
    alloc: Global,
    decls: &Decls,
    relation: &RelationDef,
    name: &Name,
    conclusion: &Exp,
    premises: &Row<Prem>,
) -> Result<RuleDef, ExpFault>
    ensures told { Told (ElabRule decls.now relation.now name.now conclusion.now premises.now)
        (RuleBreach decls.now relation.now conclusion.now premises.now) result }
    ensures gives { (rule : RuleDef)
        → ElabRule decls.now relation.now name.now conclusion.now premises.now rule
        → IsGiven rule result }
    ensures refuses { (b : Breach)
        → RuleBreach decls.now relation.now conclusion.now premises.now b → IsRefused b result }
    ensures erased { (il : Il) → Declares il decls.now → IsRelationOf decls.now relation.now
        → IfOk result (RuleErases il relation.now name.now conclusion.now premises.now) }
{
    let prems = premises.as_slice();
    let mentions = mentions_of(alloc, &[], conclusion, prems)?;
    let scope = scope_of(alloc, decls, mentions.as_slice())?;
    rule_in(alloc, decls, &scope, relation, name, conclusion, prems)
}
