//! Which of the rules M1, M2 and M5 a rule breaks.

ghost use Rattle.std.specs.Prelude.{◌≡◌, not};
ghost use Rattle.std.specs.List.{list_all};
ghost use Rattle.st_il.specs.declared.expression.IlPrem.{IlPrem};
ghost use Rattle.st_semantics.specs.Variables.{cites, has_otherwise, have_otherwise};
ghost use Rattle.st_order.specs.inner.Index.{names_in};
ghost use Rattle.st_modes.specs.inner.Breaches.{breaks_m1, breaks_m2, breaks_m5, rule_breach};

use crate::circles::is_circular;
use crate::relations::{Relations, has_direction};
use indexmap::IndexSet;
use st_il::{IlPrem, RuleDef};
use st_num::{Name, RuleId};
use st_order::index::has;

/// Whether a premise cites a relation.
fn cites(prem: &IlPrem) -> bool
    ensures { result ≡ cites prem.now }
{
    match prem {
        IlPrem::If(_) | IlPrem::Otherwise => false,
        IlPrem::Goal(_, _) => true,
        IlPrem::Each(_, _, body) => cites(body.get()),
    }
}

/// Whether no premise cites a relation.
pub(crate) fn cite_nothing(prems: &[IlPrem]) -> bool
    ensures { result ≡ list_all (λ (p : IlPrem). not (cites p)) prems.now }
{
    for prem in prems {
        if cites(prem) {
            return false;
        }
    }
    true
}

/// Whether a premise is an `otherwise`, iterated or not.
fn has_otherwise(prem: &IlPrem) -> bool
    ensures { result ≡ has_otherwise prem.now }
{
    match prem {
        IlPrem::If(_) | IlPrem::Goal(_, _) => false,
        IlPrem::Otherwise => true,
        IlPrem::Each(_, _, body) => has_otherwise(body.get()),
    }
}

/// Whether a premise is one.
pub fn have_otherwise(prems: &[IlPrem]) -> bool
    ensures { result ≡ have_otherwise prems.now }
{
    for prem in prems {
        if has_otherwise(prem) {
            return true;
        }
    }
    false
}

/// Whether a rule with an `otherwise` is one of a relation that is not directed.
fn breaks_m1(relations: &Relations, rule: &RuleDef) -> bool
    ensures { result ≡ breaks_m1 relations.now rule.now }
{
    have_otherwise(rule.premises.as_slice()) && !has_direction(relations, &rule.relation)
}

/// Whether a rule with an `otherwise` is one of a relation that cites itself.
fn breaks_m2(relations: &Relations, rule: &RuleDef) -> bool
    ensures { result ≡ breaks_m2 relations.now rule.now }
{
    have_otherwise(rule.premises.as_slice()) && is_circular(&relations.circles, &rule.relation)
}

/// Whether a rule cites a relation, and is one of those that have a rule with an `otherwise`
/// behind it.
fn breaks_m5(decided: &IndexSet<&Name>, rule: &RuleDef) -> bool
    ensures { result ≡ breaks_m5 (names_in decided.now.keys) rule.now }
{
    !cite_nothing(rule.premises.as_slice()) && has(decided, &rule.relation)
}

/// The least of M1, M2 and M5 that a rule breaks.
pub(crate) fn rule_breach(
    relations: &Relations,
    decided: &IndexSet<&Name>,
    rule: &RuleDef,
) -> Option<RuleId>
    ensures { result ≡ rule_breach relations.now (names_in decided.now.keys) rule.now }
{
    if breaks_m1(relations, rule) {
        return Some(RuleId::M1);
    }
    if breaks_m2(relations, rule) {
        return Some(RuleId::M2);
    }
    if breaks_m5(decided, rule) {
        return Some(RuleId::M5);
    }
    None
}
