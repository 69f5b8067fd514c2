//! Values against types, and against the conclusion of a rule.

ghost use Rattle.std.specs.Prelude.{◌≡◌, ◌↔◌, [], IsTrue, Any};
ghost use Rattle.st_verify.specs.SmallValues.{IsCaseValue, AreCaseValues};
ghost use Rattle.st_verify.specs.SmallVerdict.{IsTyped, TakesInput, IsTerm, Concludes};

use crate::known::has_case;
use st_deriv::NodeLine;
use st_il::{Il, IlDef, IlExp, Ty, Value};
use st_num::{Name, Row};

/// Whether a value is of a type.
fn is_typed(il: &Il, ty: &Ty, value: &Value) -> bool
    ensures { IsTrue result ↔ IsTyped il.now ty.now value.now }
{
    match (ty, value) {
        (Ty::Name(name), Value::Case(tag, parts)) => parts.is_empty() && has_case(il, name, tag),
        _ => false,
    }
}

/// Whether a definition is the relation of that name, and takes that value.
fn takes_input(def: &IlDef, il: &Il, name: &Name, value: &Value) -> bool
    ensures { IsTrue result ↔ TakesInput il.now name.now value.now def.now }
{
    match def {
        IlDef::Relation(relation) => {
            relation.name == *name
                && match relation.holes.get(0) {
                    Some(hole) => is_typed(il, hole, value),
                    None => false,
                }
        }
        IlDef::Syntax(_) | IlDef::Var(_, _) | IlDef::Rule(_) | IlDef::Fun(_) | IlDef::Clause(_) =>
            false,
    }
}

/// Whether the values are one for each input of the relation, of its type.
pub fn is_term(il: &Il, relation: &Option<Name>, values: &Row<Value>) -> bool
    ensures { IsTrue result ↔ IsTerm il.now relation.now values.now }
{
    match (relation, values.as_slice()) {
        (Some(name), [value]) => il
            .defs
            .as_slice()
            .iter()
            .any(|def| takes_input(def, il, name, value)),
        _ => false,
    }
}

/// Whether a value is the case of that tag without operands.
fn is_case_of(value: &Value, tag: &Name) -> bool
    ensures { IsTrue result ↔ (value.now ≡ Value.Case tag.now []) }
{
    match value {
        Value::Case(other, parts) => parts.is_empty() && *other == *tag,
        _ => false,
    }
}

/// Whether an expression has that value.
fn has_value(exp: &IlExp, value: &Value) -> bool
    ensures { IsTrue result ↔ IsCaseValue exp.now value.now }
{
    match exp {
        IlExp::Case(_, tag, operands) => operands.is_empty() && is_case_of(value, tag),
        _ => false,
    }
}

/// Whether the expressions have those values, one each.
fn have_values(exps: &[IlExp], values: &[Value]) -> bool
    ensures { IsTrue result ↔ AreCaseValues exps.now values.now }
{
    if exps.len() != values.len() {
        return false;
    }
    for (i, exp) in exps.iter().enumerate() {
        if !has_value(exp, &values[i]) {
            return false;
        }
    }
    true
}

/// Whether a definition is the rule of a node, and its conclusion has the values of the node.
fn concludes(def: &IlDef, node: &NodeLine) -> bool
    ensures { IsTrue result ↔ Concludes node.now def.now }
{
    match def {
        IlDef::Rule(rule) => {
            rule.relation == node.relation
                && rule.name == node.rule
                && have_values(rule.conclusion.as_slice(), node.values.as_slice())
        }
        IlDef::Syntax(_)
        | IlDef::Var(_, _)
        | IlDef::Relation(_)
        | IlDef::Fun(_)
        | IlDef::Clause(_) => false,
    }
}

/// Whether the conclusion of the node's rule has the values of the node.
pub fn is_concluded(il: &Il, node: &NodeLine) -> bool
    ensures { IsTrue result ↔ Any (Concludes node.now) il.now.defs }
{
    il.defs.as_slice().iter().any(|def| concludes(def, node))
}
