//! What the internal language says of names: relations, rules and cases.

ghost use Rattle.std.specs.Prelude.{◌≡◌, ◌↔◌, IsTrue, Any};
ghost use Rattle.st_il.specs.declared.definition.Alternative.{Alternative};
ghost use Rattle.st_verify.specs.SmallVerdict.{IsRelationNamed, IsRuleNamed, IsCase, BodyHasCase, HasCase};

use st_il::{Alternative, Il, IlDef, SyntaxBody};
use st_num::Name;

/// Whether a definition is the relation of that name.
fn is_relation_named(def: &IlDef, name: &Name) -> bool
    ensures { IsTrue result ↔ IsRelationNamed name.now def.now }
{
    match def {
        IlDef::Relation(relation) => relation.name == *name,
        IlDef::Syntax(_) | IlDef::Var(_, _) | IlDef::Rule(_) | IlDef::Fun(_) | IlDef::Clause(_) =>
            false,
    }
}

/// Whether a relation of that name is declared.
pub fn is_declared(il: &Il, name: &Name) -> bool
    ensures { IsTrue result ↔ Any (IsRelationNamed name.now) il.now.defs }
{
    il.defs
        .as_slice()
        .iter()
        .any(|def| is_relation_named(def, name))
}

/// Whether a definition is the rule of that name of a relation.
fn is_rule_named(def: &IlDef, relation: &Name, name: &Name) -> bool
    ensures { IsTrue result ↔ IsRuleNamed relation.now name.now def.now }
{
    match def {
        IlDef::Rule(rule) => rule.relation == *relation && rule.name == *name,
        IlDef::Syntax(_)
        | IlDef::Var(_, _)
        | IlDef::Relation(_)
        | IlDef::Fun(_)
        | IlDef::Clause(_) => false,
    }
}

/// Whether a relation has a rule of that name.
pub fn has_rule(il: &Il, relation: &Name, name: &Name) -> bool
    ensures { IsTrue result ↔ Any (IsRuleNamed relation.now name.now) il.now.defs }
{
    il.defs
        .as_slice()
        .iter()
        .any(|def| is_rule_named(def, relation, name))
}

/// Whether an alternative is the case of that tag without operands.
fn is_case(alternative: &Alternative, tag: &Name) -> bool
    ensures { IsTrue result ↔ IsCase tag.now alternative.now }
{
    match alternative {
        Alternative::Case(other, operands) => operands.is_empty() && *other == *tag,
        Alternative::Incl(_) => false,
    }
}

/// Whether a syntax's body has the case of that tag without operands.
fn body_has_case(body: &SyntaxBody, tag: &Name) -> bool
    ensures { IsTrue result ↔ BodyHasCase tag.now body.now }
{
    match body {
        SyntaxBody::Variant(alternatives) => alternatives
            .as_slice()
            .iter()
            .any(|alternative| is_case(alternative, tag)),
        SyntaxBody::Alias(_) | SyntaxBody::Fields(_) => false,
    }
}

/// Whether a definition is the syntax of that name, with that case.
fn defines_case(def: &IlDef, name: &Name, tag: &Name) -> bool
    ensures { IsTrue result ↔ HasCase name.now tag.now def.now }
{
    match def {
        IlDef::Syntax(syntax) => syntax.name == *name && body_has_case(&syntax.body, tag),
        IlDef::Var(_, _) | IlDef::Relation(_) | IlDef::Rule(_) | IlDef::Fun(_) | IlDef::Clause(_) =>
            false,
    }
}

/// Whether the syntax of that name has that case.
pub fn has_case(il: &Il, name: &Name, tag: &Name) -> bool
    ensures { IsTrue result ↔ Any (HasCase name.now tag.now) il.now.defs }
{
    il.defs
        .as_slice()
        .iter()
        .any(|def| defines_case(def, name, tag))
}
