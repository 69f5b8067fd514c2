//! The parts of an internal language, where they are those of a small specification's.

ghost use Rattle.std.specs.Prelude.{◌≡◌, ◌≢◌, ◌↔◌, ℕ, List, [], ◌∷◌, map, IsTrue, IfOk, MatchOption};
ghost use Rattle.st_il.specs.declared.definition.Alternative.{Alternative as Alternatives};
ghost use Rattle.st_il.specs.declared.small.SmallRule.{SmallRule as Rule};
ghost use Rattle.st_il.specs.Small.{atom_exp, relation_def, rule_def};
ghost use Rattle.st_small.specs.inner.Parts.{atom_alternative, variant_def, hole_types, IsBetween, IsPlain, rule_of};

use st_il::{Alternative, IlDef, IlExp, RelationDef, RuleDef, SmallRule, SyntaxBody, Ty};
use st_num::{Name, NoMemory, Row};
use std::alloc::Global;

/// The name of a syntax that is a variant, and its alternatives.
pub fn variant_of(def: &IlDef) -> Option<(&Name, &[Alternative])>
    ensures { MatchOption result
        ((x : List ℕ) (alternatives : List Alternatives) → def.now ≢ variant_def x alternatives)
        (λ read. def.now ≡ variant_def read.0.now read.1.now) }
{
    let IlDef::Syntax(syntax) = def else {
        return None;
    };
    match &syntax.body {
        SyntaxBody::Variant(alternatives) => Some((&syntax.name, alternatives.as_slice())),
        SyntaxBody::Alias(_) | SyntaxBody::Fields(_) => None,
    }
}

/// The atom that an alternative is.
fn alternative_atom(alternative: &Alternative) -> Option<&Name>
    ensures { MatchOption result ((atom : List ℕ) → alternative.now ≢ atom_alternative atom)
        (λ atom. alternative.now ≡ atom_alternative atom.now) }
{
    match alternative {
        Alternative::Case(tag, operands) if operands.is_empty() => Some(tag),
        Alternative::Case(_, _) | Alternative::Incl(_) => None,
    }
}

/// The atoms that alternatives are.
pub fn atoms_of(alloc: Global, alternatives: &[Alternative]) -> Result<Option<Row<Name>>, NoMemory>
    ensures { IfOk result (λ read. MatchOption read
        ((atoms : List (List ℕ)) → alternatives.now ≢ map atom_alternative atoms)
        (λ atoms. alternatives.now ≡ map atom_alternative atoms)) }
{
    let mut atoms = Row::new(alloc);
    for alternative in alternatives {
        let Some(atom) = alternative_atom(alternative) else {
            return Ok(None);
        };
        atoms.push(atom.copy(alloc)?)?;
    }
    Ok(Some(atoms))
}

/// Whether the type is this syntax.
fn is_type_of(ty: &Ty, syntax: &Name) -> bool
    ensures { IsTrue result ↔ (ty.now ≡ Ty.Name syntax.now) }
{
    match ty {
        Ty::Name(name) => *name == *syntax,
        Ty::Bool | Ty::Nat | Ty::Int | Ty::Text | Ty::List(_) | Ty::Opt(_) | Ty::Tuple(_) => false,
    }
}

/// Whether the types are two, and each is this syntax.
fn are_types_of(types: &[Ty], syntax: &Name) -> bool
    ensures { IsTrue result ↔ (types.now ≡ hole_types syntax.now) }
{
    match types {
        [from, to] => is_type_of(from, syntax) && is_type_of(to, syntax),
        _ => false,
    }
}

/// Whether a relation is one between two values of this syntax.
fn is_between(relation: &RelationDef, syntax: &Name) -> bool
    ensures { IsTrue result ↔ IsBetween syntax.now relation.now }
{
    relation.tag.as_slice() == b"% ~> %".as_slice()
        && are_types_of(relation.holes.as_slice(), syntax)
        && relation.mode.is_empty()
}

/// The name of a relation between two values of this syntax.
pub fn relation_of<'a>(def: &'a IlDef, syntax: &Name) -> Option<&'a Name>
    ensures { MatchOption result ((r : List ℕ) → def.now ≢ relation_def r syntax.now)
        (λ r. def.now ≡ relation_def r.now syntax.now) }
{
    match def {
        IlDef::Relation(relation) if is_between(relation, syntax) => Some(&relation.name),
        IlDef::Relation(_)
        | IlDef::Syntax(_)
        | IlDef::Var(_, _)
        | IlDef::Rule(_)
        | IlDef::Fun(_)
        | IlDef::Clause(_) => None,
    }
}

/// The atom of this syntax that an expression is.
fn atom_of<'a>(exp: &'a IlExp, syntax: &Name) -> Option<&'a Name>
    ensures { MatchOption result ((atom : List ℕ) → exp.now ≢ atom_exp syntax.now atom)
        (λ atom. exp.now ≡ atom_exp syntax.now atom.now) }
{
    match exp {
        IlExp::Case(ty, tag, operands) if *ty == *syntax && operands.is_empty() => Some(tag),
        _ => None,
    }
}

/// The two atoms of this syntax that expressions are.
fn two_atoms<'a>(exps: &'a [IlExp], syntax: &Name) -> Option<(&'a Name, &'a Name)>
    ensures { MatchOption result
        ((from to : List ℕ) → exps.now ≢ atom_exp syntax.now from ∷ atom_exp syntax.now to ∷ [])
        (λ pair. exps.now ≡ atom_exp syntax.now pair.0.now ∷ atom_exp syntax.now pair.1.now ∷ []) }
{
    let [from, to] = exps else {
        return None;
    };
    let from = atom_of(from, syntax)?;
    let to = atom_of(to, syntax)?;
    Some((from, to))
}

/// Whether a rule is one of this relation, without variables and premises.
fn is_plain(rule: &RuleDef, relation: &Name) -> bool
    ensures { IsTrue result ↔ IsPlain relation.now rule.now }
{
    rule.relation == *relation && rule.variables.is_empty() && rule.premises.is_empty()
}

/// The name of a rule of this relation over this syntax, and the atoms from which and to which it
/// goes.
fn rule_parts<'a>(
    def: &'a IlDef,
    relation: &Name,
    syntax: &Name,
) -> Option<(&'a Name, &'a Name, &'a Name)>
    ensures { MatchOption result
        ((rule : Rule) → def.now ≢ rule_def relation.now syntax.now rule)
        (λ r. def.now ≡ rule_def relation.now syntax.now (rule_of r.0.now r.1.now r.2.now)) }
{
    let IlDef::Rule(rule) = def else {
        return None;
    };
    if !is_plain(rule, relation) {
        return None;
    }
    let (from, to) = two_atoms(rule.conclusion.as_slice(), syntax)?;
    Some((&rule.name, from, to))
}

/// The rules of this relation over this syntax that definitions are.
pub fn rules_of(
    alloc: Global,
    defs: &[IlDef],
    relation: &Name,
    syntax: &Name,
) -> Result<Option<Row<SmallRule>>, NoMemory>
    ensures { IfOk result (λ read. MatchOption read
        ((rules : List Rule) → defs.now ≢ map (rule_def relation.now syntax.now) rules)
        (λ rules. defs.now ≡ map (rule_def relation.now syntax.now) rules)) }
{
    let mut rules = Row::new(alloc);
    for def in defs {
        let Some((name, from, to)) = rule_parts(def, relation, syntax) else {
            return Ok(None);
        };
        rules.push(SmallRule {
            name: name.copy(alloc)?,
            from: from.copy(alloc)?,
            to: to.copy(alloc)?,
        })?;
    }
    Ok(Some(rules))
}
