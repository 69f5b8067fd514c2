//! The internal language of a small specification.

ghost use Rattle.std.specs.Prelude.{◌≡◌, IfOk};
ghost use Rattle.st_il.specs.Small.{atom_exp, rule_def, syntax_def, relation_def, il_of};

use crate::{
    Alternative, Il, IlDef, IlExp, RelationDef, RuleDef, Small, SmallRule, SyntaxBody, SyntaxDef,
    Ty,
};
use st_num::{Name, NoMemory, Row};
use std::alloc::Global;

/// An atom as an expression: a case without operands.
fn build_atom(alloc: Global, syntax: &Name, atom: &Name) -> Result<IlExp, NoMemory>
    ensures { IfOk result (λ exp. exp ≡ atom_exp syntax.now atom.now) }
{
    let syntax = syntax.copy(alloc)?;
    let atom = atom.copy(alloc)?;
    Ok(IlExp::Case(syntax, atom, Row::new(alloc)))
}

/// A rule from an atom to an atom, without variables and premises.
fn build_rule(
    alloc: Global,
    relation: &Name,
    syntax: &Name,
    rule: &SmallRule,
) -> Result<IlDef, NoMemory>
    ensures { IfOk result (λ def. def ≡ rule_def relation.now syntax.now rule.now) }
{
    let mut conclusion = Row::new(alloc);
    conclusion.push(build_atom(alloc, syntax, &rule.from)?)?;
    conclusion.push(build_atom(alloc, syntax, &rule.to)?)?;
    Ok(IlDef::Rule(RuleDef {
        relation: relation.copy(alloc)?,
        name: rule.name.copy(alloc)?,
        variables: Row::new(alloc),
        conclusion,
        premises: Row::new(alloc),
    }))
}

/// The syntax, with a case without operands for each atom.
fn build_syntax(alloc: Global, syntax: &Name, atoms: &[Name]) -> Result<IlDef, NoMemory>
    ensures { IfOk result (λ def. def ≡ syntax_def syntax.now atoms.now) }
{
    let mut alternatives = Row::new(alloc);
    for atom in atoms {
        alternatives.push(Alternative::Case(atom.copy(alloc)?, Row::new(alloc)))?;
    }
    Ok(IlDef::Syntax(SyntaxDef {
        name: syntax.copy(alloc)?,
        body: SyntaxBody::Variant(alternatives),
    }))
}

/// The relation between two values of the syntax, which is written with `~>`.
fn build_relation(alloc: Global, relation: &Name, syntax: &Name) -> Result<IlDef, NoMemory>
    ensures { IfOk result (λ def. def ≡ relation_def relation.now syntax.now) }
{
    let mut holes = Row::new(alloc);
    holes.push(Ty::Name(syntax.copy(alloc)?))?;
    holes.push(Ty::Name(syntax.copy(alloc)?))?;
    Ok(IlDef::Relation(RelationDef {
        name: relation.copy(alloc)?,
        tag: Name::from_slice(alloc, b"% ~> %")?,
        holes,
        mode: Row::new(alloc),
    }))
}

/// The internal language of a small specification.
pub fn il_of_small(alloc: Global, small: &Small) -> Result<Il, NoMemory>
    ensures { IfOk result (λ il. il ≡ il_of small.now) }
{
    let mut defs = Row::new(alloc);
    defs.push(build_syntax(alloc, &small.syntax, small.atoms.as_slice())?)?;
    defs.push(build_relation(alloc, &small.relation, &small.syntax)?)?;
    for rule in small.rules.as_slice() {
        defs.push(build_rule(alloc, &small.relation, &small.syntax, rule)?)?;
    }
    Ok(Il { defs })
}
