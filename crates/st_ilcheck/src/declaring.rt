//! The names that definitions declare.

ghost use Rattle.std.specs.Prelude.{◌≡◌, ◌↔◌, false, IsTrue, IfOk};
ghost use Rattle.st_il.specs.Names.{has_name};
ghost use Rattle.st_ilcheck.specs.Declarations.{IsMode};
ghost use Rattle.st_ilcheck.specs.inner.Declared.{nothing_declared, declaring, AreDeclared, IsNew};

use crate::names::{Names, Pairs};
use st_il::{IlDef, RelationDef};
use st_num::NoMemory;
use std::alloc::Global;

/// The names that definitions declare, in order. A rule stands with its relation.
#[derive(Drop)]
pub(crate) struct Declared<'a> {
    pub(crate) syntaxes: Names<'a>,
    pub(crate) variables: Names<'a>,
    pub(crate) relations: Names<'a>,
    pub(crate) rules: Pairs<'a>,
    pub(crate) functions: Names<'a>,
}

/// Nothing is declared.
pub(crate) fn nothing_declared<'a>(alloc: Global) -> Declared<'a>
    ensures { result ≡ nothing_declared }
{
    Declared {
        syntaxes: Names::new(alloc),
        variables: Names::new(alloc),
        relations: Names::new(alloc),
        rules: Pairs::new(alloc),
        functions: Names::new(alloc),
    }
}

/// What is declared with one more definition behind the others.
pub(crate) fn declaring<'a>(
    declared: Declared<'a>,
    def: &'a IlDef,
) -> Result<Declared<'a>, NoMemory>
    ensures { IfOk result (λ longer. longer ≡ declaring def.now declared.entry) }
{
    let mut longer = declared;
    match def {
        IlDef::Syntax(syntax) => longer.syntaxes.push(&syntax.name)?,
        IlDef::Var(name, _) => longer.variables.push(name)?,
        IlDef::Relation(relation) => longer.relations.push(&relation.name)?,
        IlDef::Rule(rule) => longer.rules.push(&rule.relation, &rule.name)?,
        IlDef::Fun(fun) => longer.functions.push(&fun.name)?,
        IlDef::Clause(_) => {}
    }
    Ok(longer)
}

/// What these definitions declare.
pub(crate) fn declared_by<'a>(alloc: Global, defs: &'a [IlDef]) -> Result<Declared<'a>, NoMemory>
    ensures { IfOk result (λ declared. AreDeclared defs.now declared) }
{
    let mut declared = nothing_declared(alloc);
    for def in defs {
        let longer = declaring(declared, def)?;
        declared = longer;
    }
    Ok(declared)
}

/// Whether the numbers are one.
pub(crate) fn is_length(length: usize, other: usize) -> bool
    ensures { IsTrue result ↔ (length ≡ other) }
{
    length == other
}

/// Whether a mode has a word for each hole, if it has words.
fn is_mode(relation: &RelationDef) -> bool
    ensures { IsTrue result ↔ IsMode relation.now }
{
    if relation.mode.is_empty() {
        return true;
    }
    is_length(relation.mode.len(), relation.holes.len())
}

/// Whether a relation is not declared before, and its mode has a word for each hole.
fn is_new_relation(before: &Declared, relation: &RelationDef) -> bool
    ensures { IsTrue result
        ↔ ((has_name before.now.relations relation.now.name ≡ false) × IsMode relation.now) }
{
    if before.relations.has(&relation.name) {
        return false;
    }
    is_mode(relation)
}

/// Whether what a definition declares is not declared before, and the mode of a relation is one.
/// What is asked of a syntax is asked elsewhere.
pub(crate) fn is_new(before: &Declared, def: &IlDef) -> bool
    ensures { IsTrue result ↔ IsNew before.now def.now }
{
    match def {
        IlDef::Syntax(_) | IlDef::Clause(_) => true,
        IlDef::Var(name, _) => !before.variables.has(name),
        IlDef::Relation(relation) => is_new_relation(before, relation),
        IlDef::Rule(rule) => !before.rules.has(&rule.relation, &rule.name),
        IlDef::Fun(fun) => !before.functions.has(&fun.name),
    }
}
