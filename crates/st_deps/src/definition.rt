//! What definitions declare, what they belong to, and the names that stand in them.

ghost use Rattle.std.specs.Prelude.{◌≡◌, ◌++◌, map, IfOk, OnOk};
ghost use Rattle.st_deps.specs.Cited.{in_all, exp_names, prem_names};
ghost use Rattle.st_deps.specs.Definitions.{alternative_names, field_names, body_names, variable_names, types_names, names_in, declared_by, owner};

use crate::cited::{add_exp, add_exps, add_name, add_prem, add_type, add_types, fun_name};
use st_il::{Alternative, IlDef, IlPrem, Listed, SyntaxBody, Ty};
use st_num::{Name, NoMemory, Row};
use std::alloc::Global;

/// Adds the names in an alternative of a variant.
fn add_alternative(
    alloc: Global,
    alternative: &Alternative,
    names: &mut Row<Name>,
) -> Result<(), NoMemory>
    ensures { OnOk result (names.new ≡ names.old ++ alternative_names alternative.now) }
{
    match alternative {
        Alternative::Case(_, operands) => add_types(alloc, operands.as_slice(), names),
        Alternative::Incl(name) => add_name(alloc, name, names),
    }
}

/// Adds the names in the alternatives of a variant.
fn add_alternatives(
    alloc: Global,
    alternatives: &[Alternative],
    names: &mut Row<Name>,
) -> Result<(), NoMemory>
    ensures { OnOk result
        (names.new ≡ names.old ++ in_all (map alternative_names alternatives.now)) }
{
    for alternative in alternatives {
        add_alternative(alloc, alternative, names)?;
    }
    Ok(())
}

/// Adds the names in the types of fields.
fn add_fields(alloc: Global, fields: &[(Name, Ty)], names: &mut Row<Name>) -> Result<(), NoMemory>
    ensures { OnOk result (names.new ≡ names.old ++ in_all (map field_names fields.now)) }
{
    for field in fields {
        add_type(alloc, &field.1, names)?;
    }
    Ok(())
}

/// Adds the names in the body of a syntax.
fn add_body(alloc: Global, body: &SyntaxBody, names: &mut Row<Name>) -> Result<(), NoMemory>
    ensures { OnOk result (names.new ≡ names.old ++ body_names body.now) }
{
    match body {
        SyntaxBody::Alias(ty) => add_type(alloc, ty, names),
        SyntaxBody::Variant(parts) => add_alternatives(alloc, parts.as_slice(), names),
        SyntaxBody::Fields(fields) => add_fields(alloc, fields.as_slice(), names),
    }
}

/// Adds the names in the types of variables.
fn add_variables(alloc: Global, variables: &[Listed], names: &mut Row<Name>) -> Result<(), NoMemory>
    ensures { OnOk result (names.new ≡ names.old ++ in_all (map variable_names variables.now)) }
{
    for variable in variables {
        add_type(alloc, &variable.ty, names)?;
    }
    Ok(())
}

/// Adds the names in several premises.
fn add_prems(alloc: Global, prems: &[IlPrem], names: &mut Row<Name>) -> Result<(), NoMemory>
    ensures { OnOk result (names.new ≡ names.old ++ in_all (map prem_names prems.now)) }
{
    for prem in prems {
        add_prem(alloc, prem, names)?;
    }
    Ok(())
}

/// Adds the names that stand in a definition.
fn add_names_in(alloc: Global, definition: &IlDef, names: &mut Row<Name>) -> Result<(), NoMemory>
    ensures { OnOk result (names.new ≡ names.old ++ names_in definition.now) }
{
    match definition {
        IlDef::Syntax(syntax) => add_body(alloc, &syntax.body, names),
        IlDef::Var(_, _) => Ok(()),
        IlDef::Relation(relation) => add_types(alloc, relation.holes.as_slice(), names),
        IlDef::Rule(rule) => {
            add_variables(alloc, rule.variables.as_slice(), names)?;
            add_exps(alloc, rule.conclusion.as_slice(), names)?;
            add_prems(alloc, rule.premises.as_slice(), names)
        }
        IlDef::Fun(fun) => {
            add_types(alloc, fun.params.as_slice(), names)?;
            add_type(alloc, &fun.result, names)
        }
        IlDef::Clause(clause) => {
            add_variables(alloc, clause.variables.as_slice(), names)?;
            add_exps(alloc, clause.args.as_slice(), names)?;
            add_exp(alloc, &clause.result, names)?;
            add_prems(alloc, clause.premises.as_slice(), names)
        }
    }
}

/// The names that stand in a definition.
pub(crate) fn names_in(alloc: Global, definition: &IlDef) -> Result<Row<Name>, NoMemory>
    ensures { IfOk result (λ names. names ≡ names_in definition.now) }
{
    let mut names = Row::new(alloc);
    add_names_in(alloc, definition, &mut names)?;
    Ok(names)
}

/// The name that a definition declares.
pub(crate) fn declared_by(alloc: Global, definition: &IlDef) -> Result<Option<Name>, NoMemory>
    ensures { IfOk result (λ name. name ≡ declared_by definition.now) }
{
    match definition {
        IlDef::Syntax(syntax) => Ok(Some(syntax.name.copy(alloc)?)),
        IlDef::Relation(relation) => Ok(Some(relation.name.copy(alloc)?)),
        IlDef::Fun(fun) => Ok(Some(fun_name(alloc, &fun.name)?)),
        IlDef::Var(_, _) | IlDef::Rule(_) | IlDef::Clause(_) => Ok(None),
    }
}

/// The name that a definition declares, or of which it is a rule or a clause.
pub(crate) fn owner(alloc: Global, definition: &IlDef) -> Result<Option<Name>, NoMemory>
    ensures { IfOk result (λ name. name ≡ owner definition.now) }
{
    match definition {
        IlDef::Syntax(syntax) => Ok(Some(syntax.name.copy(alloc)?)),
        IlDef::Relation(relation) => Ok(Some(relation.name.copy(alloc)?)),
        IlDef::Rule(rule) => Ok(Some(rule.relation.copy(alloc)?)),
        IlDef::Fun(fun) => Ok(Some(fun_name(alloc, &fun.name)?)),
        IlDef::Clause(clause) => Ok(Some(fun_name(alloc, &clause.fun)?)),
        IlDef::Var(_, _) => Ok(None),
    }
}
