//! The trees of definitions, a line for each form.

ghost use Rattle.std.specs.Prelude.{◌≡◌, ◌++◌, map, codes, IfOk, OnOk};
ghost use Rattle.st_iltext.specs.Definitions.{alternative_tree, field_tree, body_tree, kind_word, listed_tree, mode_word, definition_tree};
ghost use Rattle.st_iltext.specs.Expressions.{group, form};
ghost use Rattle.st_text.specs.Trees.{tree_of};

use crate::expression::{exp_tree, exps_tree};
use crate::form::{binary, headed, quote_tree, unary, word_tree};
use crate::premise::push_prems;
use crate::ty::{push_types, ty_tree, types_tree};
use st_il::{
    Alternative, ClauseDef, FunDef, IlDef, Listed, RelationDef, RuleDef, SyntaxBody, SyntaxDef, Ty,
};
use st_num::{Dim, Kind, Name, NoMemory, Row};
use st_text::TextTree;
use std::alloc::Global;

/// The tree of an alternative of a variant.
fn alternative_tree(alloc: Global, alternative: &Alternative) -> Result<TextTree, NoMemory>
    ensures { IfOk result (λ tree. tree_of tree ≡ alternative_tree alternative.now) }
{
    match alternative {
        Alternative::Case(tag, operands) => {
            let mut trees = headed(alloc, b"case")?;
            trees.push(quote_tree(alloc, tag)?)?;
            push_types(alloc, operands.as_slice(), &mut trees)?;
            Ok(TextTree::List(trees))
        }
        Alternative::Incl(name) => unary(alloc, b"incl", quote_tree(alloc, name)?),
    }
}

/// The tree of a variant of these alternatives.
fn variant_tree(alloc: Global, alternatives: &[Alternative]) -> Result<TextTree, NoMemory>
    ensures { IfOk result (λ tree. tree_of tree
        ≡ body_tree (SyntaxBody.Variant alternatives.now)) }
{
    let mut trees = headed(alloc, b"variant")?;
    for alternative in alternatives {
        trees.push(alternative_tree(alloc, alternative)?)?;
    }
    Ok(TextTree::List(trees))
}

/// The tree of a field of a record, with its type.
fn field_tree(alloc: Global, name: &Name, ty: &Ty) -> Result<TextTree, NoMemory>
    ensures { IfOk result (λ tree. tree_of tree ≡ field_tree (name.now, ty.now)) }
{
    let mut trees = Row::new(alloc);
    trees.push(quote_tree(alloc, name)?)?;
    trees.push(ty_tree(alloc, ty)?)?;
    Ok(TextTree::List(trees))
}

/// The tree of a record of these fields.
fn fields_tree(alloc: Global, fields: &[(Name, Ty)]) -> Result<TextTree, NoMemory>
    ensures { IfOk result (λ tree. tree_of tree ≡ body_tree (SyntaxBody.Fields fields.now)) }
{
    let mut trees = headed(alloc, b"fields")?;
    for field in fields {
        trees.push(field_tree(alloc, &field.0, &field.1)?)?;
    }
    Ok(TextTree::List(trees))
}

/// The tree of a syntax.
fn syntax_tree(alloc: Global, def: &SyntaxDef) -> Result<TextTree, NoMemory>
    ensures { IfOk result (λ tree. tree_of tree ≡ definition_tree (IlDef.Syntax def.now)) }
{
    let name = quote_tree(alloc, &def.name)?;
    let body = match &def.body {
        SyntaxBody::Alias(ty) => unary(alloc, b"alias", ty_tree(alloc, ty)?),
        SyntaxBody::Variant(alternatives) => variant_tree(alloc, alternatives.as_slice()),
        SyntaxBody::Fields(fields) => fields_tree(alloc, fields.as_slice()),
    };
    binary(alloc, b"syntax", name, body?)
}

/// The tree of a mode: which holes of a relation are inputs.
fn mode_tree(alloc: Global, mode: &[bool]) -> Result<TextTree, NoMemory>
    ensures { IfOk result (λ tree. tree_of tree ≡ form (codes "mode") (map mode_word mode.now)) }
{
    let mut trees = headed(alloc, b"mode")?;
    for is_input in mode {
        let word = if *is_input { "in" } else { "out" };
        trees.push(word_tree(alloc, word.as_bytes())?)?;
    }
    Ok(TextTree::List(trees))
}

/// The tree of a relation.
fn relation_tree(alloc: Global, def: &RelationDef) -> Result<TextTree, NoMemory>
    ensures { IfOk result (λ tree. tree_of tree ≡ definition_tree (IlDef.Relation def.now)) }
{
    let mut trees = headed(alloc, b"relation")?;
    trees.push(quote_tree(alloc, &def.name)?)?;
    trees.push(quote_tree(alloc, &def.tag)?)?;
    trees.push(types_tree(alloc, def.holes.as_slice())?)?;
    trees.push(mode_tree(alloc, def.mode.as_slice())?)?;
    Ok(TextTree::List(trees))
}

/// Adds the words of a dimension.
fn push_kinds(alloc: Global, dim: &Dim, trees: &mut Row<TextTree>) -> Result<(), NoMemory>
    ensures { OnOk result (map tree_of trees.new ≡ map tree_of trees.old ++ map kind_word dim.now) }
{
    for kind in dim.as_slice() {
        let word = match kind {
            Kind::List => "l",
            Kind::Opt => "o",
        };
        trees.push(word_tree(alloc, word.as_bytes())?)?;
    }
    Ok(())
}

/// The tree of a variable, with its type and its dimension.
fn listed_tree(alloc: Global, variable: &Listed) -> Result<TextTree, NoMemory>
    ensures { IfOk result (λ tree. tree_of tree ≡ listed_tree variable.now) }
{
    let mut trees = Row::new(alloc);
    trees.push(quote_tree(alloc, &variable.name)?)?;
    trees.push(ty_tree(alloc, &variable.ty)?)?;
    push_kinds(alloc, &variable.dim, &mut trees)?;
    Ok(TextTree::List(trees))
}

/// The list of these variables.
fn variables_tree(alloc: Global, variables: &[Listed]) -> Result<TextTree, NoMemory>
    ensures { IfOk result (λ tree. tree_of tree ≡ group (map listed_tree variables.now)) }
{
    let mut trees = Row::new(alloc);
    for variable in variables {
        trees.push(listed_tree(alloc, variable)?)?;
    }
    Ok(TextTree::List(trees))
}

/// The tree of a rule.
fn rule_tree(alloc: Global, def: &RuleDef) -> Result<TextTree, NoMemory>
    ensures { IfOk result (λ tree. tree_of tree ≡ definition_tree (IlDef.Rule def.now)) }
{
    let mut trees = headed(alloc, b"rule")?;
    trees.push(quote_tree(alloc, &def.relation)?)?;
    trees.push(quote_tree(alloc, &def.name)?)?;
    trees.push(variables_tree(alloc, def.variables.as_slice())?)?;
    trees.push(exps_tree(alloc, def.conclusion.as_slice())?)?;
    push_prems(alloc, def.premises.as_slice(), &mut trees)?;
    Ok(TextTree::List(trees))
}

/// The tree of a function, with the types of its parameters and its result.
fn function_tree(alloc: Global, def: &FunDef) -> Result<TextTree, NoMemory>
    ensures { IfOk result (λ tree. tree_of tree ≡ definition_tree (IlDef.Fun def.now)) }
{
    let mut trees = headed(alloc, b"fun")?;
    trees.push(quote_tree(alloc, &def.name)?)?;
    trees.push(types_tree(alloc, def.params.as_slice())?)?;
    trees.push(ty_tree(alloc, &def.result)?)?;
    Ok(TextTree::List(trees))
}

/// The tree of a clause of a function.
fn clause_tree(alloc: Global, def: &ClauseDef) -> Result<TextTree, NoMemory>
    ensures { IfOk result (λ tree. tree_of tree ≡ definition_tree (IlDef.Clause def.now)) }
{
    let mut trees = headed(alloc, b"clause")?;
    trees.push(quote_tree(alloc, &def.fun)?)?;
    trees.push(variables_tree(alloc, def.variables.as_slice())?)?;
    trees.push(exps_tree(alloc, def.args.as_slice())?)?;
    trees.push(exp_tree(alloc, &def.result)?)?;
    push_prems(alloc, def.premises.as_slice(), &mut trees)?;
    Ok(TextTree::List(trees))
}

/// The tree of a definition.
pub fn definition_tree(alloc: Global, def: &IlDef) -> Result<TextTree, NoMemory>
    ensures { IfOk result (λ tree. tree_of tree ≡ definition_tree def.now) }
{
    match def {
        IlDef::Syntax(def) => syntax_tree(alloc, def),
        IlDef::Var(name, ty) => {
            let name = quote_tree(alloc, name)?;
            binary(alloc, b"var", name, ty_tree(alloc, ty)?)
        }
        IlDef::Relation(def) => relation_tree(alloc, def),
        IlDef::Rule(def) => rule_tree(alloc, def),
        IlDef::Fun(def) => function_tree(alloc, def),
        IlDef::Clause(def) => clause_tree(alloc, def),
    }
}
