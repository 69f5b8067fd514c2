//! How definitions are read from text trees.

ghost use Rattle.std.specs.Prelude.{codes};
ghost use Rattle.st_iltext.specs.Definitions.{definition_tree, mode_word};
ghost use Rattle.st_iltext.specs.Written.{written};
ghost use Rattle.st_iltext.specs.inner.Reading.{Reads, ReadsAll};
ghost use Rattle.st_ilread.specs.inner.Parts.{any, mode_tree};
ghost use Rattle.st_text.specs.Text.{word, list, more};
ghost use Rattle.st_text.specs.Trees.{tree_of, trees_of};

use crate::expression::{read_exp, read_exp_list};
use crate::name::read_name;
use crate::part::behind_two;
use crate::premise::read_prems;
use crate::syntax::{read_body, read_type_list};
use crate::variable::read_variables;
use st_il::{ClauseDef, FunDef, IlDef, RelationDef, RuleDef, SyntaxDef};
use st_iltext::fault::MALFORMED;
use st_iltext::shape::{form_parts, four, is_word, three, two};
use st_iltext::type_reader::read_ty;
use st_num::Row;
use st_text::{TextFault, TextTree};
use std::alloc::Global;

/// The definition that the tree is.
pub fn read_definition(alloc: Global, tree: &TextTree) -> Result<IlDef, TextFault>
    ensures { Reads definition_tree written (tree_of tree.now) result }
{
    if let Some(parts) = form_parts(tree, b"syntax") {
        return read_syntax(alloc, parts);
    }
    if let Some(parts) = form_parts(tree, b"var") {
        return read_var(alloc, parts);
    }
    if let Some(parts) = form_parts(tree, b"relation") {
        return read_relation(alloc, parts);
    }
    if let Some(parts) = form_parts(tree, b"rule") {
        return read_rule(alloc, parts);
    }
    if let Some(parts) = form_parts(tree, b"fun") {
        return read_fun(alloc, parts);
    }
    if let Some(parts) = form_parts(tree, b"clause") {
        return read_clause(alloc, parts);
    }
    Err(MALFORMED)
}

/// The syntax that the parts are.
fn read_syntax(alloc: Global, parts: &[TextTree]) -> Result<IlDef, TextFault>
    ensures { Reads definition_tree written (list (more (word (codes "syntax")) (trees_of parts.now)))
        result }
{
    let Some((name, body)) = two(parts) else {
        return Err(MALFORMED);
    };
    let name = read_name(alloc, name)?;
    let body = read_body(alloc, body)?;
    Ok(IlDef::Syntax(SyntaxDef { name, body }))
}

/// The name of a variable with its type that the parts are.
fn read_var(alloc: Global, parts: &[TextTree]) -> Result<IlDef, TextFault>
    ensures { Reads definition_tree written (list (more (word (codes "var")) (trees_of parts.now)))
        result }
{
    let Some((name, ty)) = two(parts) else {
        return Err(MALFORMED);
    };
    let name = read_name(alloc, name)?;
    let ty = read_ty(alloc, ty)?;
    Ok(IlDef::Var(name, ty))
}

/// Whether a hole is an input, which the tree says.
fn read_direction(tree: &TextTree) -> Result<bool, TextFault>
    ensures { Reads mode_word any (tree_of tree.now) result }
{
    if is_word(tree, b"in") {
        return Ok(true);
    }
    if is_word(tree, b"out") {
        return Ok(false);
    }
    Err(MALFORMED)
}

/// Which holes are inputs, which the trees say.
fn read_directions(alloc: Global, trees: &[TextTree]) -> Result<Row<bool>, TextFault>
    ensures { ReadsAll mode_word any (trees_of trees.now) result }
{
    let mut mode = Row::new(alloc);
    for tree in trees {
        mode.push(read_direction(tree)?)?;
    }
    Ok(mode)
}

/// The mode that the tree is.
fn read_mode(alloc: Global, tree: &TextTree) -> Result<Row<bool>, TextFault>
    ensures { Reads mode_tree any (tree_of tree.now) result }
{
    let Some(parts) = form_parts(tree, b"mode") else {
        return Err(MALFORMED);
    };
    read_directions(alloc, parts)
}

/// The relation that the parts are.
fn read_relation(alloc: Global, parts: &[TextTree]) -> Result<IlDef, TextFault>
    ensures { Reads definition_tree written
        (list (more (word (codes "relation")) (trees_of parts.now))) result }
{
    let Some((name, tag, holes, mode)) = four(parts) else {
        return Err(MALFORMED);
    };
    let name = read_name(alloc, name)?;
    let tag = read_name(alloc, tag)?;
    let holes = read_type_list(alloc, holes)?;
    let mode = read_mode(alloc, mode)?;
    Ok(IlDef::Relation(RelationDef {
        name,
        tag,
        holes,
        mode,
    }))
}

/// The rule that the parts are.
fn read_rule(alloc: Global, parts: &[TextTree]) -> Result<IlDef, TextFault>
    ensures { Reads definition_tree written (list (more (word (codes "rule")) (trees_of parts.now)))
        result }
{
    let Some((relation, name, others)) = behind_two(parts) else {
        return Err(MALFORMED);
    };
    let Some((variables, conclusion, premises)) = behind_two(others) else {
        return Err(MALFORMED);
    };
    let relation = read_name(alloc, relation)?;
    let name = read_name(alloc, name)?;
    let variables = read_variables(alloc, variables)?;
    let conclusion = read_exp_list(alloc, conclusion)?;
    let premises = read_prems(alloc, premises)?;
    Ok(IlDef::Rule(RuleDef {
        relation,
        name,
        variables,
        conclusion,
        premises,
    }))
}

/// The function that the parts are.
fn read_fun(alloc: Global, parts: &[TextTree]) -> Result<IlDef, TextFault>
    ensures { Reads definition_tree written (list (more (word (codes "fun")) (trees_of parts.now)))
        result }
{
    let Some((name, params, outcome)) = three(parts) else {
        return Err(MALFORMED);
    };
    let name = read_name(alloc, name)?;
    let params = read_type_list(alloc, params)?;
    let outcome = read_ty(alloc, outcome)?;
    Ok(IlDef::Fun(FunDef {
        name,
        params,
        result: outcome,
    }))
}

/// The clause that the parts are.
fn read_clause(alloc: Global, parts: &[TextTree]) -> Result<IlDef, TextFault>
    ensures { Reads definition_tree written (list (more (word (codes "clause")) (trees_of parts.now)))
        result }
{
    let Some((fun, variables, others)) = behind_two(parts) else {
        return Err(MALFORMED);
    };
    let Some((args, outcome, premises)) = behind_two(others) else {
        return Err(MALFORMED);
    };
    let fun = read_name(alloc, fun)?;
    let variables = read_variables(alloc, variables)?;
    let args = read_exp_list(alloc, args)?;
    let outcome = read_exp(alloc, outcome)?;
    let premises = read_prems(alloc, premises)?;
    Ok(IlDef::Clause(ClauseDef {
        fun,
        variables,
        args,
        result: outcome,
        premises,
    }))
}
