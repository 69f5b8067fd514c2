//! How the bodies of syntaxes are read from text trees.

ghost use Rattle.std.specs.Prelude.{codes};
ghost use Rattle.std.specs.List.{list_all};
ghost use Rattle.st_iltext.specs.Definitions.{alternative_tree, body_tree, field_tree};
ghost use Rattle.st_iltext.specs.Expressions.{ty_tree};
ghost use Rattle.st_iltext.specs.Written.{ty_written, alternative_written, body_written, field_written};
ghost use Rattle.st_iltext.specs.inner.Reading.{Reads, ReadsAll};
ghost use Rattle.st_ilread.specs.inner.Parts.{row_tree};
ghost use Rattle.st_text.specs.Text.{word, list, more};
ghost use Rattle.st_text.specs.Trees.{tree_of, trees_of};

use crate::name::read_name;
use crate::part::behind_one;
use st_il::{Alternative, SyntaxBody, Ty};
use st_iltext::fault::MALFORMED;
use st_iltext::shape::{form_parts, list_parts, one, two};
use st_iltext::type_reader::{read_ty, read_tys};
use st_num::{Name, Row};
use st_text::{TextFault, TextTree};
use std::alloc::Global;

/// The types that the tree lists.
pub fn read_type_list(alloc: Global, tree: &TextTree) -> Result<Row<Ty>, TextFault>
    ensures { Reads (row_tree ty_tree) (list_all ty_written) (tree_of tree.now) result }
{
    let Some(trees) = list_parts(tree) else {
        return Err(MALFORMED);
    };
    read_tys(alloc, trees)
}

/// The alternative that the tree is.
fn read_alternative(alloc: Global, tree: &TextTree) -> Result<Alternative, TextFault>
    ensures { Reads alternative_tree alternative_written (tree_of tree.now) result }
{
    if let Some(parts) = form_parts(tree, b"case") {
        return read_case(alloc, parts);
    }
    if let Some(parts) = form_parts(tree, b"incl") {
        return read_inclusion(alloc, parts);
    }
    Err(MALFORMED)
}

/// The case that the parts are: its tag, and the types of its operands.
fn read_case(alloc: Global, parts: &[TextTree]) -> Result<Alternative, TextFault>
    ensures { Reads alternative_tree alternative_written
        (list (more (word (codes "case")) (trees_of parts.now))) result }
{
    let Some((tag, operands)) = behind_one(parts) else {
        return Err(MALFORMED);
    };
    let tag = read_name(alloc, tag)?;
    let operands = read_tys(alloc, operands)?;
    Ok(Alternative::Case(tag, operands))
}

/// The included variant that the parts are.
fn read_inclusion(alloc: Global, parts: &[TextTree]) -> Result<Alternative, TextFault>
    ensures { Reads alternative_tree alternative_written
        (list (more (word (codes "incl")) (trees_of parts.now))) result }
{
    let Some(name) = one(parts) else {
        return Err(MALFORMED);
    };
    Ok(Alternative::Incl(read_name(alloc, name)?))
}

/// The alternatives that the trees are.
fn read_alternatives(alloc: Global, trees: &[TextTree]) -> Result<Row<Alternative>, TextFault>
    ensures { ReadsAll alternative_tree alternative_written (trees_of trees.now) result }
{
    let mut alternatives = Row::new(alloc);
    for tree in trees {
        alternatives.push(read_alternative(alloc, tree)?)?;
    }
    Ok(alternatives)
}

/// The field that the tree is: its name and its type.
fn read_field(alloc: Global, tree: &TextTree) -> Result<(Name, Ty), TextFault>
    ensures { Reads field_tree field_written (tree_of tree.now) result }
{
    let Some(parts) = list_parts(tree) else {
        return Err(MALFORMED);
    };
    let Some((name, ty)) = two(parts) else {
        return Err(MALFORMED);
    };
    let name = read_name(alloc, name)?;
    let ty = read_ty(alloc, ty)?;
    Ok((name, ty))
}

/// The fields that the trees are.
fn read_fields(alloc: Global, trees: &[TextTree]) -> Result<Row<(Name, Ty)>, TextFault>
    ensures { ReadsAll field_tree field_written (trees_of trees.now) result }
{
    let mut fields = Row::new(alloc);
    for tree in trees {
        fields.push(read_field(alloc, tree)?)?;
    }
    Ok(fields)
}

/// The body of a syntax that the tree is.
pub fn read_body(alloc: Global, tree: &TextTree) -> Result<SyntaxBody, TextFault>
    ensures { Reads body_tree body_written (tree_of tree.now) result }
{
    if let Some(parts) = form_parts(tree, b"alias") {
        return read_alias(alloc, parts);
    }
    if let Some(parts) = form_parts(tree, b"variant") {
        return read_variant(alloc, parts);
    }
    if let Some(parts) = form_parts(tree, b"fields") {
        return read_record(alloc, parts);
    }
    Err(MALFORMED)
}

/// The record whose fields the parts are.
fn read_record(alloc: Global, parts: &[TextTree]) -> Result<SyntaxBody, TextFault>
    ensures { Reads body_tree body_written (list (more (word (codes "fields")) (trees_of parts.now)))
        result }
{
    let fields = read_fields(alloc, parts)?;
    Ok(SyntaxBody::Fields(fields))
}

/// The alias that the parts are.
fn read_alias(alloc: Global, parts: &[TextTree]) -> Result<SyntaxBody, TextFault>
    ensures { Reads body_tree body_written (list (more (word (codes "alias")) (trees_of parts.now)))
        result }
{
    let Some(ty) = one(parts) else {
        return Err(MALFORMED);
    };
    Ok(SyntaxBody::Alias(read_ty(alloc, ty)?))
}

/// The variant whose alternatives the parts are, one or more.
fn read_variant(alloc: Global, parts: &[TextTree]) -> Result<SyntaxBody, TextFault>
    ensures { Reads body_tree body_written (list (more (word (codes "variant")) (trees_of parts.now)))
        result }
{
    let alternatives = read_alternatives(alloc, parts)?;
    if alternatives.is_empty() {
        return Err(MALFORMED);
    }
    Ok(SyntaxBody::Variant(alternatives))
}
