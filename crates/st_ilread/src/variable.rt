//! How the variables of rules and clauses are read from text trees.

ghost use Rattle.std.specs.Prelude.{◌≡◌, map};
ghost use Rattle.st_iltext.specs.Definitions.{kind_word, listed_tree};
ghost use Rattle.st_iltext.specs.Written.{are_in_order, listed_written, name_of, variables_written};
ghost use Rattle.st_iltext.specs.inner.Reading.{Reads, ReadsAll};
ghost use Rattle.st_ilread.specs.inner.Parts.{any, row_tree};
ghost use Rattle.st_text.specs.Trees.{tree_of, trees_of};

use crate::name::{follows, read_name};
use crate::part::behind_two;
use st_il::Listed;
use st_iltext::fault::MALFORMED;
use st_iltext::shape::{is_word, list_parts};
use st_iltext::type_reader::read_ty;
use st_num::{Dim, Kind, Row};
use st_text::{TextFault, TextTree};
use std::alloc::Global;

/// The level of a dimension that the tree is.
fn read_kind(tree: &TextTree) -> Result<Kind, TextFault>
    ensures { Reads kind_word any (tree_of tree.now) result }
{
    if is_word(tree, b"l") {
        return Ok(Kind::List);
    }
    if is_word(tree, b"o") {
        return Ok(Kind::Opt);
    }
    Err(MALFORMED)
}

/// The dimension whose levels the trees are.
fn read_dim(alloc: Global, trees: &[TextTree]) -> Result<Dim, TextFault>
    ensures { ReadsAll kind_word any (trees_of trees.now) result }
{
    let mut dim = Dim::new(alloc);
    for tree in trees {
        dim.push(read_kind(tree)?)?;
    }
    Ok(dim)
}

/// The variable that the tree is, with its type and its dimension.
fn read_listed(alloc: Global, tree: &TextTree) -> Result<Listed, TextFault>
    ensures { Reads listed_tree listed_written (tree_of tree.now) result }
{
    let Some(parts) = list_parts(tree) else {
        return Err(MALFORMED);
    };
    let Some((name, ty, kinds)) = behind_two(parts) else {
        return Err(MALFORMED);
    };
    let name = read_name(alloc, name)?;
    let ty = read_ty(alloc, ty)?;
    let dim = read_dim(alloc, kinds)?;
    Ok(Listed { name, ty, dim })
}

/// The variables that the trees are.
fn read_all_listed(alloc: Global, trees: &[TextTree]) -> Result<Row<Listed>, TextFault>
    ensures { ReadsAll listed_tree listed_written (trees_of trees.now) result }
{
    let mut variables = Row::new(alloc);
    for tree in trees {
        variables.push(read_listed(alloc, tree)?)?;
    }
    Ok(variables)
}

/// Whether the names of the variables stand in byte order.
fn are_in_order(variables: &[Listed]) -> bool
    ensures { result ≡ are_in_order (map name_of variables.now) }
{
    let Some((first, others)) = variables.split_first() else {
        return true;
    };
    let mut before = first;
    for variable in others {
        if !follows(&before.name, &variable.name) {
            return false;
        }
        before = variable;
    }
    true
}

/// The variables that the tree lists, in byte order.
pub fn read_variables(alloc: Global, tree: &TextTree) -> Result<Row<Listed>, TextFault>
    ensures { Reads (row_tree listed_tree) variables_written (tree_of tree.now) result }
{
    let Some(trees) = list_parts(tree) else {
        return Err(MALFORMED);
    };
    let variables = read_all_listed(alloc, trees)?;
    if !are_in_order(variables.as_slice()) {
        return Err(MALFORMED);
    }
    Ok(variables)
}
