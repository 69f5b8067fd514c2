//! How premises are read from text trees.

ghost use Rattle.std.specs.Prelude.{codes};
ghost use Rattle.st_iltext.specs.Expressions.{prem_tree};
ghost use Rattle.st_iltext.specs.Written.{prem_written};
ghost use Rattle.st_iltext.specs.inner.Reading.{Reads, ReadsAll};
ghost use Rattle.st_text.specs.Text.{word, list, more};
ghost use Rattle.st_text.specs.Trees.{tree_of, trees_of};

use crate::expression::{read_iteration, read_named, read_only};
use crate::name::read_names;
use st_il::IlPrem;
use st_iltext::fault::MALFORMED;
use st_iltext::shape::{are_none, form_parts, three};
use st_num::{Boxed, Row};
use st_text::{TextFault, TextTree};
use std::alloc::Global;

/// The premise that the tree is.
#[cycle(premise)]
fn read_prem(alloc: Global, tree: &TextTree) -> Result<IlPrem, TextFault>
    ensures { Reads prem_tree prem_written (tree_of tree.now) result }
{
    if let Some(parts) = form_parts(tree, b"if") {
        return read_condition(alloc, parts);
    }
    if let Some(parts) = form_parts(tree, b"goal") {
        return read_goal(alloc, parts);
    }
    if let Some(parts) = form_parts(tree, b"otherwise") {
        return read_otherwise(parts);
    }
    if let Some(parts) = form_parts(tree, b"each") {
        return read_each(alloc, parts);
    }
    Err(MALFORMED)
}

/// The condition that the parts are.
fn read_condition(alloc: Global, parts: &[TextTree]) -> Result<IlPrem, TextFault>
    ensures { Reads prem_tree prem_written (list (more (word (codes "if")) (trees_of parts.now)))
        result }
{
    let exp = read_only(alloc, parts)?;
    Ok(IlPrem::If(exp))
}

/// The judgement that the parts are.
fn read_goal(alloc: Global, parts: &[TextTree]) -> Result<IlPrem, TextFault>
    ensures { Reads prem_tree prem_written (list (more (word (codes "goal")) (trees_of parts.now)))
        result }
{
    let (relation, holes) = read_named(alloc, parts)?;
    Ok(IlPrem::Goal(relation, holes))
}

/// The premise `otherwise`, which has no parts.
fn read_otherwise(parts: &[TextTree]) -> Result<IlPrem, TextFault>
    ensures { Reads prem_tree prem_written
        (list (more (word (codes "otherwise")) (trees_of parts.now))) result }
{
    if !are_none(parts) {
        return Err(MALFORMED);
    }
    Ok(IlPrem::Otherwise)
}

/// The iterated premise that the parts are.
#[cycle(premise)]
fn read_each(alloc: Global, parts: &[TextTree]) -> Result<IlPrem, TextFault>
    ensures { Reads prem_tree prem_written (list (more (word (codes "each")) (trees_of parts.now)))
        result }
{
    let Some((count, names, premise)) = three(parts) else {
        return Err(MALFORMED);
    };
    let count = read_iteration(alloc, count)?;
    let names = read_names(alloc, names)?;
    let inner = read_prem(alloc, premise)?;
    let premise = Boxed::new(alloc, inner)?;
    Ok(IlPrem::Each(count, names, premise))
}

/// The premises that the trees are.
pub fn read_prems(alloc: Global, trees: &[TextTree]) -> Result<Row<IlPrem>, TextFault>
    ensures { ReadsAll prem_tree prem_written (trees_of trees.now) result }
{
    let mut premises = Row::new(alloc);
    for tree in trees {
        premises.push(read_prem(alloc, tree)?)?;
    }
    Ok(premises)
}
