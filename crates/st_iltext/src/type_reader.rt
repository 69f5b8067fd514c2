//! How types are read from text trees.

ghost use Rattle.std.specs.Prelude.{◌≡◌, ◌≢◌, codes, MatchOption};
ghost use Rattle.st_iltext.specs.Expressions.{ty_tree, number_type};
ghost use Rattle.st_iltext.specs.Written.{ty_written};
ghost use Rattle.st_il.specs.declared.ty.NumTy.{NumTy as NumberType};
ghost use Rattle.st_iltext.specs.inner.Reading.{IsOf, IsOfNone, Reads, ReadsAll};
ghost use Rattle.st_text.specs.Text.{word, list, more};
ghost use Rattle.st_text.specs.Trees.{tree_of, trees_of};

use crate::fault::MALFORMED;
use crate::shape::{is_word, quoted};
use st_il::{NumTy, Ty};
use st_num::{Boxed, Row};
use st_text::{TextFault, TextTree};
use std::alloc::Global;

/// The type at which arithmetic is done that the tree is.
pub fn read_number_type(tree: &TextTree) -> Option<NumTy>
    ensures { MatchOption result ((n : NumberType) → tree_of tree.now ≢ number_type n)
        (λ n. tree_of tree.now ≡ number_type n) }
{
    if is_word(tree, b"nat") {
        return Some(NumTy::Nat);
    }
    if is_word(tree, b"int") {
        return Some(NumTy::Int);
    }
    None
}

/// The type that a word is.
fn base_type(bytes: &[u8]) -> Option<Ty>
    ensures { MatchOption result (IsOfNone ty_tree ty_written (word bytes.now))
        (IsOf ty_tree ty_written (word bytes.now)) }
{
    match bytes {
        b"bool" => Some(Ty::Bool),
        b"nat" => Some(Ty::Nat),
        b"int" => Some(Ty::Int),
        b"text" => Some(Ty::Text),
        _ => None,
    }
}

/// The type that the tree is.
#[cycle(read)]
pub fn read_ty(alloc: Global, tree: &TextTree) -> Result<Ty, TextFault>
    ensures { Reads ty_tree ty_written (tree_of tree.now) result }
{
    match tree {
        TextTree::Word(bytes) => match base_type(bytes.as_slice()) {
            Some(ty) => Ok(ty),
            None => Err(MALFORMED),
        },
        TextTree::Quote(_) => Err(MALFORMED),
        TextTree::List(trees) => {
            let Some((head, parts)) = trees.as_slice().split_first() else {
                return Err(MALFORMED);
            };
            read_type_form(alloc, head, parts)
        }
    }
}

/// The type that begins with this tree and has these parts.
#[cycle(read)]
fn read_type_form(alloc: Global, head: &TextTree, parts: &[TextTree]) -> Result<Ty, TextFault>
    ensures { Reads ty_tree ty_written (list (more (tree_of head.now) (trees_of parts.now)))
        result }
{
    if is_word(head, b"n") {
        return read_named(alloc, parts);
    }
    if is_word(head, b"l") {
        return read_list_type(alloc, parts);
    }
    if is_word(head, b"o") {
        return read_option_type(alloc, parts);
    }
    if is_word(head, b"t") {
        return read_tuple_type(alloc, parts);
    }
    Err(MALFORMED)
}

/// The type of a syntax that the parts name.
fn read_named(alloc: Global, parts: &[TextTree]) -> Result<Ty, TextFault>
    ensures { Reads ty_tree ty_written (list (more (word (codes "n")) (trees_of parts.now)))
        result }
{
    let Some((name, others)) = parts.split_first() else {
        return Err(MALFORMED);
    };
    if !others.is_empty() {
        return Err(MALFORMED);
    }
    let Some(name) = quoted(name) else {
        return Err(MALFORMED);
    };
    Ok(Ty::Name(name.copy(alloc)?))
}

/// The type of lists whose element type the parts are.
#[cycle(read)]
fn read_list_type(alloc: Global, parts: &[TextTree]) -> Result<Ty, TextFault>
    ensures { Reads ty_tree ty_written (list (more (word (codes "l")) (trees_of parts.now)))
        result }
{
    let Some((element, others)) = parts.split_first() else {
        return Err(MALFORMED);
    };
    if !others.is_empty() {
        return Err(MALFORMED);
    }
    let element = read_ty(alloc, element)?;
    Ok(Ty::List(Boxed::new(alloc, element)?))
}

/// The type of options whose element type the parts are.
#[cycle(read)]
fn read_option_type(alloc: Global, parts: &[TextTree]) -> Result<Ty, TextFault>
    ensures { Reads ty_tree ty_written (list (more (word (codes "o")) (trees_of parts.now)))
        result }
{
    let Some((element, others)) = parts.split_first() else {
        return Err(MALFORMED);
    };
    if !others.is_empty() {
        return Err(MALFORMED);
    }
    let element = read_ty(alloc, element)?;
    Ok(Ty::Opt(Boxed::new(alloc, element)?))
}

/// The type of tuples whose types the parts are, two or more.
#[cycle(read)]
fn read_tuple_type(alloc: Global, parts: &[TextTree]) -> Result<Ty, TextFault>
    ensures { Reads ty_tree ty_written (list (more (word (codes "t")) (trees_of parts.now)))
        result }
{
    let types = read_tys(alloc, parts)?;
    if types.len() < 2 {
        return Err(MALFORMED);
    }
    Ok(Ty::Tuple(types))
}

/// The types that the trees are.
#[cycle(read)]
pub fn read_tys(alloc: Global, trees: &[TextTree]) -> Result<Row<Ty>, TextFault>
    ensures { ReadsAll ty_tree ty_written (trees_of trees.now) result }
{
    let mut types = Row::new(alloc);
    for tree in trees {
        types.push(read_ty(alloc, tree)?)?;
    }
    Ok(types)
}
