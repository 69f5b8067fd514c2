//! The trees of types.

ghost use Rattle.std.specs.Prelude.{◌≡◌, ◌++◌, map, IfOk, OnOk};
ghost use Rattle.st_iltext.specs.Expressions.{group, ty_tree};
ghost use Rattle.st_text.specs.Trees.{tree_of};

use crate::form::{headed, quote_tree, unary, word_tree};
use st_il::Ty;
use st_num::{NoMemory, Row};
use st_text::TextTree;
use std::alloc::Global;

/// The tree of a type.
#[cycle(ty)]
pub fn ty_tree(alloc: Global, ty: &Ty) -> Result<TextTree, NoMemory>
    ensures { IfOk result (λ tree. tree_of tree ≡ ty_tree ty.now) }
{
    match ty {
        Ty::Bool => word_tree(alloc, b"bool"),
        Ty::Nat => word_tree(alloc, b"nat"),
        Ty::Int => word_tree(alloc, b"int"),
        Ty::Text => word_tree(alloc, b"text"),
        Ty::Name(name) => unary(alloc, b"n", quote_tree(alloc, name)?),
        Ty::List(element) => unary(alloc, b"l", ty_tree(alloc, element.get())?),
        Ty::Opt(element) => unary(alloc, b"o", ty_tree(alloc, element.get())?),
        Ty::Tuple(parts) => {
            let mut trees = headed(alloc, b"t")?;
            push_types(alloc, parts.as_slice(), &mut trees)?;
            Ok(TextTree::List(trees))
        }
    }
}

/// Adds the trees of these types.
#[cycle(ty)]
pub fn push_types(alloc: Global, types: &[Ty], trees: &mut Row<TextTree>) -> Result<(), NoMemory>
    ensures { OnOk result (map tree_of trees.new ≡ map tree_of trees.old ++ map ty_tree types.now) }
{
    for ty in types {
        trees.push(ty_tree(alloc, ty)?)?;
    }
    Ok(())
}

/// The list of these types.
pub fn types_tree(alloc: Global, types: &[Ty]) -> Result<TextTree, NoMemory>
    ensures { IfOk result (λ tree. tree_of tree ≡ group (map ty_tree types.now)) }
{
    let mut trees = Row::new(alloc);
    push_types(alloc, types, &mut trees)?;
    Ok(TextTree::List(trees))
}
