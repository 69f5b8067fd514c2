//! How text trees are made.

ghost use Rattle.std.specs.Prelude.{◌≡◌, [], ◌∷◌, map, IfOk, decimal};
ghost use Rattle.st_iltext.specs.Expressions.{form, truth, number_type, names};
ghost use Rattle.st_text.specs.Text.{word, quote};
ghost use Rattle.st_text.specs.Trees.{tree_of};

use itoa::Buffer;
use st_il::NumTy;
use st_num::{Name, NoMemory, Row};
use st_text::TextTree;
use std::alloc::Global;

/// A word as a tree.
pub fn word_tree(alloc: Global, bytes: &[u8]) -> Result<TextTree, NoMemory>
    ensures { IfOk result (λ tree. tree_of tree ≡ word bytes.now) }
{
    Ok(TextTree::Word(Row::from_slice(alloc, bytes)?))
}

/// A number as a tree.
pub fn number_tree(alloc: Global, number: u128) -> Result<TextTree, NoMemory>
    ensures { IfOk result (λ tree. tree_of tree ≡ word (decimal number)) }
{
    word_tree(alloc, Buffer::new().format(number).as_bytes())
}

/// A truth value as a tree.
pub fn truth_tree(alloc: Global, is_true: bool) -> Result<TextTree, NoMemory>
    ensures { IfOk result (λ tree. tree_of tree ≡ truth is_true) }
{
    match is_true {
        true => word_tree(alloc, b"true"),
        false => word_tree(alloc, b"false"),
    }
}

/// The type at which arithmetic is done, as a tree.
pub fn number_type_tree(alloc: Global, ty: NumTy) -> Result<TextTree, NoMemory>
    ensures { IfOk result (λ tree. tree_of tree ≡ number_type ty) }
{
    match ty {
        NumTy::Nat => word_tree(alloc, b"nat"),
        NumTy::Int => word_tree(alloc, b"int"),
    }
}

/// A quoted text as a tree.
pub fn quote_tree(alloc: Global, text: &Name) -> Result<TextTree, NoMemory>
    ensures { IfOk result (λ tree. tree_of tree ≡ quote text.now) }
{
    Ok(TextTree::Quote(text.copy(alloc)?))
}

/// The list of these names as a tree.
pub fn names_tree(alloc: Global, texts: &[Name]) -> Result<TextTree, NoMemory>
    ensures { IfOk result (λ tree. tree_of tree ≡ names texts.now) }
{
    let mut trees = Row::new(alloc);
    for text in texts {
        trees.push(quote_tree(alloc, text)?)?;
    }
    Ok(TextTree::List(trees))
}

/// The trees of a list that begins with this word, so far that word alone.
pub fn headed(alloc: Global, head: &[u8]) -> Result<Row<TextTree>, NoMemory>
    ensures { IfOk result (λ trees. map tree_of trees ≡ word head.now ∷ []) }
{
    let mut trees = Row::new(alloc);
    trees.push(word_tree(alloc, head)?)?;
    Ok(trees)
}

/// A list of this word and this tree.
pub fn unary(alloc: Global, head: &[u8], one: TextTree) -> Result<TextTree, NoMemory>
    ensures { IfOk result (λ tree. tree_of tree ≡ form head.now (tree_of one ∷ [])) }
{
    let mut trees = headed(alloc, head)?;
    trees.push(one)?;
    Ok(TextTree::List(trees))
}

/// A list of this word and these two trees.
pub fn binary(
    alloc: Global,
    head: &[u8],
    one: TextTree,
    two: TextTree,
) -> Result<TextTree, NoMemory>
    ensures { IfOk result (λ tree. tree_of tree ≡ form head.now (tree_of one ∷ tree_of two ∷ [])) }
{
    let mut trees = headed(alloc, head)?;
    trees.push(one)?;
    trees.push(two)?;
    Ok(TextTree::List(trees))
}

/// A list of this word and these three trees.
pub fn ternary(
    alloc: Global,
    head: &[u8],
    one: TextTree,
    two: TextTree,
    three: TextTree,
) -> Result<TextTree, NoMemory>
    ensures { IfOk result (λ tree. tree_of tree
        ≡ form head.now (tree_of one ∷ tree_of two ∷ tree_of three ∷ [])) }
{
    let mut trees = headed(alloc, head)?;
    trees.push(one)?;
    trees.push(two)?;
    trees.push(three)?;
    Ok(TextTree::List(trees))
}
