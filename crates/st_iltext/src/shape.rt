//! What a text tree looks like.

ghost use Rattle.std.specs.Prelude.{◌≡◌, ◌≢◌, ◌↔◌, ℕ, List, IsTrue, MatchOption};
ghost use Rattle.st_text.specs.Text as spec;
ghost use Rattle.st_text.specs.Text.{TextTrees, word, quote, list, none, more};
ghost use Rattle.st_text.specs.Trees.{tree_of, trees_of};

use st_num::Name;
use st_text::TextTree;

/// The trees of the list that the tree is, if it is one.
pub fn list_parts(tree: &TextTree) -> Option<&[TextTree]>
    ensures { MatchOption result ((ts : TextTrees) → tree_of tree.now ≢ list ts)
        (λ parts. tree_of tree.now ≡ list (trees_of parts.now)) }
{
    match tree {
        TextTree::List(trees) => Some(trees.as_slice()),
        TextTree::Word(_) | TextTree::Quote(_) => None,
    }
}

/// The bytes of a quoted text, where the tree is one.
pub fn quoted(tree: &TextTree) -> Option<&Name>
    ensures { MatchOption result ((text : List ℕ) → tree_of tree.now ≢ quote text)
        (λ text. tree_of tree.now ≡ quote text.now) }
{
    match tree {
        TextTree::Quote(text) => Some(text),
        TextTree::Word(_) | TextTree::List(_) => None,
    }
}

/// Whether the tree is this word.
pub fn is_word(tree: &TextTree, bytes: &[u8]) -> bool
    ensures { IsTrue result ↔ (tree_of tree.now ≡ word bytes.now) }
{
    match tree {
        TextTree::Word(word) => word.as_slice() == bytes,
        TextTree::Quote(_) | TextTree::List(_) => false,
    }
}

/// The trees behind the word, where the tree is a list that this word begins.
pub fn form_parts<'a>(tree: &'a TextTree, head: &[u8]) -> Option<&'a [TextTree]>
    ensures { MatchOption result
        ((ts : TextTrees) → tree_of tree.now ≢ list (more (word head.now) ts))
        (λ parts. tree_of tree.now ≡ list (more (word head.now) (trees_of parts.now))) }
{
    let trees = list_parts(tree)?;
    let (first, parts) = trees.split_first()?;
    if !is_word(first, head) {
        return None;
    }
    Some(parts)
}

/// Whether there are no trees.
pub fn are_none(trees: &[TextTree]) -> bool
    ensures { IsTrue result ↔ (trees_of trees.now ≡ none) }
{
    match trees.first() {
        None => true,
        Some(_) => false,
    }
}

/// The only tree, where there is one alone.
pub fn one(trees: &[TextTree]) -> Option<&TextTree>
    ensures { MatchOption result ((t : spec.TextTree) → trees_of trees.now ≢ more t none)
        (λ tree. trees_of trees.now ≡ more (tree_of tree.now) none) }
{
    let (tree, others) = trees.split_first()?;
    if !are_none(others) {
        return None;
    }
    Some(tree)
}

/// The two trees, where there are two.
pub fn two(trees: &[TextTree]) -> Option<(&TextTree, &TextTree)>
    ensures { MatchOption result
        ((t u : spec.TextTree) → trees_of trees.now ≢ more t (more u none))
        (λ pair. trees_of trees.now ≡ more (tree_of pair.0.now) (more (tree_of pair.1.now) none)) }
{
    let (first, others) = trees.split_first()?;
    let second = one(others)?;
    Some((first, second))
}

/// The three trees, where there are three.
pub fn three(trees: &[TextTree]) -> Option<(&TextTree, &TextTree, &TextTree)>
    ensures { MatchOption result
        ((t u v : spec.TextTree) → trees_of trees.now ≢ more t (more u (more v none)))
        (λ three. trees_of trees.now ≡ more (tree_of three.0.now) (more (tree_of three.1.now)
        (more (tree_of three.2.now) none))) }
{
    let (first, others) = trees.split_first()?;
    let (second, third) = two(others)?;
    Some((first, second, third))
}

/// The four trees, where there are four.
pub fn four(trees: &[TextTree]) -> Option<(&TextTree, &TextTree, &TextTree, &TextTree)>
    ensures { MatchOption result
        ((t u v w : spec.TextTree) → trees_of trees.now ≢ more t (more u (more v (more w none))))
        (λ four. trees_of trees.now ≡ more (tree_of four.0.now) (more (tree_of four.1.now)
        (more (tree_of four.2.now) (more (tree_of four.3.now) none)))) }
{
    let (first, others) = trees.split_first()?;
    let (second, others) = others.split_first()?;
    let (third, fourth) = two(others)?;
    Some((first, second, third, fourth))
}
