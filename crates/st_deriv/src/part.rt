//! What one text tree of a line stands for.

ghost use Rattle.std.specs.Prelude.{◌≡◌, ◌↔◌, IsTrue, MatchOption, ◌^◌, ◌<◌, decimal};
ghost use Rattle.st_text.specs.Text.{word, quote, list, none};
ghost use Rattle.st_text.specs.Trees.{tree_of, trees_of};
ghost use Rattle.st_deriv.specs.LineText.{IsRelationName, case_tree, ending_word};
ghost use Rattle.st_deriv.specs.inner.Reading.{IsNoQuote, IsNoList, IsNoCase};
ghost use Rattle.st_deriv.specs.inner.Reading.{IsNoRelation, IsNoNumber, IsNoEnding};

use crate::Ending;
use crate::name::is_relation_name;
use st_text::{TextTree, read_natural};

/// Whether the tree is this word.
pub(crate) fn is_word(tree: &TextTree, text: &[u8]) -> bool
    ensures { IsTrue result ↔ (tree_of tree.now ≡ word text.now) }
{
    match tree {
        TextTree::Word(name) => name.as_slice() == text,
        TextTree::Quote(_) | TextTree::List(_) => false,
    }
}

/// Whether the tree is a list of none.
pub(crate) fn is_empty_list(tree: &TextTree) -> bool
    ensures { IsTrue result ↔ (tree_of tree.now ≡ list none) }
{
    match tree {
        TextTree::List(trees) => trees.is_empty(),
        TextTree::Word(_) | TextTree::Quote(_) => false,
    }
}

/// The text between quotes that the tree is.
pub(crate) fn quote_of(tree: &TextTree) -> Option<&[u8]>
    ensures { MatchOption result (IsNoQuote (tree_of tree.now))
        (λ text. tree_of tree.now ≡ quote text.now) }
{
    match tree {
        TextTree::Quote(text) => Some(text.as_slice()),
        TextTree::Word(_) | TextTree::List(_) => None,
    }
}

/// The trees of the list that the tree is.
pub(crate) fn list_of(tree: &TextTree) -> Option<&[TextTree]>
    ensures { MatchOption result (IsNoList (tree_of tree.now))
        (λ trees. tree_of tree.now ≡ list (trees_of trees.now)) }
{
    match tree {
        TextTree::List(trees) => Some(trees.as_slice()),
        TextTree::Word(_) | TextTree::Quote(_) => None,
    }
}

/// The tag of the case without operands that the tree is.
pub(crate) fn case_of(tree: &TextTree) -> Option<&[u8]>
    ensures { MatchOption result (IsNoCase (tree_of tree.now))
        (λ tag. tree_of tree.now ≡ case_tree tag.now) }
{
    let trees = list_of(tree)?;
    let [kind, tag] = trees else {
        return None;
    };
    if !is_word(kind, b"c") {
        return None;
    }
    let tag = quote_of(tag)?;
    Some(tag)
}

/// The name of a relation that the tree is.
pub(crate) fn relation_of(tree: &TextTree) -> Option<&[u8]>
    ensures { MatchOption result (IsNoRelation (tree_of tree.now))
        (λ name. IsRelationName name.now × (tree_of tree.now ≡ word name.now)) }
{
    match tree {
        TextTree::Word(name) if is_relation_name(name.as_slice()) => Some(name.as_slice()),
        _ => None,
    }
}

/// The number below 2^128 that the tree is.
pub(crate) fn number_of(tree: &TextTree) -> Option<u128>
    ensures { MatchOption result (IsNoNumber (tree_of tree.now))
        (λ n. tree_of tree.now ≡ word (decimal n)) }
{
    match tree {
        TextTree::Word(digits) => read_natural(digits.as_slice()),
        TextTree::Quote(_) | TextTree::List(_) => None,
    }
}

/// The end of a run that the tree is.
pub(crate) fn ending_of(tree: &TextTree) -> Option<Ending>
    ensures { MatchOption result (IsNoEnding (tree_of tree.now))
        (λ ending. tree_of tree.now ≡ word (ending_word ending)) }
{
    if is_word(tree, b"stuck") {
        return Some(Ending::Stuck);
    }
    if is_word(tree, b"fuel") {
        return Some(Ending::Fuel);
    }
    if is_word(tree, b"depth") {
        return Some(Ending::Depth);
    }
    None
}
