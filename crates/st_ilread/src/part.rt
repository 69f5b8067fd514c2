//! Trees at the front of others.

ghost use Rattle.std.specs.Prelude.{◌≡◌, ◌≢◌, MatchOption};
ghost use Rattle.st_text.specs.Text as spec;
ghost use Rattle.st_text.specs.Text.{TextTrees, more};
ghost use Rattle.st_text.specs.Trees.{tree_of, trees_of};

use st_text::TextTree;

/// The first tree, and those behind it.
pub fn behind_one(trees: &[TextTree]) -> Option<(&TextTree, &[TextTree])>
    ensures { MatchOption result
        ((t : spec.TextTree) (ts : TextTrees) → trees_of trees.now ≢ more t ts)
        (λ read. trees_of trees.now ≡ more (tree_of read.0.now) (trees_of read.1.now)) }
{
    let (first, others) = trees.split_first()?;
    Some((first, others))
}

/// The first two trees, and those behind them.
pub fn behind_two(trees: &[TextTree]) -> Option<(&TextTree, &TextTree, &[TextTree])>
    ensures { MatchOption result
        ((t u : spec.TextTree) (ts : TextTrees) → trees_of trees.now ≢ more t (more u ts))
        (λ read. trees_of trees.now
        ≡ more (tree_of read.0.now) (more (tree_of read.1.now) (trees_of read.2.now))) }
{
    let (first, others) = behind_one(trees)?;
    let (second, others) = behind_one(others)?;
    Some((first, second, others))
}
