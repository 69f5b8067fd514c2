//! The trees of premises.

ghost use Rattle.std.specs.Prelude.{◌≡◌, ◌++◌, map, IfOk, OnOk};
ghost use Rattle.st_iltext.specs.Expressions.{prem_tree};
ghost use Rattle.st_text.specs.Trees.{tree_of};

use crate::expression::{exp_tree, iteration_tree, push_exps};
use crate::form::{headed, names_tree, quote_tree, ternary, unary};
use st_il::IlPrem;
use st_num::{NoMemory, Row};
use st_text::TextTree;
use std::alloc::Global;

/// The tree of a premise.
pub fn prem_tree(alloc: Global, prem: &IlPrem) -> Result<TextTree, NoMemory>
    ensures { IfOk result (λ tree. tree_of tree ≡ prem_tree prem.now) }
{
    match prem {
        IlPrem::If(exp) => unary(alloc, b"if", exp_tree(alloc, exp)?),
        IlPrem::Goal(relation, exps) => {
            let mut trees = headed(alloc, b"goal")?;
            trees.push(quote_tree(alloc, relation)?)?;
            push_exps(alloc, exps.as_slice(), &mut trees)?;
            Ok(TextTree::List(trees))
        }
        IlPrem::Otherwise => Ok(TextTree::List(headed(alloc, b"otherwise")?)),
        IlPrem::Each(count, names, inner) => {
            let count = iteration_tree(alloc, count)?;
            let names = names_tree(alloc, names.as_slice())?;
            ternary(alloc, b"each", count, names, prem_tree(alloc, inner.get())?)
        }
    }
}

/// Adds the trees of these premises.
pub fn push_prems(
    alloc: Global,
    prems: &[IlPrem],
    trees: &mut Row<TextTree>,
) -> Result<(), NoMemory>
    ensures { OnOk result
        (map tree_of trees.new ≡ map tree_of trees.old ++ map prem_tree prems.now) }
{
    for prem in prems {
        trees.push(prem_tree(alloc, prem)?)?;
    }
    Ok(())
}
