//! How names are read from text trees.

ghost use Rattle.std.specs.Prelude.{◌≡◌};
ghost use Rattle.std.specs.Ordering.{is_le};
ghost use Rattle.st_il.specs.Order.{text_cmp};
ghost use Rattle.st_iltext.specs.Expressions.{names};
ghost use Rattle.st_iltext.specs.Written.{are_in_order};
ghost use Rattle.st_iltext.specs.inner.Reading.{Reads, ReadsAll};
ghost use Rattle.st_ilread.specs.inner.Parts.{any};
ghost use Rattle.st_text.specs.Text.{quote};
ghost use Rattle.st_text.specs.Trees.{tree_of, trees_of};

use st_iltext::fault::MALFORMED;
use st_iltext::shape::{list_parts, quoted};
use st_num::{Name, Row};
use st_text::{TextFault, TextTree};
use std::alloc::Global;

/// The name that the tree quotes.
pub fn read_name(alloc: Global, tree: &TextTree) -> Result<Name, TextFault>
    ensures { Reads quote any (tree_of tree.now) result }
{
    let Some(name) = quoted(tree) else {
        return Err(MALFORMED);
    };
    Ok(name.copy(alloc)?)
}

/// The names that the trees quote.
fn read_quotes(alloc: Global, trees: &[TextTree]) -> Result<Row<Name>, TextFault>
    ensures { ReadsAll quote any (trees_of trees.now) result }
{
    let mut names = Row::new(alloc);
    for tree in trees {
        names.push(read_name(alloc, tree)?)?;
    }
    Ok(names)
}

/// Whether the second name may stand behind the first.
pub fn follows(before: &Name, name: &Name) -> bool
    ensures { result ≡ is_le (text_cmp before.now name.now) }
{
    before.cmp(name).is_le()
}

/// Whether the names stand in byte order.
fn are_in_order(names: &[Name]) -> bool
    ensures { result ≡ are_in_order names.now }
{
    let Some((first, others)) = names.split_first() else {
        return true;
    };
    let mut before = first;
    for name in others {
        if !follows(before, name) {
            return false;
        }
        before = name;
    }
    true
}

/// The names that the tree lists, in byte order.
pub fn read_names(alloc: Global, tree: &TextTree) -> Result<Row<Name>, TextFault>
    ensures { Reads names are_in_order (tree_of tree.now) result }
{
    let Some(trees) = list_parts(tree) else {
        return Err(MALFORMED);
    };
    let names = read_quotes(alloc, trees)?;
    if !are_in_order(names.as_slice()) {
        return Err(MALFORMED);
    }
    Ok(names)
}
