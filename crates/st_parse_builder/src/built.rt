//! What is built of a part, and of several parts together.

ghost use Rattle.std.specs.Prelude.{◌≡◌, [], ◌∷◌, ◌++◌, max, Some, IfOk};
ghost use Rattle.st_parse_builder.specs.inner.Parts as spec;

use crate::list::more;
use st_num::{HIGHEST_TREE, NoMemory, Row};
use std::alloc::Global;

/// A part: its tree where that is at most 100 high, its height, which is 101 where it is higher, and
/// how many variables are seen before its own. A type and a notation have none.
#[derive(Drop)]
pub struct Built<T> {
    pub tree: Option<T>,
    pub height: u8,
    pub from: usize,
}

/// A part without a tree, as what is too high has none.
pub(crate) fn untold<T>(from: usize) -> Built<T>
    ensures { result ≡ spec.untold from }
{
    Built {
        tree: None,
        height: HIGHEST_TREE + 1,
        from,
    }
}

/// The larger of two heights.
pub fn higher(left: u8, right: u8) -> u8
    ensures { result ≡ max left right }
{
    if left < right { right } else { left }
}

/// The height of what has parts of this height.
pub fn above(parts: u8) -> u8
    ensures { result ≡ spec.above parts }
{
    if parts > HIGHEST_TREE {
        HIGHEST_TREE + 1
    } else {
        parts + 1
    }
}

/// The tree, where it may be so high.
fn kept<T: Drop>(height: u8, tree: Option<T>) -> Option<T>
    ensures { result ≡ spec.kept height tree }
{
    if height > HIGHEST_TREE { None } else { tree }
}

/// The parts of what is one higher than they are.
pub(crate) fn raise<T: Drop>(part: Built<T>) -> Built<T>
    ensures { result ≡ spec.raised part }
{
    let Built { tree, height, from } = part;
    let height = above(height);
    Built {
        tree: kept(height, tree),
        height,
        from,
    }
}

/// Both trees, where both are there.
fn both_trees<A: Drop, B: Drop>(left: Option<A>, right: Option<B>) -> Option<(A, B)>
    ensures { result ≡ spec.both_trees left right }
{
    let Some(left) = left else {
        return None;
    };
    let Some(right) = right else {
        return None;
    };
    Some((left, right))
}

/// Two parts, of which the left one begins first.
pub(crate) fn both<A: Drop, B: Drop>(left: Built<A>, right: Built<B>) -> Built<(A, B)>
    ensures { result ≡ spec.both left right }
{
    let height = higher(left.height, right.height);
    let from = left.from;
    Built {
        tree: both_trees(left.tree, right.tree),
        height,
        from,
    }
}

/// No parts yet.
pub fn no_parts<T>(alloc: Global) -> Built<Row<T>>
    ensures { result ≡ record { tree = Some []; height = 0; from = 0 } }
{
    Built {
        tree: Some(Row::new(alloc)),
        height: 0,
        from: 0,
    }
}

/// Parts with one more.
pub fn with_part<T: Drop>(parts: Built<Row<T>>, part: Built<T>) -> Result<Built<Row<T>>, NoMemory>
    ensures { IfOk result (λ all. all ≡ spec.over (λ x. x.0 ++ x.1 ∷ []) (spec.both parts part)) }
{
    let Built { tree, height, from } = both(parts, part);
    let tree = match tree {
        None => None,
        Some((row, item)) => Some(more(row, item)?),
    };
    Ok(Built { tree, height, from })
}
