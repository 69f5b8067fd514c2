//! What is found on the way, and what is kept of it.

ghost use Rattle.std.specs.Prelude.{◌≡◌, ◌⊎◌, ◌++◌, ◌≤◌, [], IfOk};

use st_il::{Child, Env};
use st_num::{NoMemory, Row};
use std::alloc::Global;

/// What a premise binds where it is run, and what stands for it in a tree.
#[derive(Drop)]
pub(crate) struct Solution {
    /// The variables of the premise; what was bound before may be left out.
    pub(crate) env: Env,
    /// One child, or none for a premise that cites no relation.
    pub(crate) children: Row<Child>,
}

/// What an iterated premise binds at its elements.
#[derive(Drop)]
pub(crate) struct Walk {
    /// The variables of the inner premise, one environment for each element.
    pub(crate) envs: Row<Env>,
    /// What stands for the inner premise at the elements.
    pub(crate) children: Row<Child>,
}

/// How far a rule is run.
#[derive(Drop)]
pub(crate) struct Partial {
    /// All variables that are bound; of two entries of one name the first counts.
    pub(crate) env: Env,
    /// What stands for each premise that was run, in the order in which they are run.
    pub(crate) children: Row<Row<Child>>,
}

/// What is found, and how far goals lead that were asked for it.
#[derive(Drop)]
pub(crate) struct Found<T> {
    pub(crate) items: Row<T>,
    /// The most goals of which each follows the one before it, where the first one was asked.
    pub(crate) longest: u32,
}

/// Nothing, where no goal was asked.
pub(crate) fn nothing<T>(alloc: Global) -> Found<T>
    ensures items { result.items ≡ [] }
    ensures longest { result.longest ≡ 0 }
{
    let items = Row::new(alloc);
    Found { items, longest: 0 }
}

/// The greater of two numbers.
pub(crate) fn greater(a: u32, b: u32) -> u32
    ensures first { a ≤ result }
    ensures second { b ≤ result }
    ensures one { (result ≡ a) ⊎ (result ≡ b) }
{
    if a < b { b } else { a }
}

/// The elements of the first row, and then those of the second one.
pub(crate) fn joined<T: Drop>(first: Row<T>, second: Row<T>) -> Result<Row<T>, NoMemory>
    ensures { IfOk result (λ row. row ≡ first ++ second) }
{
    let mut items = first.into_vec();
    let mut more = second.into_vec();
    items.append(&mut more)?;
    Ok(Row::from_vec(items))
}
