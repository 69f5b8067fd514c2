//! Copies of trees.

ghost use Rattle.std.specs.Prelude.{◌≡◌, IfOk};

use crate::copy::{copy_env, copy_values};
use crate::{Child, Tree};
use st_num::{Boxed, NoMemory, Row};
use std::alloc::Global;

/// The same tree again.
#[cycle(copy)]
pub fn copy_tree(alloc: Global, tree: &Tree) -> Result<Tree, NoMemory>
    ensures { IfOk result (λ copy. copy ≡ tree.now) }
{
    let env = copy_env(alloc, &tree.env)?;
    let values = copy_values(alloc, tree.values.as_slice())?;
    let children = copy_children(alloc, tree.children.as_slice())?;
    Ok(Tree {
        relation: tree.relation,
        rule: tree.rule,
        env,
        values,
        children,
    })
}

/// The same child again.
#[cycle(copy)]
fn copy_child(alloc: Global, child: &Child) -> Result<Child, NoMemory>
    ensures { IfOk result (λ copy. copy ≡ child.now) }
{
    match child {
        Child::One(tree) => Ok(Child::One(Boxed::new(alloc, copy_tree(alloc, tree.get())?)?)),
        Child::Many(children) => Ok(Child::Many(copy_children(alloc, children.as_slice())?)),
    }
}

/// The same children again.
#[cycle(copy)]
pub fn copy_children(alloc: Global, children: &[Child]) -> Result<Row<Child>, NoMemory>
    ensures { IfOk result (λ copies. copies ≡ children.now) }
{
    let mut copies = Row::new(alloc);
    for child in children {
        copies.push(copy_child(alloc, child)?)?;
    }
    Ok(copies)
}
