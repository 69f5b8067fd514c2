//! Copies of lists of children.

ghost use Rattle.std.specs.Prelude.{◌≡◌, IfOk};

use st_il::{Child, copy_children};
use st_num::{NoMemory, Row};
use std::alloc::Global;

/// The same lists of children again.
pub(crate) fn copy_lists(alloc: Global, lists: &[Row<Child>]) -> Result<Row<Row<Child>>, NoMemory>
    ensures { IfOk result (λ copies. copies ≡ lists.now) }
{
    let mut copies = Row::new(alloc);
    for children in lists {
        copies.push(copy_children(alloc, children.as_slice())?)?;
    }
    Ok(copies)
}
