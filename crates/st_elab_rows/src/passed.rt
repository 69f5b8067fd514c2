//! The variants at which an expression is being asked already.

ghost use Rattle.std.specs.Prelude.{◌≡◌, IfOk};
ghost use Rattle.st_elab_table.specs.Records.{passed_on};

use st_num::{Name, NoMemory, Row, copy_names};
use std::alloc::Global;

/// At which variants what fills the holes of a case of this variant is being asked already.
pub fn passed_on(
    alloc: Global,
    whole: bool,
    passed: &[Name],
    variant: &Name,
) -> Result<Row<Name>, NoMemory>
    ensures { IfOk result (λ names. names ≡ passed_on whole passed.now variant.now) }
{
    if !whole {
        return Ok(Row::new(alloc));
    }
    let mut names = copy_names(alloc, passed)?;
    names.push(variant.copy(alloc)?)?;
    Ok(names)
}
