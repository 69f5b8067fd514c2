//! The fields of a record.

ghost use Rattle.std.specs.Prelude.{◌≡◌, IfOk};
ghost use Rattle.std.specs.Option.{option_copied};
ghost use Rattle.std.specs.Map.{lookup};
ghost use Rattle.st_num.specs.Names.{same_name};
ghost use Rattle.st_elab_table.specs.Records.{field_types};

use st_il::{Ty, copy_ty};
use st_num::{Name, NoMemory, Row};
use std::alloc::Global;

/// The types of fields.
pub fn field_types(alloc: Global, fields: &[(Name, Ty)]) -> Result<Row<Ty>, NoMemory>
    ensures { IfOk result (λ types. types ≡ field_types fields.now) }
{
    let mut types = Row::new(alloc);
    for field in fields {
        types.push(copy_ty(alloc, &field.1)?)?;
    }
    Ok(types)
}

/// The type of the field of this name.
pub fn field_named<'a>(fields: &'a [(Name, Ty)], name: &Name) -> Option<&'a Ty>
    ensures { option_copied result ≡ lookup (same_name name.now) fields.now }
{
    for field in fields {
        if *name == field.0 {
            return Some(&field.1);
        }
    }
    None
}
