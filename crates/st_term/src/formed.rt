//! Expressions in which each record has the fields of its type, and each part that was left out is
//! of a list or an option.

ghost use Rattle.std.specs.Prelude.{OnOk};
ghost use Rattle.st_semantics.specs.Formed.{IsFormed, AreFormed};
ghost use Rattle.st_semantics.specs.References.{exps_now};
ghost use Rattle.st_term.specs.inner.FormsHad.{HasFieldCount, IsCollection};

use st_il::{IlExp, Ty};
use st_num::{Name, NoMemory};
use st_semantics::operands::{count_of, operands};
use st_type_table::TypeTable;
use std::alloc::Global;

/// The named type is a record with so many fields.
fn fields_fit(alloc: Global, types: &TypeTable, name: &Name, count: usize) -> Result<(), NoMemory>
    ensures { OnOk result (HasFieldCount types.now name.now count) }
{
    let ty = Ty::Name(name.copy(alloc)?);
    match types.fields(&ty) {
        Some(declared) => {
            if declared.len() == count {
                Ok(())
            } else {
                Err(NoMemory)
            }
        }
        None => Err(NoMemory),
    }
}

/// The type is a list or an option.
fn collection_fits(types: &TypeTable, ty: &Ty) -> Result<(), NoMemory>
    ensures { OnOk result (IsCollection types.now ty.now) }
{
    match types.meaning(ty) {
        Ty::List(_) => Ok(()),
        Ty::Opt(_) => Ok(()),
        _ => Err(NoMemory),
    }
}

/// The records and the parts that were left out in this expression fit their types. In what was
/// elaborated they do; where they did not, that would be answered as want of memory.
#[cycle(formed)]
pub(crate) fn formed(alloc: Global, exp: &IlExp, types: &TypeTable) -> Result<(), NoMemory>
    ensures { OnOk result (IsFormed types.now exp.now) }
{
    match exp {
        IlExp::Absent(ty) => collection_fits(types, ty),
        IlExp::Fields(name, parts) => {
            fields_fit(alloc, types, name, parts.len())?;
            let exps = operands(alloc, exp)?;
            all_formed(alloc, exps.as_slice(), types)
        }
        IlExp::Iter(how, _, body) => {
            let exps = count_of(alloc, how)?;
            all_formed(alloc, exps.as_slice(), types)?;
            formed(alloc, body.get(), types)
        }
        _ => {
            let exps = operands(alloc, exp)?;
            all_formed(alloc, exps.as_slice(), types)
        }
    }
}

/// So do those in each of these expressions.
#[cycle(formed)]
fn all_formed(alloc: Global, exps: &[&IlExp], types: &TypeTable) -> Result<(), NoMemory>
    ensures { OnOk result (AreFormed types.now (exps_now exps.now)) }
{
    for i in 0..exps.len() {
        formed(alloc, exps[i], types)?;
    }
    Ok(())
}
