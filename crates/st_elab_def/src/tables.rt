//! The declarations of an internal language, with the table of its types.

ghost use Rattle.std.specs.Prelude.{◌≡◌, IfOk};
ghost use Rattle.st_type_table.specs.Breach.{IsSound};
ghost use Rattle.st_elab_law.specs.Agreement.{decls_in, syntaxes};

use crate::listing::{funs_in, relations_in, syntaxes_in, vars_in};
use st_elab_table::{Decls, NamedRow};
use st_il::{Il, IlDef, SyntaxDef};
use st_num::{NoMemory, Row};
use st_type_table::{TypeFault, TypeTable};
use std::alloc::Global;

/// The table of these syntaxes.
pub(crate) fn table_of(alloc: Global, syntaxes: &Row<SyntaxDef>) -> Result<TypeTable, NoMemory>
    requires { IsSound syntaxes.now }
    ensures { IfOk result (λ types. types ≡ syntaxes.now) }
{
    if !TypeTable::can_build(syntaxes) {
        return Err(NoMemory);
    }
    match TypeTable::build(alloc, syntaxes) {
        Ok(types) => Ok(types),
        Err(TypeFault::Memory) => Err(NoMemory),
        Err(
            TypeFault::Refused {
                syntax: _syntax,
                broken: _broken,
            },
        ) => unreachable!(),
    }
}

/// What definitions declare, over the table of their types.
pub(crate) fn decls_over(alloc: Global, types: TypeTable, defs: &[IlDef]) -> Result<Decls, NoMemory>
    requires { types ≡ syntaxes defs.now }
    ensures { IfOk result (λ decls. decls ≡ decls_in defs.now) }
{
    let vars = NamedRow::of(alloc, vars_in(alloc, defs)?)?;
    let funs = NamedRow::of(alloc, funs_in(alloc, defs)?)?;
    let relations = NamedRow::of(alloc, relations_in(alloc, defs)?)?;
    Ok(Decls {
        types,
        vars,
        funs,
        relations,
    })
}

/// The declarations of an internal language whose syntaxes break no rule. So many syntaxes, or a
/// syntax with so many parts, that 32 bits do not count them are answered by want of memory.
pub fn decls(alloc: Global, il: &Il) -> Result<Decls, NoMemory>
    requires { IsSound (syntaxes il.now.defs) }
    ensures { IfOk result (λ decls. decls ≡ decls_in il.now.defs) }
{
    let defs = il.defs.as_slice();
    let syntaxes = syntaxes_in(alloc, defs)?;
    let types = table_of(alloc, &syntaxes)?;
    decls_over(alloc, types, defs)
}
