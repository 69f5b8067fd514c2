//! The elaboration of a source: its four phases, one behind another.

ghost use Rattle.std.specs.Prelude.{◌<◌, ◌^◌, length, IfOk};
ghost use Rattle.st_elab_def.specs.declared.breach.Breach.{Breach};
ghost use Rattle.st_elab_def.specs.declared.elaborated.Elaborated.{Elaborated};
ghost use Rattle.st_elab_def.specs.Answers.{Answers, IsGiven, IsRefused, HasTemplates};
ghost use Rattle.st_elab_def.specs.Breaches.{IsBreach};
ghost use Rattle.st_elab_def.specs.Elaboration.{IsElaborated};
ghost use Rattle.st_elab_def.specs.Erasing.{ErasesTo};
ghost use Rattle.st_elab_def.specs.Sources.{RepeatNoOtherwise};
ghost use Rattle.st_ilcheck.specs.Typed.{Typed};

use crate::assembly::assemble;
use crate::bodies::check_bodies;
use crate::breach::DefFault;
use crate::declarations::declarations;
use crate::elaborated::Elaborated;
use crate::joining::declared;
use crate::listing::syntaxes_in;
use crate::signatures::signatures;
use crate::tables::{decls_over, table_of};
use st_el::Def;
use std::alloc::Global;

/// The internal language of a source, or its first breach.
fn by_phases(alloc: Global, defs: &[Def]) -> Result<Elaborated, DefFault>
    requires { length defs.now < 2 ^ 32 }
    ensures { Answers defs.now result }
{
    declarations(alloc, defs)?;
    let declared = declared(alloc, defs)?;
    let syntaxes = syntaxes_in(alloc, declared.as_slice())?;
    check_bodies(alloc, defs, &syntaxes)?;
    let types = table_of(alloc, &syntaxes)?;
    let decls = decls_over(alloc, types, declared.as_slice())?;
    signatures(alloc, &decls.types, defs)?;
    assemble(alloc, &decls, declared, defs)
}

/// The internal language of a source, or its first breach (`docs/refusals.md`). The definitions of
/// all its files come in, in their order. So many that 32 bits do not count them, or that the table
/// of types cannot number their parts, are answered by want of memory.
pub fn elaborate(alloc: Global, defs: &[Def]) -> Result<Elaborated, DefFault>
    ensures answers { Answers defs.now result }
    ensures gives { (e : Elaborated) → IsElaborated defs.now e → IsGiven e result }
    ensures refuses { (b : Breach) → IsBreach defs.now b → IsRefused b result }
    ensures erased { HasTemplates defs.now → IfOk result (ErasesTo defs.now) }
    ensures typed { HasTemplates defs.now → RepeatNoOtherwise defs.now
        → IfOk result (λ e. Typed e.il) }
{
    if defs.len() > u32::MAX as usize {
        return Err(DefFault::Memory);
    }
    by_phases(alloc, defs)
}
