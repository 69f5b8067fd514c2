//! The text of an internal language.

ghost use Rattle.std.specs.Prelude.{◌≡◌, ◌++◌, OnOk, OnErr};
ghost use Rattle.st_iltext.specs.IlText.{definition_line, HasIlText, il_text, IlText};
ghost use Rattle.st_text.specs.Printing.{IsCutOff};

use crate::definition::definition_tree;
use st_il::{Il, IlDef};
use st_num::NoMemory;
use st_text::print_tree;
use std::alloc::Global;

/// Appends the line of a definition.
fn print_line(alloc: Global, def: &IlDef, out: &mut Vec<u8>) -> Result<(), NoMemory>
    ensures ok { OnOk result (out.new.items ≡ out.old.items ++ definition_line def.now) }
    ensures err { OnErr result (IsCutOff out.old.items (definition_line def.now) out.new.items) }
{
    let tree = definition_tree(alloc, def)?;
    print_tree(&tree, out)?;
    out.push(b'\n')?;
    Ok(())
}

/// Appends the text of the internal language, a line for each definition.
///
/// Where a definition has no text, what is appended is no text of an internal language.
pub fn print_il(alloc: Global, il: &Il, out: &mut Vec<u8>) -> Result<(), NoMemory>
    ensures ok { OnOk result (out.new.items ≡ out.old.items ++ il_text il.now) }
    ensures err { OnErr result (IsCutOff out.old.items (il_text il.now) out.new.items) }
    ensures text { HasIlText il.now → IlText il.now (il_text il.now) }
{
    for def in il.defs.as_slice() {
        print_line(alloc, def, out)?;
    }
    Ok(())
}
