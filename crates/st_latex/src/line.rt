//! A definition is a line of LaTeX.

ghost use Rattle.std.specs.Prelude.{◌≡◌, ◌++◌, OnOk, OnErr};
ghost use Rattle.st_latex.specs.LatexText.{line, latex_text};

use crate::definition::print_def_node;
use st_el::Def;
use st_num::NoMemory;
use std::alloc::Global;

/// Appends the line of a definition.
fn print_line(def: &Def, out: &mut Vec<u8>) -> Result<(), NoMemory>
    ensures { OnOk result (out.new.items ≡ out.old.items ++ line def.now) }
{
    out.extend_from_slice(b"\\[")?;
    print_def_node(&def.node, out)?;
    out.extend_from_slice(b" \\]\n")?;
    Ok(())
}

/// Appends the lines of definitions.
fn print_lines(defs: &[Def], out: &mut Vec<u8>) -> Result<(), NoMemory>
    ensures { OnOk result (out.new.items ≡ out.old.items ++ latex_text defs.now) }
{
    for def in defs {
        print_line(def, out)?;
    }
    Ok(())
}

/// Appends the LaTeX text of definitions. Where memory is wanting nothing is appended.
pub fn latex(alloc: Global, defs: &[Def], out: &mut Vec<u8>) -> Result<(), NoMemory>
    ensures ok { OnOk result (out.new.items ≡ out.old.items ++ latex_text defs.now) }
    ensures err { OnErr result (out.new.items ≡ out.old.items) }
{
    let mut text = Vec::new(alloc);
    print_lines(defs, &mut text)?;
    out.extend_from_slice(text.as_slice())?;
    Ok(())
}
