//! The holes of a template, counted by marks.

ghost use Rattle.std.specs.Prelude.{◌≡◌, ◌++◌, map, sum, replicate, OnOk};
ghost use Rattle.st_il.specs.Template.{holes};

use st_il::Template;
use st_num::{NoMemory, Row};

/// Adds, for each hole of a template, whether it is an input.
#[cycle(push_holes)]
pub fn push_holes(template: &Template, input: bool, mask: &mut Row<bool>) -> Result<(), NoMemory>
    ensures { OnOk result (mask.new ≡ mask.old ++ replicate (holes template.now) input) }
{
    match template {
        Template::Atom(_) => Ok(()),
        Template::Hole => mask.push(input),
        Template::Seq(parts) => push_all_holes(parts.as_slice(), input, mask),
        Template::Infix(left, _, right) => {
            push_holes(left.get(), input, mask)?;
            push_holes(right.get(), input, mask)?;
            Ok(())
        }
        Template::Bracket(_, inside) => push_holes(inside.get(), input, mask),
    }
}

/// Adds, for each hole of several templates, whether it is an input.
#[cycle(push_holes)]
fn push_all_holes(parts: &[Template], input: bool, mask: &mut Row<bool>) -> Result<(), NoMemory>
    ensures { OnOk result (mask.new ≡ mask.old ++ replicate (sum (map holes parts.now)) input) }
{
    for part in parts {
        push_holes(part, input, mask)?;
    }
    Ok(())
}
