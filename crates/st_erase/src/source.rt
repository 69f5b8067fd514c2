//! The two calls: erasure of expressions and of specifications.

ghost use Rattle.std.specs.Prelude.{◌≡◌, IfOk};
ghost use Rattle.st_erase.specs.Definitions.{erased_defs};
ghost use Rattle.st_erase.specs.Erasure.{erased_exp};
ghost use Rattle.st_il.specs.Tags.{template_of, AreTemplates};

use crate::definition::erased_def;
use crate::expression::Eraser;
use st_el::{Def, Exp};
use st_il::{Il, IlExp};
use st_num::{NoMemory, Row};
use std::alloc::Global;

/// The source that an expression was written as: without injections, one-element lifts, names of
/// iterations and parts that were left out. The clause `templates` says that the templates by
/// which cases are written are those of their tags.
pub fn erase_exp(alloc: Global, il: &Il, exp: &IlExp) -> Result<Exp, NoMemory>
    ensures source { IfOk result (λ source. source ≡ erased_exp il.now exp.now) }
    ensures templates { AreTemplates template_of }
{
    let defs = il.defs.as_slice();
    let eraser = Eraser { alloc, defs };
    let source = eraser.whole(exp)?;
    Ok(source)
}

/// The source that a specification was written as.
pub fn erase(alloc: Global, il: &Il) -> Result<Row<Def>, NoMemory>
    ensures { IfOk result (λ defs. defs ≡ erased_defs il.now) }
{
    let defs = il.defs.as_slice();
    let eraser = Eraser { alloc, defs };
    let mut found = Row::new(alloc);
    for def in defs {
        found.push(erased_def(&eraser, def)?)?;
    }
    Ok(found)
}
