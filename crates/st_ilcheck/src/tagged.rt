//! Tags as templates with as many holes as operands.

ghost use Rattle.std.specs.Prelude.{◌≡◌, ◌↔◌, IsTrue, IfOk, All};
ghost use Rattle.st_il.specs.Template.{holes};
ghost use Rattle.st_ilcheck.specs.Declarations.{IsTag};

use crate::cited::Tagged;
use crate::declaring::is_length;
use st_il::{Template, template_of};
use st_num::{NoMemory, Row};
use st_semantics::push_holes;
use std::alloc::Global;

/// How many holes a template has.
fn holes(alloc: Global, template: &Template) -> Result<usize, NoMemory>
    ensures { IfOk result (λ count. count ≡ holes template.now) }
{
    let mut marks = Row::new(alloc);
    push_holes(template, true, &mut marks)?;
    Ok(marks.len())
}

/// Whether a tag is a template with as many holes as there are operands.
fn is_tag(alloc: Global, tagged: &Tagged) -> Result<bool, NoMemory>
    ensures { IfOk result (λ kept. IsTrue kept ↔ IsTag tagged.now) }
{
    let found = template_of(alloc, &tagged.0)?;
    match found {
        None => Ok(false),
        Some(template) => {
            let count = holes(alloc, &template)?;
            Ok(is_length(count, tagged.1))
        }
    }
}

/// Whether each tag is one.
pub(crate) fn are_tags(alloc: Global, tags: &[Tagged]) -> Result<bool, NoMemory>
    ensures { IfOk result (λ kept. IsTrue kept ↔ All IsTag tags.now) }
{
    for i in 0..tags.len() {
        let kept = is_tag(alloc, &tags[i])?;
        if !kept {
            return Ok(false);
        }
    }
    Ok(true)
}
