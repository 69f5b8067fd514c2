//! The one call: the prose of an internal language and its algorithms.

ghost use Rattle.std.specs.Prelude.{◌≡◌, ◌++◌, OnOk, OnErr};
ghost use Rattle.st_prose.specs.ProseText.{prose_text};

use crate::clause::print_functions;
use crate::rule::print_relations;
use st_algo::Algos;
use st_il::Il;
use st_index::{Index, index_of};
use st_num::NoMemory;
use std::alloc::Global;

/// Appends the prose of an indexed language. Where memory is wanting nothing is appended.
fn print_prose(
    alloc: Global,
    index: &Index,
    algos: &Algos,
    out: &mut Vec<u8>,
) -> Result<(), NoMemory>
    ensures ok { OnOk result (out.new.items ≡ out.old.items ++ prose_text index.now algos.now) }
    ensures err { OnErr result (out.new.items ≡ out.old.items) }
{
    let mut text = Vec::new(alloc);
    print_relations(alloc, index, algos, &mut text)?;
    print_functions(alloc, index, algos, &mut text)?;
    out.extend_from_slice(text.as_slice())?;
    Ok(())
}

/// Appends the prose of an internal language and its algorithms: relations, and then functions.
/// Where memory is wanting nothing is appended.
pub fn prose(alloc: Global, il: &Il, algos: &Algos, out: &mut Vec<u8>) -> Result<(), NoMemory>
    ensures ok { OnOk result (out.new.items ≡ out.old.items ++ prose_text il.now algos.now) }
    ensures err { OnErr result (out.new.items ≡ out.old.items) }
{
    let index = index_of(alloc, il)?;
    print_prose(alloc, &index, algos, out)
}
