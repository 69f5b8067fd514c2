//! What definitions in text cite, and the numbers of their groups.

use crate::told::{Call, expect_all, tell_number};
use st_deps::{citations, group_numbers};
use st_il::Il;
use st_num::{Name, NoMemory};
use std::alloc::Global;
use std::test::Fail;

fn tell_row(
    name: &Name,
    number: usize,
    cited: &[usize],
    out: &mut Vec<u8>,
) -> Result<(), NoMemory> {
    out.extend_from_slice(name.as_slice())?;
    tell_number(number, out)?;
    for other in cited {
        tell_number(*other, out)?;
    }
    out.push(b'\n')?;
    Ok(())
}

pub(crate) fn tell_citations(alloc: Global, il: &Il, out: &mut Vec<u8>) -> Result<(), NoMemory> {
    let table = citations(alloc, il)?;
    let numbers = group_numbers(alloc, il)?;
    for (at, name) in table.names.as_slice().iter().enumerate() {
        if let (Some(number), Some(row)) = (numbers.get(at), table.rows.get(at)) {
            tell_row(name, *number, row.as_slice(), out)?;
        }
    }
    Ok(())
}

const CITATIONS: [(&str, &str); 2] = [
    (
        "syntax a = | A b?\nsyntax b = | B a?\nsyntax c = | C a\n",
        "a 0 1\nb 0 0\nc 1 0\n",
    ),
    (
        "def $f(s) : s\nsyntax s = | S\nvar x : s\n",
        "$f 1 1 1\ns 0\n",
    ),
];

#[test]
fn citations_and_numbers(rt: HostRuntime) -> Result<(), Fail> {
    expect_all(&rt, rt.alloc(), Call::Citations, &CITATIONS)
}
