//! What a command answers and writes where a load or a write fails, and how long runs end.

use st_num::{Name, NoMemory, Row};
use st_outside::{MemFiles, MemSink};
use st_tool::{Status, serve};
use std::alloc::{AllocError, Global};
use std::process::Abort;
use std::test::Fail;

const LIGHT: &str = "syntax color = | RED | GREEN | AMBER\nrelation T: color ~> color\n\
    rule T/a: RED ~> GREEN\nrule T/b: GREEN ~> AMBER\n";

const LOOP: &str = "syntax color = | RED | GREEN | AMBER\nrelation T: color ~> color\n\
    rule T/a: RED ~> GREEN\nrule T/b: GREEN ~> RED\n";

const LIGHT_RUN: &str = "0 RED\n1 GREEN\n2 AMBER\nstuck after 2 steps\n";

const LIGHT_LINES: &str = "derivation 1 T\nfrom (c \"RED\")\n\
    node \"T\" \"a\" () () ((c \"RED\") (c \"GREEN\"))\nstep 3\n\
    node \"T\" \"b\" () () ((c \"GREEN\") (c \"AMBER\"))\nstep 5\nend stuck\n";

const FILES: [(&str, &str); 4] = [
    ("red", "RED"),
    ("query", "$(1 + 2)"),
    ("light", LIGHT),
    ("loop", LOOP),
];

/// The files, of which the load of this number fails.
fn files_of(alloc: Global, fails: u64) -> Result<MemFiles, NoMemory> {
    let mut entries = Row::new(alloc);
    for (name, text) in &FILES {
        let name = Name::from_slice(alloc, name.as_bytes())?;
        entries.push((name, Row::from_slice(alloc, text.as_bytes())?))?;
    }
    Ok(MemFiles::new(entries, Row::from_slice(alloc, &[fails])?))
}

fn words_of(alloc: Global, text: &str) -> Result<Vec<String>, AllocError> {
    let mut words = Vec::new(alloc);
    for word in text.split_whitespace() {
        words.push(String::from_str(alloc, word)?)?;
    }
    Ok(words)
}

/// What the words answer, and the sink: the load of this number fails, and the sink has this room.
fn served(
    alloc: Global,
    words: &str,
    fails: u64,
    room: u64,
) -> Result<(Status, MemSink), NoMemory> {
    let words = words_of(alloc, words)?;
    let mut files = files_of(alloc, fails)?;
    let mut out = MemSink::new(alloc, room)?;
    let status = serve(alloc, &words, &mut files, &mut out);
    Ok((status, out))
}

const LOADS: [(&str, u64, &str); 4] = [
    ("run T red light", 0, "load failed red\n"),
    ("run T red light", 1, "load failed light\n"),
    ("eval query light", 0, "load failed query\n"),
    ("eval query light", 1, "load failed light\n"),
];

#[test]
fn a_failed_load_is_named(rt: HostRuntime) -> Result<(), Fail> {
    for (words, number, printed) in &LOADS {
        let (status, out) = served(rt.alloc(), words, *number, 1000)?;
        assert!(rt; status == Status::Load && out.taken.as_slice() == printed.as_bytes());
    }
    Ok(())
}

#[test]
fn a_derivation_without_end_uses_up_its_fuel(rt: HostRuntime) -> Result<(), Fail> {
    let (status, out) = served(rt.alloc(), "derive T red loop", 99, 100_000)?;
    let end = b"\nstep 2001\nend fuel\n".as_slice();
    assert!(rt; status == Status::Fuel && out.taken.as_slice().ends_with(end));
    Ok(())
}

/// With less room than the text has, its front is written.
fn expect_fronts(rt: &impl Abort, alloc: Global, words: &str, printed: &[u8]) -> Result<(), Fail> {
    for room in 0..printed.len() {
        let (status, out) = served(alloc, words, 99, room as u64)?;
        assert!(rt; status == Status::Write && out.taken.as_slice() == &printed[..room]);
    }
    Ok(())
}

#[test]
fn a_failed_write_leaves_the_front(rt: HostRuntime) -> Result<(), Fail> {
    let alloc = rt.alloc();
    expect_fronts(&rt, alloc, "run T red light", LIGHT_RUN.as_bytes())?;
    expect_fronts(&rt, alloc, "eval query light", b"3\n")?;
    expect_fronts(&rt, alloc, "derive T red light", LIGHT_LINES.as_bytes())
}
