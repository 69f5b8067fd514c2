//! Texts that are no tags, and how high a template may be.

use st_il::{Template, template_of};
use st_num::{Name, NoMemory};
use std::alloc::Global;
use std::test::Fail;

/// The template that has this tag.
fn found(alloc: Global, tag: &[u8]) -> Result<Option<Template>, NoMemory> {
    let tag = Name::from_slice(alloc, tag)?;
    template_of(alloc, &tag)
}

const NO_TAGS: [&str; 29] = [
    "",
    " ",
    "red",
    "Red",
    "nat",
    "A  B",
    "A B ",
    " A",
    "A..B",
    "A.",
    ".A",
    "A.b",
    "1A",
    "%%",
    "% ->",
    "-> %",
    "-| %",
    "% .. % .. %",
    "% ~> % ~> %",
    "% |- |- %",
    "% : % |- % : % : %",
    "`[ % .. % )",
    "`[ ]",
    "`[ % ] ]",
    "( % )",
    "% = %",
    "% ++ %",
    "% * %",
    "%->%",
];

#[test]
fn texts_that_are_no_tags(rt: HostRuntime) -> Result<(), Fail> {
    for text in &NO_TAGS {
        let found = found(rt.alloc(), text.as_bytes())?;
        assert!(rt; found.is_none(), "{text}");
    }
    Ok(())
}

/// A tag of so many arrows.
fn arrows(alloc: Global, count: u8) -> Result<Vec<u8>, NoMemory> {
    let mut tag = Vec::from_slice(alloc, b"%")?;
    for _ in 0..count {
        tag.extend_from_slice(b" -> %")?;
    }
    Ok(tag)
}

#[test]
fn templates_up_to_the_height(rt: HostRuntime) -> Result<(), Fail> {
    for (count, wanted) in &[(99, true), (100, false)] {
        let tag = arrows(rt.alloc(), *count)?;
        let found = found(rt.alloc(), tag.as_slice())?;
        assert!(rt; found.is_some() == *wanted);
    }
    Ok(())
}
