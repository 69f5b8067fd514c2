//! What is told of the internal language of a text.

use crate::citing::tell_citations;
use crate::lowering::tell_algos;
use crate::marking::tell_marks;
use crate::ordering::tell_first_rule;
use st_algo::lower;
use st_el::Def;
use st_elab_def::elaborate;
use st_il::Il;
use st_modes::{has_few, modes};
use st_num::{NoMemory, Token};
use st_order::Modes;
use st_parse::parse;
use st_scan::scan;
use std::alloc::Global;
use std::process::Abort;
use std::test::Fail;

/// What is called, over the internal language of a text.
#[derive(Clone, Copy)]
pub(crate) enum Call {
    /// `citations` and `group_numbers`: each name on a line, with the number of its group and the
    /// numbers of those that it cites.
    Citations,
    /// `modes`: the mark of each relation on a line, or a dash.
    Marks,
    /// `order_rule`, of the first rule of the first relation.
    FirstRule,
    /// `lower`: each rule and then each clause on a line, with its name and its steps.
    Algorithms,
}

/// Appends a word with a blank in front of it.
pub(crate) fn tell_word(word: &[u8], out: &mut Vec<u8>) -> Result<(), NoMemory> {
    out.push(b' ')?;
    out.extend_from_slice(word)?;
    Ok(())
}

/// Appends a number below 10, with a blank in front of it.
pub(crate) fn tell_number(number: usize, out: &mut Vec<u8>) -> Result<(), NoMemory> {
    tell_word(&[b'0' + (number % 10) as u8], out)
}

/// The modes of an internal language that breaks no rule of directions.
fn modes_of(alloc: Global, il: &Il) -> Result<Modes, NoMemory> {
    if !has_few(il) {
        return Err(NoMemory);
    }
    modes(alloc, il).map_err(|_| NoMemory)
}

fn tell_lowered(alloc: Global, il: &Il, modes: &Modes, out: &mut Vec<u8>) -> Result<(), NoMemory> {
    let algos = lower(alloc, il, modes)?;
    tell_algos(&algos, out)
}

fn tell_moded(alloc: Global, call: Call, il: &Il, out: &mut Vec<u8>) -> Result<(), NoMemory> {
    let modes = modes_of(alloc, il)?;
    match call {
        Call::Algorithms => tell_lowered(alloc, il, &modes, out),
        _ => tell_marks(modes.marks.as_slice(), out),
    }
}

fn tell_il(alloc: Global, call: Call, il: &Il, out: &mut Vec<u8>) -> Result<(), NoMemory> {
    match call {
        Call::Citations => tell_citations(alloc, il, out),
        Call::FirstRule => tell_first_rule(alloc, il, out),
        Call::Marks | Call::Algorithms => tell_moded(alloc, call, il, out),
    }
}

fn tell_defs(alloc: Global, call: Call, defs: &[Def], out: &mut Vec<u8>) -> Result<(), NoMemory> {
    let elaborated = elaborate(alloc, defs).map_err(|_| NoMemory)?;
    tell_il(alloc, call, &elaborated.il, out)
}

fn tell(alloc: Global, call: Call, tokens: &[Token], out: &mut Vec<u8>) -> Result<(), NoMemory> {
    let defs = parse(alloc, tokens).map_err(|_| NoMemory)?;
    tell_defs(alloc, call, defs.as_slice(), out)
}

fn told(rt: &impl Abort, alloc: Global, call: Call, text: &str) -> Result<Vec<u8>, Fail> {
    let bytes = text.as_bytes();
    assert!(rt; bytes.len() <= 1 << 20);
    let tokens = scan(alloc, 0, bytes)?;
    let mut out = Vec::new(alloc);
    tell(alloc, call, tokens.as_slice(), &mut out)?;
    Ok(out)
}

/// Each row is a text and what is told of it.
pub(crate) fn expect_all(
    rt: &impl Abort,
    alloc: Global,
    call: Call,
    rows: &[(&str, &str)],
) -> Result<(), Fail> {
    for (text, wanted) in rows {
        let out = told(rt, alloc, call, text)?;
        assert!(rt; out.as_slice() == wanted.as_bytes(), "{text}{wanted}");
    }
    Ok(())
}
