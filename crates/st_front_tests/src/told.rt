//! What a call of the front tells of a text.

use crate::places::tell_places;
use st_el::{Body, Def, DefNode, Exp, Hint, plain, print_el};
use st_num::{Name, NoMemory, Num, Row, RuleId, Span, Token, TokenKind, print_number};
use st_parse::{parse, parse_exp};
use st_parse_automaton::first_refused;
use st_parse_faults::SyntaxFault;
use st_scan::{LexFault, scan};
use std::alloc::{AllocError, Global};
use std::process::Abort;
use std::test::Fail;

/// The call that is made on the tokens of a text.
#[derive(Clone, Copy)]
pub(crate) enum Call {
    /// `scan` alone: each token on a line, as `LINE:COLUMN KIND TEXT`, with a `+` where it touches.
    Scan,
    /// `first_refused`: the number of the token, from 0.
    FirstRefused,
    /// `parse_exp`: each expression on a line, as it is printed.
    ParseExp,
    /// `parse_exp`: the number of expressions.
    CountExps,
    /// `parse` and `plain`: each definition on a line, behind the line of its place.
    Plain,
    /// `parse`: where the type of an alias begins, as `tell_places` says.
    Places,
}

fn print_count(count: u128, out: &mut Vec<u8>) -> Result<(), NoMemory> {
    match Num::new(false, count) {
        Some(number) => print_number(number, out),
        None => Ok(()),
    }
}

fn word_of_rule(rule: RuleId) -> &'static str {
    match rule {
        RuleId::L1 => " L1",
        RuleId::L2 => " L2",
        RuleId::L3 => " L3",
        RuleId::L4 => " L4",
        RuleId::S1 => " S1",
        RuleId::S2 => " S2",
        RuleId::S3 => " S3",
        RuleId::S4 => " S4",
        _ => " another rule",
    }
}

/// Appends a place, as `1:7`.
pub(crate) fn tell_place(at: Span, out: &mut Vec<u8>) -> Result<(), NoMemory> {
    print_count(u128::from(at.line), out)?;
    out.push(b':')?;
    print_count(u128::from(at.column), out)
}

/// Appends a place and a rule, as `1:7 S1`.
fn tell_refusal(at: Span, rule: RuleId, out: &mut Vec<u8>) -> Result<(), NoMemory> {
    tell_place(at, out)?;
    out.extend_from_slice(word_of_rule(rule).as_bytes())?;
    Ok(())
}

// ---- tokens

fn word_of_kind(kind: &TokenKind) -> &'static str {
    match kind {
        TokenKind::Low(_) => " low ",
        TokenKind::Up(_) => " up ",
        TokenKind::Mix(_) => " mix ",
        TokenKind::Reserved(_) => " word ",
        TokenKind::Number(_) => " number ",
        TokenKind::Text(_) => " text ",
        TokenKind::Dot(_) => " dot ",
        TokenKind::Fun(_) => " fun ",
        TokenKind::Sign(_) => " sign ",
    }
}

fn tell_kind(kind: &TokenKind, out: &mut Vec<u8>) -> Result<(), NoMemory> {
    out.extend_from_slice(word_of_kind(kind).as_bytes())?;
    match kind {
        TokenKind::Low(name)
        | TokenKind::Up(name)
        | TokenKind::Mix(name)
        | TokenKind::Text(name)
        | TokenKind::Dot(name)
        | TokenKind::Fun(name) => out.extend_from_slice(name.as_slice())?,
        TokenKind::Reserved(word) => out.extend_from_slice(word.spelling().as_bytes())?,
        TokenKind::Sign(mark) => out.extend_from_slice(mark.spelling().as_bytes())?,
        TokenKind::Number(number) => print_count(*number, out)?,
    }
    Ok(())
}

fn tell_tokens(tokens: &[Token], out: &mut Vec<u8>) -> Result<(), NoMemory> {
    for token in tokens {
        tell_place(token.at, out)?;
        if token.touching {
            out.push(b'+')?;
        }
        tell_kind(&token.kind, out)?;
        out.push(b'\n')?;
    }
    Ok(())
}

// ---- the grammar

/// Appends nothing where no token is refused.
fn tell_first_refused(alloc: Global, tokens: &[Token], out: &mut Vec<u8>) -> Result<(), NoMemory> {
    match first_refused(alloc, tokens)? {
        Some(token) => print_count(token as u128, out),
        None => Ok(()),
    }
}

// ---- trees

fn tell_exps(alloc: Global, exps: &[Exp], out: &mut Vec<u8>) -> Result<(), NoMemory> {
    for exp in exps {
        print_el(alloc, exp, out)?;
        out.push(b'\n')?;
    }
    Ok(())
}

fn tell_parse_exp(alloc: Global, tokens: &[Token], out: &mut Vec<u8>) -> Result<(), NoMemory> {
    match parse_exp(alloc, tokens, &[]) {
        Ok(exps) => tell_exps(alloc, exps.as_slice(), out),
        Err(SyntaxFault::Refused { at, rule }) => tell_refusal(at, rule, out),
        Err(SyntaxFault::Memory) => Err(NoMemory),
    }
}

fn tell_count(alloc: Global, tokens: &[Token], out: &mut Vec<u8>) -> Result<(), NoMemory> {
    match parse_exp(alloc, tokens, &[]) {
        Ok(exps) => print_count(exps.len() as u128, out),
        Err(SyntaxFault::Refused { at, rule }) => tell_refusal(at, rule, out),
        Err(SyntaxFault::Memory) => Err(NoMemory),
    }
}

fn tell_hints(hints: &[Hint], out: &mut Vec<u8>) -> Result<(), NoMemory> {
    for hint in hints {
        out.push(b' ')?;
        out.extend_from_slice(hint.name.as_slice())?;
    }
    Ok(())
}

/// Appends a rule as its conclusion, a relation with its hints, and a syntax that is whole with
/// the number of its alternatives.
fn tell_node(alloc: Global, def: &Def, out: &mut Vec<u8>) -> Result<(), NoMemory> {
    match &def.node {
        DefNode::Rule { conclusion, .. } => print_el(alloc, conclusion, out),
        DefNode::Relation { .. } => {
            out.extend_from_slice(b"relation")?;
            tell_hints(def.hints.as_slice(), out)
        }
        DefNode::Syntax {
            fragment: None,
            body: Body::Cases {
                before: false,
                cases,
                after: false,
            },
            ..
        } => {
            out.extend_from_slice(b"syntax ")?;
            print_count(cases.len() as u128, out)
        }
        _ => Ok(()),
    }
}

fn tell_plain_defs(alloc: Global, defs: &Row<Def>, out: &mut Vec<u8>) -> Result<(), NoMemory> {
    let plain = plain(alloc, defs)?;
    for def in plain.as_slice() {
        print_count(u128::from(def.at.line), out)?;
        out.push(b' ')?;
        tell_node(alloc, def, out)?;
        out.push(b'\n')?;
    }
    Ok(())
}

fn tell_plain(alloc: Global, tokens: &[Token], out: &mut Vec<u8>) -> Result<(), NoMemory> {
    match parse(alloc, tokens) {
        Ok(defs) => tell_plain_defs(alloc, &defs, out),
        Err(SyntaxFault::Refused { at, rule }) => tell_refusal(at, rule, out),
        Err(SyntaxFault::Memory) => Err(NoMemory),
    }
}

fn tell_parsed_places(alloc: Global, tokens: &[Token], out: &mut Vec<u8>) -> Result<(), NoMemory> {
    match parse(alloc, tokens) {
        Ok(defs) => tell_places(&defs, out),
        Err(SyntaxFault::Refused { at, rule }) => tell_refusal(at, rule, out),
        Err(SyntaxFault::Memory) => Err(NoMemory),
    }
}

// ---- rows

fn tell(alloc: Global, call: Call, tokens: &[Token], out: &mut Vec<u8>) -> Result<(), NoMemory> {
    match call {
        Call::Scan => tell_tokens(tokens, out),
        Call::FirstRefused => tell_first_refused(alloc, tokens, out),
        Call::ParseExp => tell_parse_exp(alloc, tokens, out),
        Call::CountExps => tell_count(alloc, tokens, out),
        Call::Plain => tell_plain(alloc, tokens, out),
        Call::Places => tell_parsed_places(alloc, tokens, out),
    }
}

fn tell_scanned(
    alloc: Global,
    call: Call,
    scanned: Result<Vec<Token>, LexFault>,
    out: &mut Vec<u8>,
) -> Result<(), NoMemory> {
    match scanned {
        Ok(tokens) => tell(alloc, call, tokens.as_slice(), out),
        Err(LexFault::Refused { at, rule }) => tell_refusal(at, rule, out),
        Err(LexFault::Memory) => Err(NoMemory),
    }
}

/// What the call tells of the text.
pub(crate) fn told(
    rt: &impl Abort,
    alloc: Global,
    call: Call,
    text: &[u8],
) -> Result<Vec<u8>, NoMemory> {
    assert!(rt; text.len() <= 1 << 21);
    let mut out = Vec::new(alloc);
    tell_scanned(alloc, call, scan(alloc, 7, text), &mut out)?;
    Ok(out)
}

fn expect(
    rt: &impl Abort,
    alloc: Global,
    call: Call,
    text: &str,
    wanted: &str,
) -> Result<(), Fail> {
    let told = told(rt, alloc, call, text.as_bytes())?;
    let told = std::str::from_utf8(told.as_slice())?;
    assert!(rt; told == wanted, "{text} is {told}");
    Ok(())
}

/// Each row is a text and what is told of it.
pub(crate) fn expect_all(
    rt: &impl Abort,
    alloc: Global,
    call: Call,
    rows: &[(&str, &str)],
) -> Result<(), Fail> {
    for (text, wanted) in rows {
        expect(rt, alloc, call, text, wanted)?;
    }
    Ok(())
}

/// A front, a part, how often it stands, a middle, and an end that stands as often.
pub(crate) type Repeated = (&'static str, &'static str, u32, &'static str, &'static str);

fn push_times(part: &str, count: u32, text: &mut String) -> Result<(), AllocError> {
    for _ in 0..count {
        text.push_str(part)?;
    }
    Ok(())
}

fn repeated(alloc: Global, row: &Repeated) -> Result<String, AllocError> {
    let mut text = String::from_str(alloc, row.0)?;
    push_times(row.1, row.2, &mut text)?;
    text.push_str(row.3)?;
    push_times(row.4, row.2, &mut text)?;
    Ok(text)
}

/// Each row is a text, written by what it repeats, and what is told of it.
pub(crate) fn expect_repeated(
    rt: &impl Abort,
    alloc: Global,
    call: Call,
    rows: &[(Repeated, &str)],
) -> Result<(), Fail> {
    for (text, wanted) in rows {
        let text = repeated(alloc, text)?;
        expect(rt, alloc, call, text.as_str(), wanted)?;
    }
    Ok(())
}
