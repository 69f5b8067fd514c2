//! Languages whose numbers, texts, tags and names of fields are those of values.
//!
//! What is elaborated is one: no other numbers and texts are scanned. Where a language were none, that
//! would be answered as want of memory.

ghost use Rattle.std.specs.Prelude.{◌↔◌, IsTrue, IsUtf8, pos, OnOk};
ghost use Rattle.std.specs.List.{All, AllByRecursion};
ghost use Rattle.st_num.specs.Number.{IsNumber};
ghost use Rattle.st_num.specs.Texts.{IsTextByte, IsText};
ghost use Rattle.st_il.specs.declared.expression.IlExp.{out-IlExp};
ghost use Rattle.st_semantics.specs.References.{exps_now};
ghost use Rattle.st_search.specs.Proper.{IsProperAt, IsProperExp, AreProperExps, IsProperPrem, AreProperFields, IsProperBody, IsProperDef, IsProper};

use st_il::{Il, IlDef, IlExp, IlPrem, SyntaxBody, Ty};
use st_num::{Name, NoMemory};
use st_semantics::operands::{count_of, each, operands};
use std::alloc::Global;

/// Whether texts may have this byte.
fn is_text_byte(byte: u8) -> bool
    ensures { IsTrue result ↔ IsTextByte byte }
{
    match byte {
        b'\t' | b'\n' | 32..=255 => true,
        _ => false,
    }
}

/// Whether texts may have each of these bytes.
fn are_text_bytes(bytes: &[u8]) -> bool
    ensures { IsTrue result ↔ All IsTextByte bytes.now }
{
    bytes.iter().all(|byte| is_text_byte(*byte))
}

/// Whether the bytes are UTF-8.
fn is_utf8(bytes: &[u8]) -> bool
    ensures { IsTrue result ↔ IsUtf8 bytes.now }
{
    str::from_utf8(bytes).is_ok()
}

/// The bytes are a text.
fn text(bytes: &[u8]) -> Result<(), NoMemory>
    ensures { OnOk result (IsText bytes.now) }
{
    if is_utf8(bytes) && are_text_bytes(bytes) {
        Ok(())
    } else {
        Err(NoMemory)
    }
}

/// The number is in range, as each number is.
fn number(_number: u128)
    ensures { IsNumber (pos _number) }
{}

/// A number at the level of an expression is in range, and a text or a tag is a text.
fn proper_at(exp: &IlExp) -> Result<(), NoMemory>
    ensures { OnOk result (IsProperAt (out-IlExp exp.now)) }
{
    match exp {
        IlExp::Number(value) => {
            number(*value);
            Ok(())
        }
        IlExp::Text(value) => text(value.as_slice()),
        IlExp::Case(_, tag, _) => text(tag.as_slice()),
        _ => Ok(()),
    }
}

/// So it is in all of an expression.
#[cycle(proper)]
fn proper_exp(alloc: Global, exp: &IlExp) -> Result<(), NoMemory>
    ensures { OnOk result (IsProperExp exp.now) }
{
    proper_at(exp)?;
    match exp {
        IlExp::Iter(how, _, body) => {
            let exps = count_of(alloc, how)?;
            proper_exps(alloc, exps.as_slice())?;
            proper_exp(alloc, body.get())
        }
        _ => {
            let exps = operands(alloc, exp)?;
            proper_exps(alloc, exps.as_slice())
        }
    }
}

/// So it is in each of these expressions.
#[cycle(proper)]
fn proper_exps(alloc: Global, exps: &[&IlExp]) -> Result<(), NoMemory>
    ensures { OnOk result (AreProperExps (exps_now exps.now)) }
{
    for i in 0..exps.len() {
        proper_exp(alloc, exps[i])?;
    }
    Ok(())
}

/// So it is in each of these expressions.
fn proper_list(alloc: Global, exps: &[IlExp]) -> Result<(), NoMemory>
    ensures { OnOk result (AreProperExps exps.now) }
{
    let exps = each(alloc, exps)?;
    proper_exps(alloc, exps.as_slice())
}

/// So it is in a premise.
fn proper_prem(alloc: Global, premise: &IlPrem) -> Result<(), NoMemory>
    ensures { OnOk result (IsProperPrem premise.now) }
{
    match premise {
        IlPrem::If(exp) => proper_exp(alloc, exp),
        IlPrem::Goal(_, exps) => proper_list(alloc, exps.as_slice()),
        IlPrem::Otherwise => Ok(()),
        IlPrem::Each(how, _, body) => {
            let exps = count_of(alloc, how)?;
            proper_exps(alloc, exps.as_slice())?;
            proper_prem(alloc, body.get())
        }
    }
}

/// So it is in each of these premises.
fn proper_prems(alloc: Global, premises: &[IlPrem]) -> Result<(), NoMemory>
    ensures { OnOk result (AllByRecursion IsProperPrem premises.now) }
{
    for premise in premises {
        proper_prem(alloc, premise)?;
    }
    Ok(())
}

/// The names of these fields are texts.
fn proper_fields(fields: &[(Name, Ty)]) -> Result<(), NoMemory>
    ensures { OnOk result (AreProperFields fields.now) }
{
    for field in fields {
        text(field.0.as_slice())?;
    }
    Ok(())
}

/// So are those of a record type.
fn proper_body(body: &SyntaxBody) -> Result<(), NoMemory>
    ensures { OnOk result (IsProperBody body.now) }
{
    match body {
        SyntaxBody::Fields(fields) => proper_fields(fields.as_slice()),
        SyntaxBody::Alias(_) | SyntaxBody::Variant(_) => Ok(()),
    }
}

/// So it is in a definition.
fn proper_def(alloc: Global, def: &IlDef) -> Result<(), NoMemory>
    ensures { OnOk result (IsProperDef def.now) }
{
    match def {
        IlDef::Syntax(syntax) => proper_body(&syntax.body),
        IlDef::Rule(rule) => {
            proper_list(alloc, rule.conclusion.as_slice())?;
            proper_prems(alloc, rule.premises.as_slice())
        }
        IlDef::Clause(clause) => {
            proper_list(alloc, clause.args.as_slice())?;
            proper_exp(alloc, &clause.result)?;
            proper_prems(alloc, clause.premises.as_slice())
        }
        IlDef::Var(_, _) | IlDef::Relation(_) | IlDef::Fun(_) => Ok(()),
    }
}

/// The numbers in a language are in range, and its texts, tags and names of fields are texts.
pub fn proper(alloc: Global, il: &Il) -> Result<(), NoMemory>
    ensures { OnOk result (IsProper il.now) }
{
    for def in il.defs.as_slice() {
        proper_def(alloc, def)?;
    }
    Ok(())
}
