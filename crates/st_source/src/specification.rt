//! The specification in some files: what it is elaborated to, or the answer that refuses it.
//!
//! Each command that takes the files of a specification begins here.

ghost use Rattle.std.specs.Prelude.{◌≡◌, ◌≢◌, ◌≤◌, ◌<◌, ℕ, List, [], ◌++◌, length, All, IfOk, IfErr, OnOk};
ghost use Rattle.st_elab_def.specs.Answers.{HasTemplates};
ghost use Rattle.st_elab_def.specs.Breaches.{IsBreach};
ghost use Rattle.st_elab_def.specs.Elaboration.{IsElaborated};
ghost use Rattle.st_elab_def.specs.Erasing.{ErasesTo};
ghost use Rattle.st_elab_def.specs.Sources.{RepeatNoOtherwise};
ghost use Rattle.st_ilcheck.specs.Typed.{Typed};
ghost use Rattle.st_source.specs.Faults.{AllTokens, TellsFault, source_limit};
ghost use Rattle.st_source.specs.inner.Placing.{TellsSourceFault, BreachesWithin, BeginWithin};
ghost use Rattle.st_source.specs.inner.Specifying.{RefusesSource, RefusesFiles, SpecifiesSource, Specifies};

use crate::modes::without_modes;
use st_answers::{Answer, refused, refused_in};
use st_el::Def;
use st_elab_def::{Breach, DefFault, Elaborated, elaborate};
use st_il::Il;
use st_modes::{has_few, modes};
use st_num::{Fault, NoMemory, Row, Token};
use st_order::Modes;
use st_parse::parse;
use st_scan::{LexFault, scan};
use st_words::CommandWord;
use std::alloc::Global;

/// What stands in place of a definition where none is named.
const NO_DEFINITION: &[u8] = b"-";

/// A specification that was read.
#[derive(Drop)]
pub enum Specification {
    /// It has no fault and breaks no rule.
    Accepted {
        /// Its definitions, as they stand in the files.
        definitions: Row<Def>,
        elaborated: Elaborated,
        modes: Modes,
    },
    /// It is refused by this answer.
    Refused(Answer),
}

/// Moves tokens behind others.
fn append(tokens: &mut Vec<Token>, more: &mut Vec<Token>) -> Result<(), NoMemory>
    ensures { OnOk result (tokens.new.items ≡ tokens.old.items ++ more.old.items) }
{
    tokens.append(more)?;
    Ok(())
}

/// The tokens of all files, one behind another.
fn scan_all(alloc: Global, files: &[Row<u8>]) -> Result<Vec<Token>, LexFault>
    requires few { length files.now ≤ 64 }
    requires short { All (λ file. length file ≤ source_limit) files.now }
    ensures tokens { IfOk result (λ tokens. AllTokens 0 files.now tokens.items) }
    ensures refused { IfErr result (TellsFault files.now) }
{
    let mut tokens = Vec::new(alloc);
    for (number, file) in files.iter().enumerate() {
        let mut more = scan(alloc, number as u16, file.as_slice())?;
        append(&mut tokens, &mut more)?;
    }
    Ok(tokens)
}

/// The answer where the files of these names have this first fault.
fn faulty(
    alloc: Global,
    names: &[CommandWord],
    files: &[Row<u8>],
    fault: Fault,
) -> Result<Answer, NoMemory>
    requires named { length files.now ≡ length names.now }
    requires stands { TellsSourceFault files.now fault }
    ensures { IfOk result (RefusesFiles names.now files.now) }
{
    match fault {
        Fault::Refused { at, rule } => {
            let name = names[at.file as usize].as_str();
            refused(alloc, name, at, NO_DEFINITION, rule)
        }
        Fault::Memory => Err(NoMemory),
    }
}

/// The answer where the definitions of a source have this breach.
fn broken(
    alloc: Global,
    names: &[CommandWord],
    defs: &[Def],
    breach: Breach,
) -> Result<Answer, NoMemory>
    requires first { IsBreach defs.now breach }
    requires within { breach.at.file < length names.now }
    ensures { IfOk result (RefusesSource names.now defs.now) }
{
    let def = &defs[breach.definition as usize];
    refused_in(alloc, names, def, breach.at, breach.rule)
}

/// Asks the rules on modes of what the definitions of a source are elaborated to.
fn with_modes(
    alloc: Global,
    names: &[CommandWord],
    definitions: Row<Def>,
    elaborated: Elaborated,
) -> Result<Specification, NoMemory>
    requires elaborated { IsElaborated definitions elaborated }
    requires erased { ErasesTo definitions elaborated }
    requires typed { Typed elaborated.il }
    requires begin { BeginWithin (length names.now) definitions }
    ensures { IfOk result (SpecifiesSource names.now definitions) }
{
    if !has_few(&elaborated.il) {
        return Err(NoMemory);
    }
    match modes(alloc, &elaborated.il) {
        Ok(modes) => Ok(Specification::Accepted {
            definitions,
            elaborated,
            modes,
        }),
        Err(fault) => {
            let defs = definitions.as_slice();
            let answer = without_modes(alloc, names, defs, &elaborated, fault)?;
            Ok(Specification::Refused(answer))
        }
    }
}

/// Elaborates the definitions of a source in the files of these names.
fn of_source(
    alloc: Global,
    names: &[CommandWord],
    definitions: Row<Def>,
) -> Result<Specification, NoMemory>
    requires templates { HasTemplates definitions }
    requires repeats { RepeatNoOtherwise definitions }
    requires within { BreachesWithin (length names.now) definitions }
    requires begin { BeginWithin (length names.now) definitions }
    ensures { IfOk result (SpecifiesSource names.now definitions) }
{
    match elaborate(alloc, definitions.as_slice()) {
        Ok(elaborated) => with_modes(alloc, names, definitions, elaborated),
        Err(DefFault::Refused(breach)) => {
            let answer = broken(alloc, names, definitions.as_slice(), breach)?;
            Ok(Specification::Refused(answer))
        }
        Err(DefFault::Memory) => Err(NoMemory),
    }
}

/// The answer where the files of these names have this first fault, as what was read.
fn of_faulty(
    alloc: Global,
    names: &[CommandWord],
    files: &[Row<u8>],
    fault: Fault,
) -> Result<Specification, NoMemory>
    requires named { length files.now ≡ length names.now }
    requires stands { TellsSourceFault files.now fault }
    ensures { IfOk result (Specifies names.now files.now) }
{
    let answer = faulty(alloc, names, files, fault)?;
    Ok(Specification::Refused(answer))
}

/// What the tokens of all files mean.
fn of_tokens(
    alloc: Global,
    names: &[CommandWord],
    files: &[Row<u8>],
    tokens: &[Token],
) -> Result<Specification, NoMemory>
    requires named { length files.now ≡ length names.now }
    requires all { AllTokens 0 files.now tokens.now }
    requires some { tokens.now ≢ [] }
    ensures { IfOk result (Specifies names.now files.now) }
{
    match parse(alloc, tokens) {
        Ok(definitions) => of_source(alloc, names, definitions),
        Err(fault) => of_faulty(alloc, names, files, fault),
    }
}

/// The specification without definitions.
fn of_nothing(alloc: Global) -> Specification
    ensures { (names files : List (List ℕ)) → AllTokens 0 files [] → Specifies names files result }
{
    Specification::Accepted {
        definitions: Row::new(alloc),
        elaborated: Elaborated {
            il: Il {
                defs: Row::new(alloc),
            },
            sources: Row::new(alloc),
        },
        modes: Modes {
            marks: Row::new(alloc),
            orders: Row::new(alloc),
        },
    }
}

/// Reads the specification in the files of these names: their tokens, definitions and modes.
pub fn read_specification(
    alloc: Global,
    names: &[CommandWord],
    files: &[Row<u8>],
) -> Result<Specification, NoMemory>
    requires named { length files.now ≡ length names.now }
    requires few { length files.now ≤ 64 }
    requires short { All (λ file. length file ≤ source_limit) files.now }
    ensures { IfOk result (Specifies names.now files.now) }
{
    let tokens = match scan_all(alloc, files) {
        Ok(tokens) => tokens,
        Err(fault) => return of_faulty(alloc, names, files, fault),
    };
    if tokens.as_slice().is_empty() {
        Ok(of_nothing(alloc))
    } else {
        of_tokens(alloc, names, files, tokens.as_slice())
    }
}
