//! How an internal language is read, a line for each definition.

ghost use Rattle.std.specs.Prelude.{◌≡◌, ◌+◌, ◌<◌, ◌^◌, IfOk, MatchOption, MatchResult};
ghost use Rattle.st_il.specs.declared.definition.Il.{Il as Language};
ghost use Rattle.st_iltext.specs.IlText.{IlText};
ghost use Rattle.st_ilread.specs.IlReading.{IsLineOf, IsNoLine, ReadsIl};
ghost use Rattle.st_text.specs.Reading.{Answers};

use crate::definition::read_definition;
use st_il::{Il, IlDef};
use st_num::{NoMemory, Row};
use st_text::{TextFault, next_line, read_tree};
use std::alloc::Global;

/// The definition whose line this is.
fn read_line(alloc: Global, line: &[u8]) -> Result<IlDef, TextFault>
    ensures { Answers result (IsLineOf line.now) (IsNoLine line.now) }
{
    let tree = read_tree(alloc, line)?;
    read_definition(alloc, &tree)
}

/// The definition whose line this is, where it is one's.
fn line_definition(alloc: Global, line: &[u8]) -> Result<Option<IlDef>, NoMemory>
    ensures { IfOk result (λ read. MatchOption read (IsNoLine line.now) (IsLineOf line.now)) }
{
    match read_line(alloc, line) {
        Ok(definition) => Ok(Some(definition)),
        Err(TextFault::Malformed { .. }) => Ok(None),
        Err(TextFault::Memory) => Err(NoMemory),
    }
}

/// The fault at the line behind so many definitions.
fn malformed_line(count: usize) -> TextFault
    requires { count < 2 ^ 63 }
    ensures { result ≡ TextFault.Malformed (count + 1) }
{
    TextFault::Malformed {
        line: count as u64 + 1,
    }
}

/// The internal language of the definitions whose lines the bytes are.
fn read_lines(alloc: Global, bytes: &[u8]) -> Result<Il, TextFault>
    ensures { ReadsIl bytes.now result }
{
    let mut defs = Row::new(alloc);
    let mut rest = bytes;
    'lines: while !rest.is_empty() {
        let Some((line, behind)) = next_line(rest) else {
            return Err(malformed_line(defs.len()));
        };
        let Some(definition) = line_definition(alloc, line)? else {
            return Err(malformed_line(defs.len()));
        };
        defs.push(definition)?;
        rest = behind;
    }
    Ok(Il { defs })
}

/// The internal language whose text the bytes are.
pub fn read_il(alloc: Global, bytes: &[u8]) -> Result<Il, TextFault>
    ensures read { ReadsIl bytes.now result }
    ensures back { (il : Language) → IlText il bytes.now →
        MatchResult result (λ read. read ≡ il) (λ fault. fault ≡ TextFault.Memory) }
{
    read_lines(alloc, bytes)
}
