//! The words of a command, as they are arranged: its name, plain words, and values of options.

ghost use Rattle.std.specs.Prelude.{◌≡◌, ◌≢◌, map, string_bytes, IfOk};
ghost use Rattle.clap.specs.declared.error.kind.ErrorKind.TheVariants.{OutOfMemory};
ghost use Rattle.st_words.specs.Arranged.{is_dashed};
ghost use Rattle.st_words.specs.Reads.{HasNoReading};
ghost use Rattle.st_words.specs.inner.Fronts.{IsArrangedAs, has_dash_value};
ghost use Rattle.st_words.specs.inner.Copies.{texts_given};
ghost use Rattle.st_words.specs.declared.fault.WordsFault.TheVariants.{Usage, Memory};

use crate::name::{CommandName, name_of};
use crate::program::{DEPTH, FUEL, PLAIN, program};
use crate::{CommandWord, WordsFault};
use clap::error::ErrorKind;
use st_num::{NoMemory, Row};
use std::alloc::Global;

/// Plain words, and the values of the options, each in the order in which they stand.
#[derive(Drop)]
pub(crate) struct Arrangement {
    pub(crate) plain: Row<CommandWord>,
    pub(crate) fuels: Row<CommandWord>,
    pub(crate) depths: Row<CommandWord>,
}

/// Whether the word begins with `-` and is longer than one character.
pub(crate) fn is_dashed(word: &str) -> bool
    ensures { result ≡ is_dashed word.now }
{
    match word.as_bytes() {
        [first, _, ..] => *first == b'-',
        _ => false,
    }
}

/// Whether a word `-` stands directly behind `--fuel` or `--depth`, before the first `--`: the
/// one text that `clap` reads as a value of an option, and that is none.
fn has_dash_value(words: &[String]) -> bool
    ensures { result ≡ has_dash_value (map string_bytes words.now) }
{
    let mut is_behind = false;
    for word in words {
        let word = word.as_str();
        if word == "--" {
            return false;
        }
        if is_behind && word == "-" {
            return true;
        }
        is_behind = word == "--fuel" || word == "--depth";
    }
    false
}

/// Copies of these words, of which there may be none.
fn copies(alloc: Global, words: Option<&[&str]>) -> Result<Row<CommandWord>, NoMemory>
    ensures { IfOk result (λ copies. copies ≡ texts_given words.entry) }
{
    let mut copies = Row::new(alloc);
    let Some(words) = words else {
        return Ok(copies);
    };
    for word in words {
        copies.push(CommandWord::new(alloc, *word)?)?;
    }
    Ok(copies)
}

/// What an error of `clap` tells of the words.
fn fault_of(kind: ErrorKind) -> WordsFault
    ensures usage { result ≡ Usage → kind ≢ OutOfMemory }
    ensures memory { result ≡ Memory → kind ≡ OutOfMemory }
{
    match kind {
        ErrorKind::OutOfMemory => WordsFault::Memory,
        _ => WordsFault::Usage,
    }
}

/// The name of the command that the words ask for, and the arrangement of the words behind it.
pub(crate) fn arrange(
    alloc: Global,
    words: &[String],
) -> Result<(CommandName, Arrangement), WordsFault>
    ensures ok { IfOk result (λ found. IsArrangedAs (map string_bytes words.now) found.0 found.1) }
    ensures usage { result ≡ Err Usage → HasNoReading (map string_bytes words.now) }
{
    if has_dash_value(words) {
        return Err(WordsFault::Usage);
    }
    let matches = match program(alloc)?.try_get_matches_from(words) {
        Ok(matches) => matches,
        Err(error) => return Err(fault_of(error.kind())),
    };
    let Some((name, given)) = matches.subcommand() else {
        return Err(WordsFault::Usage);
    };
    let Some(name) = name_of(name) else {
        return Err(WordsFault::Usage);
    };
    let plain = copies(alloc, given.get_strs(PLAIN))?;
    let fuels = copies(alloc, given.get_strs(FUEL))?;
    let depths = copies(alloc, given.get_strs(DEPTH))?;
    Ok((
        name,
        Arrangement {
            plain,
            fuels,
            depths,
        },
    ))
}
