//! How the words of a command are read.

ghost use Rattle.std.specs.Prelude.{◌≡◌, map, string_bytes, IfOk, IfErr};
ghost use Rattle.st_words.specs.Reads.{Reads, IsOnlyReading, TellsUsage};
ghost use Rattle.st_words.specs.Arranged.{has_options};

use crate::arrangement::{arrange, is_dashed};
use crate::table::command_of;
use crate::{Command, WordsFault};
use std::alloc::Global;

/// The command that the words ask for, of which the first is its name.
pub fn read_words(alloc: Global, words: &[String]) -> Result<Command, WordsFault>
    ensures read { IfOk result (λ command. Reads (map string_bytes words.now) command) }
    ensures only { IfOk result (λ command. IsOnlyReading (map string_bytes words.now) command) }
    ensures usage { IfErr result (λ fault. TellsUsage (map string_bytes words.now) fault) }
{
    let found = arrange(alloc, words)?;
    let (name, given) = found;
    command_of(name, given)
}

/// Whether an option stands among the words.
pub fn has_options(words: &[String]) -> bool
    ensures { result ≡ has_options (map string_bytes words.now) }
{
    for word in words {
        if word.as_str() == "--" {
            return false;
        }
        if is_dashed(word.as_str()) {
            return true;
        }
    }
    false
}
