//! The commands: words in, files loaded, one text out, and a status.
//!
//! The one idea: the whole text of a command is made before anything is written, by a function of
//! what the files gave; so what is written is always that text, or its front where a write fails.
//!
//! Read `specs/Outcome.antt` first, since all else serves it, and then `serve` below. Statuses and
//! texts are told in `docs/refusals.md`, runs and what is derivable in `docs/semantics.md`.
#![tactic(auto)]

ghost use Rattle.std.specs.Prelude.{◌≡◌, map, string_bytes};
ghost use Rattle.st_outside.specs.Counts.{Rose};
ghost use Rattle.st_tool.specs.Causes.{IsLoadFault, FaultIsTold};
ghost use Rattle.st_tool.specs.Laws.{DerivedIsAccepted, AcceptedIsSound, PrintedIsReadBack};
ghost use Rattle.st_tool.specs.Loads.{counts_of};
ghost use Rattle.st_tool.specs.Outcome.{Written};

mod commands;
mod loads;

use commands::answer_words;
pub use loads::Loaded;
pub use st_answers::{Answer, Status};
use st_num::NoMemory;
use st_outside::{Files, Sink, write_all_of};
use std::alloc::Global;

/// Does what the words ask for: loads its files, in the order of the words, and writes its text.
///
/// After `Status::Memory` nothing was written.
pub fn serve<F: Files, K: Sink>(
    alloc: Global,
    words: &Vec<String>,
    files: &mut F,
    out: &mut K,
) -> Status
    ensures written { Written (F.held files.old) (map string_bytes words.now.items)
        (counts_of (F.loads files.old) (F.faults files.old) (F.last files.old))
        (counts_of (F.loads files.new) (F.faults files.new) (F.last files.new))
        (K.taken out.old) (K.taken out.new) result }
    ensures load { result ≡ Status.Load → IsLoadFault (map string_bytes words.now.items)
        (counts_of (F.loads files.old) (F.faults files.old) (F.last files.old))
        (counts_of (F.loads files.new) (F.faults files.new) (F.last files.new)) }
    ensures told { FaultIsTold
        (counts_of (F.loads files.old) (F.faults files.old) (F.last files.old))
        (counts_of (F.loads files.new) (F.faults files.new) (F.last files.new)) result }
    ensures accepted { DerivedIsAccepted }
    ensures sound { AcceptedIsSound }
    ensures read_back { PrintedIsReadBack }
    ensures write { result ≡ Status.Write → Rose (K.faults out.old) (K.faults out.new) }
{
    match answer_words(alloc, words.as_slice(), files) {
        Err(NoMemory) => Status::Memory,
        Ok(answer) => match write_all_of(out, answer.bytes.as_slice()) {
            Ok(()) => answer.status,
            Err(_) => Status::Write,
        },
    }
}
