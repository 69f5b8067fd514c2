//! The answer to the words of a command: which command they ask for, the loads of its files, and
//! what is answered of these.

ghost use Rattle.std.specs.Prelude.{◌≡◌, ◌<◌, ◌≤◌, ◌↔◌, ◌++◌, ◌∷◌, [], codes, IfOk, IsTrue, map, string_bytes, length};
ghost use Rattle.st_tool.specs.declared.loads.Loaded.{Loaded as Loading};
ghost use Rattle.st_tool.specs.Commands.{Gives, IsBuilt, limit_of};
ghost use Rattle.st_tool.specs.inner.Answering.{IsAnswerable};
ghost use Rattle.st_tool.specs.Loads.{counts_of, FitsNames, LoadsTo};
ghost use Rattle.st_tool.specs.Outcome.{Outcome, HasOutcome, StopsAt, most_files};
ghost use Rattle.st_words.specs.FileNames.{file_names};
ghost use Rattle.st_words.specs.Reads.{Reads};

use crate::loads::{Loaded, load_all};
use st_answers::{Answer, Status, line_answer, unbuilt, verify_files};
use st_commands::{
    Printed, answer_files, derive_file, eval_files, il_files, next_files, run_files,
};
use st_num::{NoMemory, Row};
use st_outside::Files;
use st_words::{Command, WordsFault, has_options, read_words};
use std::alloc::Global;

/// The most file names of a command.
const MOST_FILES: usize = 64;

/// The most bytes of a source or a term.
const SOURCE_LIMIT: u32 = 1_048_576;

/// The most bytes of a text that the program itself prints.
const TEXT_LIMIT: u32 = 67_108_864;

/// The bytes of the two files that were given.
fn two_files(given: &[Row<u8>]) -> (&[u8], &[u8])
    requires { length given.now ≡ 2 }
    ensures { given.now ≡ result.0.now ∷ result.1.now ∷ [] }
{
    let [one, other] = given else {
        unreachable!();
    };
    (one.as_slice(), other.as_slice())
}

/// The bytes of the first file that was given, and the files behind it.
fn first_file(given: &[Row<u8>]) -> (&[u8], &[Row<u8>])
    requires { 0 < length given.now }
    ensures { given.now ≡ result.0.now ∷ result.1.now }
{
    let [first, behind @ ..] = given else {
        unreachable!();
    };
    (first.as_slice(), behind)
}

/// Answers a command whose files are given.
fn answer_given(alloc: Global, command: &Command, given: &[Row<u8>]) -> Result<Answer, NoMemory>
    requires built { IsAnswerable command.now }
    requires few { length (file_names command.now) ≤ most_files }
    requires fits { FitsNames (limit_of command.now) (Loaded.Given given.now)
        (file_names command.now) }
    ensures { IfOk result (λ answer. Gives command.now given.now answer.status
        answer.bytes.items) }
{
    match command {
        Command::Check(names) => answer_files(alloc, Printed::Count, names.as_slice(), given),
        Command::Il(names) => il_files(alloc, names.as_slice(), given),
        Command::Groups(names) => answer_files(alloc, Printed::Groups, names.as_slice(), given),
        Command::Order(names) => answer_files(alloc, Printed::Orders, names.as_slice(), given),
        Command::Latex(names) => answer_files(alloc, Printed::Latex, names.as_slice(), given),
        Command::Prose(names) => answer_files(alloc, Printed::Prose, names.as_slice(), given),
        Command::Eval(_, names) => {
            let (query, files) = first_file(given);
            eval_files(alloc, names.as_slice(), files, query)
        }
        Command::Next(relation, _, names) => {
            let (term, files) = first_file(given);
            next_files(alloc, relation.as_str(), term, names.as_slice(), files)
        }
        Command::Run(relation, _, names, fuel, depth) => {
            let (term, files) = first_file(given);
            run_files(
                alloc,
                relation.as_str(),
                *fuel,
                *depth,
                term,
                names.as_slice(),
                files,
            )
        }
        Command::Derive(relation, _, _, _, _) => {
            let (term, file) = two_files(given);
            derive_file(alloc, relation.as_str(), term, file)
        }
        Command::Verify(_, _) => {
            let (il, derivation) = two_files(given);
            verify_files(alloc, il, derivation)
        }
        Command::Make(_) => unreachable!(),
    }
}

/// Answers a command that was stopped by the file of this number.
fn answer_stopped(
    alloc: Global,
    command: &Command,
    number: usize,
    status: Status,
    front: &str,
) -> Result<Answer, NoMemory>
    requires { number < length (file_names command.now) }
    ensures status { IfOk result (λ answer. answer.status ≡ status) }
    ensures bytes { IfOk result (λ answer.
        StopsAt (λ name. front.now ++ name ++ codes "\n") command.now number answer.bytes.items) }
{
    let names = command.file_names(alloc)?;
    line_answer(alloc, status, front, names.as_slice()[number].as_str())
}

/// Answers a command whose loads came to this.
fn answer_loaded(alloc: Global, command: &Command, loaded: &Loaded) -> Result<Answer, NoMemory>
    requires built { IsAnswerable command.now }
    requires few { length (file_names command.now) ≤ most_files }
    requires fits { FitsNames (limit_of command.now) loaded.now (file_names command.now) }
    ensures { IfOk result (λ answer. Outcome command.now loaded.now answer.status
        answer.bytes.items) }
{
    match loaded {
        Loaded::Given(given) => answer_given(alloc, command, given.as_slice()),
        Loaded::Failed(number) => {
            answer_stopped(alloc, command, *number, Status::Load, "load failed ")
        }
        Loaded::TooLong(number) => {
            answer_stopped(alloc, command, *number, Status::TooLarge, "too large ")
        }
    }
}

/// Whether a command that was read of these words is built.
fn is_built(words: &[String], command: &Command) -> bool
    ensures { IsTrue result ↔ IsBuilt (map string_bytes words.now) command.now }
{
    match command {
        Command::Derive(_, _, files, _, _) => files.len() == 1 && !has_options(words),
        Command::Check(_)
        | Command::Il(_)
        | Command::Groups(_)
        | Command::Order(_)
        | Command::Latex(_)
        | Command::Prose(_)
        | Command::Eval(_, _)
        | Command::Next(_, _, _)
        | Command::Run(_, _, _, _, _)
        | Command::Verify(_, _) => true,
        Command::Make(_) => false,
    }
}

/// The most bytes of a file of the command.
fn limit_of(command: &Command) -> u32
    ensures { result ≡ limit_of command.now }
{
    match command {
        Command::Verify(_, _) => TEXT_LIMIT,
        _ => SOURCE_LIMIT,
    }
}

/// Answers a command that is built.
fn answer_command<F: Files>(
    alloc: Global,
    command: &Command,
    files: &mut F,
) -> Result<Answer, NoMemory>
    requires built { IsAnswerable command.now }
    requires few { length (file_names command.now) ≤ most_files }
    ensures same { F.held files.new ≡ F.held files.old }
    ensures loads { IfOk result (λ answer. (loaded : Loading)
        × LoadsTo (F.held files.old) (limit_of command.now) (file_names command.now)
        (counts_of (F.loads files.old) (F.faults files.old) (F.last files.old))
        loaded
        (counts_of (F.loads files.new) (F.faults files.new) (F.last files.new))
        × Outcome command.now loaded answer.status answer.bytes.items) }
{
    let names = command.file_names(alloc)?;
    let loaded = load_all(alloc, files, names.as_slice(), limit_of(command))?;
    answer_loaded(alloc, command, &loaded)
}

/// Answers a command that was read of the words.
fn answer_read<F: Files>(
    alloc: Global,
    words: &[String],
    command: &Command,
    files: &mut F,
) -> Result<Answer, NoMemory>
    requires { Reads (map string_bytes words.now) command.now }
    ensures { IfOk result (λ answer. HasOutcome (F.held files.old) (map string_bytes words.now)
        (counts_of (F.loads files.old) (F.faults files.old) (F.last files.old))
        (counts_of (F.loads files.new) (F.faults files.new) (F.last files.new))
        answer.status answer.bytes.items) }
{
    if command.file_names(alloc)?.len() > MOST_FILES {
        return line_answer(alloc, Status::TooLarge, "too many files", "");
    }
    if !is_built(words, command) {
        return unbuilt(alloc);
    }
    answer_command(alloc, command, files)
}

/// Answers the words of a command.
pub fn answer_words<F: Files>(
    alloc: Global,
    words: &[String],
    files: &mut F,
) -> Result<Answer, NoMemory>
    ensures { IfOk result (λ answer. HasOutcome (F.held files.old) (map string_bytes words.now)
        (counts_of (F.loads files.old) (F.faults files.old) (F.last files.old))
        (counts_of (F.loads files.new) (F.faults files.new) (F.last files.new))
        answer.status answer.bytes.items) }
{
    match read_words(alloc, words) {
        Ok(command) => answer_read(alloc, words, &command, files),
        Err(WordsFault::Usage) => line_answer(alloc, Status::Usage, "usage", ""),
        Err(WordsFault::Memory) => Err(NoMemory),
    }
}
