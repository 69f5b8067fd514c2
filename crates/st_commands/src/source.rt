//! What a specification in a file gives: its internal language, and runs of its relation.

ghost use Rattle.std.specs.Prelude.{◌≡◌, ◌≤◌, ◌↔◌, ◌++◌, ◌∷◌, [], length, All, IfOk, IsTrue, MatchOption};
ghost use Rattle.st_il.specs.declared.small.Small.{Small as Specification};
ghost use Rattle.st_il.specs.Small.{IsSmall, il_of};
ghost use Rattle.st_iltext.specs.IlText.{IlText};
ghost use Rattle.st_commands.specs.Checking.{IsOneSmall, IlGives};
ghost use Rattle.st_source.specs.Faults.{source_limit};
ghost use Rattle.st_commands.specs.Derived.{DeriveGives, IsDerivationText, IsAtomText, IsTerm, IsStart};
ghost use Rattle.st_commands.specs.inner.Starts.{HasNoTerm, HasNoStart};

use crate::check::{Printed, answer_files};
use crate::derivation::derive;
use st_answers::{Answer, Status, unbuilt};
use st_il::{Small, il_of_small};
use st_iltext::print_il;
use st_num::{Name, NoMemory, Row};
use st_small::read_small;
use st_words::CommandWord;
use std::alloc::Global;

/// Whether the bytes are the line with a line feed behind it.
fn is_line(bytes: &[u8], line: &[u8]) -> bool
    ensures { IsTrue result ↔ (bytes.now ≡ line.now ++ 10 ∷ []) }
{
    match bytes.strip_suffix(b"\n") {
        Some(front) => front == line,
        None => false,
    }
}

/// Whether the bytes are the atom, perhaps with a line feed behind it.
fn is_atom_text(bytes: &[u8], atom: &[u8]) -> bool
    ensures { IsTrue result ↔ IsAtomText bytes.now atom.now }
{
    bytes == atom || is_line(bytes, atom)
}

/// The atom of a specification that a term file holds.
fn read_term<'a>(small: &'a Small, bytes: &[u8]) -> Option<&'a Name>
    ensures { MatchOption result (HasNoTerm small.now bytes.now)
        (λ atom. IsTerm small.now bytes.now atom.now) }
{
    for atom in small.atoms.as_slice() {
        if is_atom_text(bytes, atom.as_slice()) {
            return Some(atom);
        }
    }
    None
}

/// The atom in a term file from which a relation of the specification can be run.
fn start_of<'a>(small: &'a Small, relation: &str, term: &[u8]) -> Option<&'a Name>
    ensures { MatchOption result (HasNoStart small.now relation.now term.now)
        (λ atom. IsStart small.now relation.now term.now atom.now) }
{
    if small.relation.as_slice() != relation.as_bytes() {
        return None;
    }
    read_term(small, term)
}

/// The small specification that these files are, if they are one.
fn read_one(alloc: Global, files: &[Row<u8>]) -> Result<Option<Small>, NoMemory>
    ensures { IfOk result (λ found. MatchOption found
        ((small : Specification) → IsOneSmall files.now small → ⊥) (IsOneSmall files.now)) }
{
    match files {
        [file] => read_small(alloc, file.as_slice()),
        _ => Ok(None),
    }
}

/// Prints the internal language of a small specification.
fn small_il(alloc: Global, small: &Small) -> Result<Answer, NoMemory>
    requires { IsSmall small.now }
    ensures status { IfOk result (λ answer. answer.status ≡ Status.Done) }
    ensures bytes { IfOk result (λ answer. IlText (il_of small.now) answer.bytes.items) }
{
    let il = il_of_small(alloc, small)?;
    let mut bytes = Vec::new(alloc);
    print_il(alloc, &il, &mut bytes)?;
    Ok(Answer {
        status: Status::Done,
        bytes,
    })
}

/// Prints the internal language of the specification in the files of these names.
pub fn il_files(alloc: Global, names: &[CommandWord], files: &[Row<u8>]) -> Result<Answer, NoMemory>
    requires named { length files.now ≡ length names.now }
    requires few { length files.now ≤ 64 }
    requires short { All (λ file. length file ≤ source_limit) files.now }
    ensures { IfOk result (λ answer. IlGives names.now files.now answer.status
        answer.bytes.items) }
{
    match read_one(alloc, files)? {
        Some(small) => small_il(alloc, &small),
        None => answer_files(alloc, Printed::Language, names, files),
    }
}

/// Runs a relation of the specification in a file, from the term in another, and derives each step.
pub fn derive_file(
    alloc: Global,
    relation: &str,
    term: &[u8],
    file: &[u8],
) -> Result<Answer, NoMemory>
    ensures { IfOk result (λ answer. DeriveGives relation.now term.now file.now
        answer.status answer.bytes.items) }
{
    let Some(small) = read_small(alloc, file)? else {
        return unbuilt(alloc);
    };
    match start_of(&small, relation, term) {
        None => unbuilt(alloc),
        Some(start) => derive(alloc, &small, start),
    }
}
