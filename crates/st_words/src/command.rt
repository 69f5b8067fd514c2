//! The commands.

ghost use Rattle.std.specs.Prelude.{◌≡◌, ◌++◌, IfOk, OnOk};
ghost use Rattle.st_words.specs.FileNames.{file_names};

use crate::CommandWord;
use st_num::{NoMemory, Row};
use std::alloc::Global;

/// What the words of a command ask for. The words stand in the order of the command's words.
#[derive(Drop)]
pub enum Command {
    /// To check a specification: its files.
    Check(Row<CommandWord>),
    /// To print its internal language: its files.
    Il(Row<CommandWord>),
    /// To print its groups of definitions: its files.
    Groups(Row<CommandWord>),
    /// To print the orders of its premises: its files.
    Order(Row<CommandWord>),
    /// To evaluate an expression: the file of the expression, and those of the specification.
    Eval(CommandWord, Row<CommandWord>),
    /// To print all steps of a relation from a term: the relation, the file of the term, and
    /// those of the specification.
    Next(CommandWord, CommandWord, Row<CommandWord>),
    /// To run a relation from a term: the relation, the file of the term, those of the
    /// specification, the fuel and the depth.
    Run(CommandWord, CommandWord, Row<CommandWord>, u32, u32),
    /// To print the derivation of a run, with the words of `Run`.
    Derive(CommandWord, CommandWord, Row<CommandWord>, u32, u32),
    /// To verify a derivation: the file of the internal language, and that of the derivation.
    Verify(CommandWord, CommandWord),
    /// To print the prose: its files.
    Prose(Row<CommandWord>),
    /// To print the LaTeX text: its files.
    Latex(Row<CommandWord>),
    /// To make a specification of this size, and to run and verify it.
    Make(u8),
}

impl Command {
    /// The names of the files that it loads, in the order of its words.
    pub fn file_names(&self, alloc: Global) -> Result<Row<CommandWord>, NoMemory>
        ensures { IfOk result (λ names. names ≡ file_names self.now) }
    {
        let mut names = Row::new(alloc);
        match self {
            Command::Check(files)
            | Command::Il(files)
            | Command::Groups(files)
            | Command::Order(files)
            | Command::Prose(files)
            | Command::Latex(files) => push_copies(alloc, &mut names, files.as_slice())?,
            Command::Eval(term, files)
            | Command::Next(_, term, files)
            | Command::Run(_, term, files, _, _)
            | Command::Derive(_, term, files, _, _) => {
                names.push(CommandWord::new(alloc, term.as_str())?)?;
                push_copies(alloc, &mut names, files.as_slice())?;
            }
            Command::Verify(il, derivation) => {
                names.push(CommandWord::new(alloc, il.as_str())?)?;
                names.push(CommandWord::new(alloc, derivation.as_str())?)?;
            }
            Command::Make(_) => {}
        }
        Ok(names)
    }
}

/// Adds copies of these words at the end.
fn push_copies(
    alloc: Global,
    names: &mut Row<CommandWord>,
    words: &[CommandWord],
) -> Result<(), NoMemory>
    ensures { OnOk result (names.new ≡ names.old ++ words.now) }
{
    for word in words {
        names.push(CommandWord::new(alloc, word.as_str())?)?;
    }
    Ok(())
}
