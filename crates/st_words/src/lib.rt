//! The words of a command: which command they ask for, if any.
//!
//! The one idea: what the words ask for is told by how they are arranged, as plain words and
//! options, and by one table of the commands; neither knows how words are read. How they are
//! arranged is read by `clap`.
//!
//! Read `command` first, with `specs/Arranged.antt` and `specs/Table.antt`. The rules are in
//! `docs/commands.md`.
#![tactic(auto)]

mod arrangement;
mod command;
mod command_word;
mod fault;
mod name;
mod number;
mod program;
mod read;
mod table;

pub use command::Command;
pub use command_word::CommandWord;
pub use fault::WordsFault;
pub use read::{has_options, read_words};
