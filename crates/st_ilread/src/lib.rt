//! The text of the internal language, read back.
//!
//! Bytes come in, and the internal language whose text they are goes out, or the first line that is
//! no definition. Each definition stands in a line of its own, so that one line is read at a time.
//!
//! The one idea: a line is first read as a tree of words, quoted texts and lists, and each form has
//! a reader of its own for the trees behind its word. Calls nest as deep as the tree does.
//!
//! Read `il` first, with `specs/IlReading.antt`, then `definition`. What stands in a line is told by
//! `st_iltext`, and in `docs/internal-language.md`.
#![tactic(auto)]

mod definition;
mod expression;
mod il;
mod leaf;
mod name;
mod part;
mod premise;
mod syntax;
mod variable;

pub use il::read_il;
