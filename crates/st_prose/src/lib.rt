//! The prose of algorithms: each rule and each clause as numbered steps in sentences.
//!
//! What comes in is an internal language with its algorithms; what goes out is a text for readers.
//!
//! The one idea: a step is a sentence with expressions in it, and these are erased, so that they
//! stand in the author's notation.
//!
//! Read `specs/Sentences.antt`, the table, and `specs/ProseText.antt` first. Both are told in
//! `docs/printing.md`.
#![tactic(auto)]

mod clause;
mod expression;
mod rule;
mod step;
mod text;

pub use text::prose;
