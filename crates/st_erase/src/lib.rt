//! Erasure: the source text that an expression of the internal language was written as.
//!
//! An expression of the internal language comes in, and a source tree goes out, with the notation
//! of its tags filled in and each conversion dropped. The one idea: erasure goes by cases on trees
//! and knows no types.
//!
//! Read `specs/Erasure.antt` first, then `erased` and `specs/Filling.antt`. The rules are in
//! `docs/internal-language.md`, "Erasure".
#![tactic(auto)]

mod definition;
mod erased;
mod expression;
mod filling;
mod form;
mod notation;
mod operator;
mod record;
mod source;

pub use erased::{Erased, ErasedKind};
pub use source::{erase, erase_exp};
