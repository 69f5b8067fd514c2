//! An internal language by names and numbers: its syntaxes, relations and functions, the rules
//! of each relation and the clauses of each function.
//!
//! What comes in is an internal language; what goes out is an index of it, which is made once, in
//! a time that grows with the language alone, and then asked without a look at all definitions.
//!
//! The one idea: contracts see an index as the internal language that it was made of, so that
//! each answer is told in the words of the definitions of the language.
//!
//! Read `index` first, with `specs/Numbers.antt`. What definitions are is told in
//! `docs/internal-language.md`.
#![tactic(auto)]

mod groups;
mod index;
mod listing;
mod named;
pub mod names;
mod parts;

pub use index::{Index, index_of};
