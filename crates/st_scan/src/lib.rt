//! Tokens: what stands in a file, from its bytes.
//!
//! The one idea: blanks and comments stand between tokens, and each token is the longest that
//! stands at its place. What a token is written as is a relation that knows no reading.
//!
//! Read `token` of `st_num` and `scanner` first, with `specs/Spelling.antt`, `specs/Tokens.antt` and
//! `specs/Faults.antt`. The rules are in `docs/language.md`, "Tokens".
#![tactic(auto)]

mod first_bytes;
mod gap;
mod line_column;
mod name;
mod number;
mod read;
mod scanner;
mod sign;
mod text;
mod word;

pub use scanner::scan;
pub use st_num::{Fault as LexFault, Token, TokenKind, Word};
