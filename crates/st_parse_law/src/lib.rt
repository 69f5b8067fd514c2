//! Reading back: what is written of tokens is scanned as these tokens, what is printed of an
//! expression is read as this expression, and what is read has the texts and names of its tokens.
//!
//! The one idea: a token ends where it is written to end, as long as nothing stands behind it that
//! would make it longer.
//!
//! Read `laws` first, with `specs/Written.antt`, `specs/ReadBack.antt`, `specs/DefExps.antt` and
//! `specs/SourceTexts.antt`.
//! The rules are in `docs/source-trees.md`.
#![tactic(auto)]

mod laws;

pub use laws::{printed_is_read_back, texts_are_kept, tokens_of_files, written_tokens};
