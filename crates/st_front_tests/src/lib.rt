//! Texts of one or a few lines, and what calls of the front tell of them that no command shows:
//! tokens, expressions of files of their own, and what is printed of a source.
//!
//! Nothing is called from here. The tests stand over the crates of the front, so that each of
//! these is proved once, without tests. The texts are worked out by hand from `docs/language.md`.
//! What is refused is shown by `examples/tokens`, `examples/grammar` and `examples/limits`.
//!
//! `told` says how a row is written; every other file is rows.
#![tactic(auto)]

#[cfg(test)]
mod definitions;
#[cfg(test)]
mod expressions;
#[cfg(test)]
mod places;
#[cfg(test)]
mod tokens;
#[cfg(test)]
mod told;
