//! Derivations as lines: what is printed of a run, and read back line by line.
//!
//! A line is plain data; its text is told once, by `specs`, for the printer and the reader alike.
//! A derivation has a head with its relation, the term it begins at, nodes of derivation trees,
//! children before parents, steps that name a node, and an end.
//!
//! Read `line` first, then `specs/LineText.antt`. The format is told in `docs/derivations.md`.
#![tactic(auto)]

mod fault;
mod law;
mod line;
mod name;
mod part;
mod print;
mod read;

pub use law::one_text_one_line;
pub use line::{Ending, Line, NodeLine, Ref};
pub use print::print_lines;
pub use read::read_line;
