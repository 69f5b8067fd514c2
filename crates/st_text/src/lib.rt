//! Text trees, printed and read back.
//!
//! The one idea: a text is a tree of words, quoted texts and lists in parentheses, and each tree
//! has one spelling. So a reader is proved against the printer's definition, and neither cites
//! the other.
//!
//! Read `specs/Text.antt` first, then `tree` and `read`. The texts are told in
//! `docs/internal-language.md`.
#![tactic(auto)]

mod fault;
mod front;
mod law;
mod line;
mod number;
mod print;
mod quote;
mod read;
mod tree;
mod word;

pub use fault::TextFault;
pub use law::{one_text_one_tree, texts_end};
pub use line::next_line;
pub use number::{print_natural, read_integer, read_natural};
pub use print::{print_quoted, print_row, print_tree};
pub use read::{read_front, read_row, read_tree};
pub use tree::TextTree;
