//! The LaTeX text of source trees: rules as fractions, and every other definition as it is written.
//!
//! What comes in is a list of definitions; what goes out is a line of LaTeX for each of them.
//!
//! The one idea: a part is printed as tokens with a blank before each, so that the text of a tree
//! is that of its parts, one behind another. The parentheses are those of the tree.
//!
//! Read `specs/Tokens.antt`, the table, and `specs/LatexText.antt` first. Both are told in
//! `docs/printing.md`.
#![tactic(auto)]

mod definition;
mod expression;
mod line;
mod premise;
mod token;
mod ty;

pub use line::latex;
