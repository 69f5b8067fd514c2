//! Source trees: what the author wrote, with the place of each part.
//!
//! The one idea: a tree keeps the author's notation, parentheses and `$( )` among it, and knows no
//! types. Trees are plain data to contracts.
//!
//! Read `expression` and `definition` first, then `specs/Erasure.antt`, what a plain source is, and
//! `specs/SourceText.antt`, how an expression is printed. Both are told in `docs/source-trees.md`.
#![tactic(auto)]

mod context;
mod definition;
mod expression;
mod notation;
mod plain_definition;
mod plain_expression;
mod plain_parts;
mod print;
mod quote;
mod ty;
mod wrapping;

pub use definition::{Body, Def, DefNode, Hint, Prem, PremNode};
pub use expression::{Count, Exp, Node, Seg};
pub use notation::{NotNode, Notation};
pub use plain_definition::{is_mode, plain};
pub use print::print_el;
pub use ty::{Typ, TypNode};
