//! The text of the internal language, printed, and of values, printed and read back.
//!
//! The one idea: what stands in a line is a function from definitions to text trees, so printer
//! and reader are proved against one definition, and neither cites the other.
//!
//! Every internal language and every value is printed, and values are read back. The text of an
//! internal language is read back by `read_il` of `st_ilread`, for which `type_reader`, `kind` and
//! `shape` stand here. The trees of expressions and types are given out for tests (`exp_tree`,
//! `ty_tree`).
//!
//! Read `specs/Definitions.antt` and `specs/IlText.antt` first, then `il`. The texts are told in
//! `docs/internal-language.md`.
#![tactic(auto)]

mod definition;
mod expression;
pub mod fault;
mod form;
mod head;
mod il;
pub mod kind;
mod law;
mod premise;
pub mod shape;
mod ty;
pub mod type_reader;
mod value;
mod value_form;
mod value_reader;

pub use expression::exp_tree;
pub use il::print_il;
pub use law::{one_text_one_il, one_text_one_value};
pub use ty::ty_tree;
pub use value::print_value;
pub use value_reader::read_value;
