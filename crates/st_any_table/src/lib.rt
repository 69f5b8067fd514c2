//! The table of any syntaxes: what they mean, whether or not they break a rule.
//!
//! An `AnyTable` is seen as the definitions that it was made from. It answers what types mean, which
//! are equal, below others or can be joined, by the definitions of `st_type_table`, where aliases or
//! inclusions go in a circle, names are not declared or are declared twice, and cases share a tag.
//!
//! The one idea: what is asked of a type is asked of finitely many others in turn. Each question is
//! a node of a graph, and the answer is yes exactly where each way from the node ends.
//!
//! Read `table` first, then `specs/inner/Pairs.antt` and `specs/inner/Flats.antt`.
#![tactic(auto)]

mod below;
mod definitions;
mod equal;
mod flats;
mod heads;
mod joining;
mod pairs;
mod ranks;
mod survey;
mod table;

pub use table::AnyTable;
