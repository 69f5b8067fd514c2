//! The table of the syntaxes: what each name stands for, and the conditions on its definition.
//!
//! A `TypeTable` is seen as the definitions of the syntaxes that it was made from. What it keeps
//! beside them, the flattened cases of each variant among others, no contract names: the
//! definitions of `specs/` follow aliases and inclusions by themselves.
//!
//! Read `table` first, with `specs/Meaning.antt`, `specs/Cases.antt` and `specs/Breach.antt`.
#![tactic(auto)]

mod bodies;
mod build;
mod case_list;
mod check;
mod component;
mod definitions;
mod entry;
mod fault;
mod flat;
mod form;
mod graph;
mod joining;
mod key_index;
mod meaning;
mod numbering;
mod parts;
mod position;
mod ranking;
mod resolve;
mod rows;
mod same;
mod search;
mod survey;
mod table;

pub use bodies::Bodies;
pub use entry::CaseDef;
pub use fault::{Broken, TypeFault};
pub use table::TypeTable;
