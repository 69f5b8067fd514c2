//! Groups of definitions that cite each other, and what cites what.
//!
//! What comes in is an internal language; what goes out is the list of its groups, each behind
//! those that it cites, and the names that it declares, each with those that it cites and the
//! number of its group. That there is at most one list of groups is a law.
//!
//! The one idea: names are read once and then known by their numbers, so that what follows
//! citations never compares texts. Groups are the components of a graph, which `st_graph` finds.
//!
//! Read `specs/Definitions.antt` and `specs/Groups.antt` first. Groups are told in
//! `docs/semantics.md`.
#![tactic(auto)]

mod cited;
mod condensation;
mod definition;
mod laws;
mod listing;
mod members;
mod numbers;
mod ranks;
mod table;

pub use laws::one_list_of_groups;
pub use members::groups;
pub use numbers::group_numbers;
pub use table::{CitationTable, citations};
