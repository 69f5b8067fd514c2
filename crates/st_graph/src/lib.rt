//! Graphs of numbered nodes, and their components.
//!
//! What comes in is a graph: for each node the numbers of those to which it has an edge. What goes
//! out is the number of the strongly connected component of each node. Two nodes have one number
//! exactly where each leads to the other.
//!
//! The one idea: the graph is walked once, depth first, with a path of its own in place of
//! recursion, so that no depth of a graph is too much.
//!
//! Read `specs/Graph.antt` first.
#![tactic(auto)]

mod walk;

pub use walk::{Components, numbering};
