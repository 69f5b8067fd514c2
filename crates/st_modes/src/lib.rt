//! Why a relation cannot be searched, and which definition breaks a rule on directions.
//!
//! What comes in is an internal language. What goes out is for each relation the mark that says why
//! it cannot be searched, and for each of its rules the order of its premises. Or the first
//! definition is told that breaks one of the rules M1 to M7.
//!
//! Read `modes` first, with `Breaches.antt` and `Marks.antt` of `st_semantics`, which say what a
//! breach and a mark are, and with `specs/Modes.antt`. Orders are those of `st_order`.
#![tactic(auto)]

mod all_orders;
mod breaches;
mod circles;
mod citations;
mod cited_by;
mod citers;
mod citing;
mod clause_modes;
mod fault;
mod indexed;
mod marking;
mod moding;
mod needs;
mod one_open;
mod open_parts;
mod reaching;
mod relations;
mod rule_modes;
mod targets;

pub use citations::{Citations, Rules, citations_of};
pub use fault::ModeFault;
pub use moding::{has_few, modes};
pub use reaching::{Cited, reached};
pub use rule_modes::have_otherwise;
