//! Runs of a relation from a term, and all that it derives from one: their texts and their status.
//!
//! What comes in is a relation of an internal language, with the algorithms of its rules and the
//! depth to which goals are followed, and a term. What goes out is an answer: the transcript of the
//! run, or all that is derivable in one step; or a chain of goals where one comes to the depth.
//!
//! Read `specs/Runs.antt` first, and then `run` in `running` and `next` in `nexts`. Runs and what is
//! derivable are told in `docs/semantics.md`.
#![tactic(auto)]

mod depth;
mod nexts;
mod running;
mod searching;
mod transcript;

pub use nexts::next;
pub use running::run;
pub use searching::Searching;
pub use transcript::Ending;
