//! What each command answers of the bytes of its files.
//!
//! What comes in are the names and the bytes of the files of a specification, and the text of a term
//! or a query. What goes out is an answer: that the files are refused; or what is printed of their
//! specification, what a query comes to, the runs of a relation, or a derivation.
//!
//! Read `specs/Checking.antt`, `specs/Queries.antt`, `specs/Searches.antt` and `specs/Derived.antt`,
//! each with the module that answers so: `check`, `queries`, `searches` and `source`. Statuses and
//! texts are told in `docs/refusals.md`.
#![tactic(auto)]

mod check;
mod derivation;
mod needed;
mod queries;
mod query;
mod searches;
mod source;
mod step;

pub use check::{Printed, answer_files};
pub use queries::eval_files;
pub use searches::{next_files, run_files};
pub use source::{derive_file, il_files};
