//! What is printed of a specification and of its internal language, and of the verdict on a
//! derivation.
//!
//! What comes in is what is told: a place that is refused, an internal language with its modes, a
//! relation, or the texts of an internal language and of a derivation. What goes out is the text,
//! or an answer, which has a status besides.
//!
//! Read `answer` first, and then `refusal`, `grouping`, `ordering`, `marking` and `verification`,
//! each with its texts in `specs/`. Statuses and texts are told in `docs/refusals.md`.
#![tactic(auto)]

mod answer;
mod grouping;
mod marking;
mod ordering;
mod refusal;
mod status;
mod verification;

pub use answer::{Answer, line_answer, unbuilt};
pub use grouping::groups_printed;
pub use marking::{mark_of, not_runnable, number_of};
pub use ordering::orders_printed;
pub use refusal::{refused, refused_in, refused_term};
pub use status::Status;
pub use verification::verify_files;
