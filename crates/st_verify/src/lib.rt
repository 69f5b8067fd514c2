//! The checker of derivations: it sees an internal language and lines, and nothing of a search.
//!
//! A line is judged by what was noted of the lines before it. What is noted of a node is derivable,
//! whatever the lines are and whoever wrote them.
//!
//! Which lines are accepted, and by which rule one is refused, is told by `Verdict` of
//! `st_semantics`; read it first. The rules are told in `docs/derivations.md`.
#![tactic(auto)]

mod accepted;
mod fault;
mod known;
mod language;
mod noted;
mod small;
mod typed;
mod verdict;
mod verifier;

pub use accepted::Accepted;
pub use fault::{VerifyFault, definition_rule};
pub use language::judge_language;
pub use small::small_specifications;
pub use st_semantics::{Judgement, Notes, VerifyRule};
pub use verifier::Verifier;
