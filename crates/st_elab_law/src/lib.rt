//! Laws of elaboration: what is elaborated is erased to what it came from, and has its variables;
//! and no question is without an answer.
//!
//! No code stands here that runs. The one idea: the table of `st_elab_table` is read row by row,
//! and each row keeps what is claimed of the question that it answers.
//!
//! Read `specs/Law.antt` first, with `specs/Agreement.antt` for what it asks of the definitions,
//! and then `proofs/Claims.antt` for what is claimed; `specs/KeepsNotes.antt` is the law of
//! variables, and `specs/Totality.antt` that of answers. The rules are in `docs/elaboration.md`.
#![tactic(auto)]

mod laws;

pub use laws::{each_is_answered, erases_back, keeps_notes};
