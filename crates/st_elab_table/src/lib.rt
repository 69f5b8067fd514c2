//! What the elaboration of an expression is: its words, and the relation that contracts cite.
//!
//! The one idea: a table says, for each question about an expression, which questions about its
//! parts are asked and in what order; elaboration, the inferred type and the first breach are three
//! readings of one relation over that table. No code that elaborates stands here.
//!
//! Read `specs/Questions.antt` first, then the table, `specs/Checked.antt` and
//! `specs/Inferred.antt`, and `specs/Elaboration.antt`. The rules are in `docs/elaboration.md`.
#![tactic(auto)]

mod decls;
mod laws;
mod named;
mod named_row;
mod operator;

pub use decls::{Decls, Scope};
pub use laws::one_answer;
pub use named::Named;
pub use named_row::NamedRow;
pub use operator::{Operator, operator_of};
pub use st_num::Fault as ExpFault;
