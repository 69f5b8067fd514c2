//! Elaboration of expressions, and of the rules and clauses that they stand in.
//!
//! A source expression, rule or clause and declarations come in, and what it is in the internal
//! language or the first breach goes out. The one idea: a question is answered by its row of the
//! table of `st_elab_table`, and only `driver` recurses, so that each row is proved by itself. Of a
//! rule or clause the scope of its variables is found first, and each part is then asked in that
//! scope, in the order of the text.
//!
//! Read `elaborate` first, with `specs/Elaboration.antt` of `st_elab_table`; then `rule` and
//! `premise`, with its `specs/Premises.antt` and `specs/Rules.antt`. The rules are in
//! `docs/elaboration.md`.
#![tactic(auto)]

mod checked;
mod clause;
mod collection;
mod driver;
mod elaborate;
mod inferred;
mod inside;
mod judgement;
mod laws;
mod premise;
mod record_row;
mod rule;
mod scope;
mod turn;

pub use clause::elaborate_clause;
pub use elaborate::{around, check_exp, infer_exp};
pub use inside::{check_count, check_fillings, check_inside, check_parts};
pub use laws::{one_clause, one_rule};
pub use rule::elaborate_rule;
pub use st_elab_table::{Decls, ExpFault, NamedRow, Scope};
