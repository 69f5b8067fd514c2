//! Where source is refused first, and by which rule: what it breaks of the grammar, or of the
//! limits.
//!
//! The one idea: the parser of `st_parse_automaton` takes the tokens one after another, and what is
//! counted of the reading is asked behind each of them.
//!
//! Read `reader` first, with `specs/Faults.antt`, which tells the faults by trees. The rules are in
//! `docs/language.md`, "Places of refusals".
#![tactic(auto)]

mod before;
mod counts;
mod fault;
mod judge;
mod laws;
mod nesting;
mod place;
mod reader;
mod role;
mod tally;

pub use fault::TokenFault;
pub use judge::{Seen, TokenVerdict, judge_token, nothing_counted};
pub use laws::{faults_of_the_grammar, judging_agrees, one_fault};
pub use place::place_at;
pub use reader::first_fault;
pub use st_num::Fault as SyntaxFault;
