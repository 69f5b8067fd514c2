//! Terms, which tell values, and queries.
//!
//! Values come in and the text of their term goes out; or the text of a term or a query comes in,
//! and its values, or what it is elaborated to, go out, or the first rule that it breaks. The one
//! idea of printing: a case is printed as the pieces of its notation, one after another, and where a
//! hole stands is told by the pieces beside it. Reading puts together what others do: the tokens, the
//! grammar, elaboration without variables, and the value of what is elaborated. That the values of a
//! term have the types at which it is read, `typed` asks by matching.
//!
//! Read `print` first, with `specs/TermText.antt`, and then `read`, with `specs/Reading.antt`. The
//! rules are in `docs/language.md`, "The text of values" and "Terms and queries".
#![tactic(auto)]

mod foreign;
mod formed;
mod open;
mod piece;
mod place;
mod print;
mod read;
mod typed;
mod value;

pub use print::print_term;
pub use read::{read_query, read_term};
pub use st_num::Fault as TermFault;
pub use typed::{input_types, typed_term};
