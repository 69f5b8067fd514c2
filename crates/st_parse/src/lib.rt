//! The one parser: the source trees of tokens, or the first fault and its place.
//!
//! The one idea: each token is judged, and then taken. What is known of the open definition is a
//! draft, which a token between parts changes in one small way, and into which a part goes where it
//! ends. What passes a limit is noted where it stands: the first variable that is one too many, and
//! the first definition with a tree that is too high. From then on no tree is needed, and what was
//! noted is answered in the order of the faults.
//!
//! A file of expressions is read by the same loop, over another `Reader`: each expression as the
//! conclusion of a rule is, and a comma behind it ends it and begins the next one.
//!
//! Read `reader` first, with `specs/inner/Readers.antt`, then `parser` with `specs/Source.antt`,
//! `take` and `kept` with `specs/inner/Kept.antt`, `change` and `apply` with
//! `specs/inner/Drafts.antt`, and `expression_parser` with `specs/ExpressionSource.antt`. The rules
//! are in `docs/language.md`, "Places of refusals" and "Files of expressions".
#![tactic(auto)]

mod apply;
mod built_part;
mod change;
mod definition;
mod draft;
mod expression_draft;
mod expression_judge;
mod expression_laws;
mod expression_parser;
mod head;
mod kept;
mod laws;
mod members;
mod parser;
mod parts;
mod premise;
mod reader;
mod sides;
mod take;
mod variables;

pub use built_part::Part;
pub use change::{Change, DefinitionEnd};
pub use draft::{Draft, Head, Members, Premises, Sides};
pub use expression_laws::{
    expressions_are_read, faults_of_expressions, judging_of_expressions_agrees,
    one_answer_of_expressions, one_list_of_expressions, one_meaning,
};
pub use expression_parser::parse_exp;
pub use kept::{Heights, Kept};
pub use laws::one_answer;
pub use parser::parse;
pub use parts::{PartToken, PartTree, Parts};
pub use variables::Variables;
