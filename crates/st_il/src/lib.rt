//! The internal language: what a specification means once names, notation and types are settled.
//!
//! Definitions are named by their positions, notation has become tags, and each conversion between
//! types is written out. Values, environments and derivation trees are plain data to contracts.
//!
//! Read `definition` and `expression` first. What can be derived is told by `st_semantics`.
//! The language is told in `docs/internal-language.md`, its meaning in `docs/semantics.md`.
#![tactic(auto)]

mod copy;
mod definition;
mod definition_copy;
mod expression;
mod expression_copy;
mod height;
mod key;
mod occurs;
mod order;
mod reading;
mod reserved;
mod same;
mod small;
mod small_il;
mod tag_part;
mod template;
mod tree;
mod tree_copy;
mod ty;
mod type_rule;
mod value;

pub use copy::{copy_env, copy_fields, copy_ty, copy_tys, copy_value, copy_values};
pub use definition::{
    Alternative, ClauseDef, FunDef, Il, IlDef, Listed, RelationDef, RuleDef, SyntaxBody, SyntaxDef,
};
pub use definition_copy::{copy_body, copy_fun, copy_relation, copy_syntax};
pub use expression::{IlExp, IlPrem, Iteration, ListItem, PathSeg};
pub use expression_copy::{copy_exp, copy_iteration};
pub use height::is_within_height;
pub use key::{Key, key_of, same_key};
pub use occurs::HasVariables;
pub use order::{compare, compare_env, compare_values};
pub use reading::template_of;
pub use reserved::is_reserved;
pub use same::{same_env, same_fields, same_value, same_values};
pub use small::{Small, SmallRule};
pub use small_il::il_of_small;
pub use template::Template;
pub use tree::{Child, Tree};
pub use tree_copy::{copy_children, copy_tree};
pub use ty::{NumTy, Ty};
pub use type_rule::TypeRule;
pub use value::{Env, Value};
