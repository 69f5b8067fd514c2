//! Types: which values have them, and which are subtypes.
//!
//! Both are asked of a `TypeTable`, which is seen as the definitions of the syntaxes that it was
//! made from; it answers itself what a type means and which types are equal.
//!
//! Read `typing` and `sub`, with `HasType.antt` and `Sub.antt` of `st_type_table`.
#![tactic(auto)]

mod sub;
mod typing;

pub use st_type_table::{Bodies, Broken, CaseDef, TypeFault, TypeTable};
pub use sub::{are_same, is_sub};
pub use typing::has_type;
