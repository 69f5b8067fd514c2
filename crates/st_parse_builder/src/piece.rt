//! What stands on the stack while a tree is built.

use st_el::{Exp, Seg};
use st_num::{Name, Row, Span};

/// A piece of a tree that is built.
#[derive(Drop)]
pub enum Piece {
    /// A finished part.
    Done(Exp),
    /// Several parts so far, and where they begin.
    Parts(Span, Row<Exp>),
    Fields(Span, Row<(Name, Exp)>),
    Path(Row<Seg>),
    Label(Name),
    /// What begins at this place.
    Here(Span),
}
