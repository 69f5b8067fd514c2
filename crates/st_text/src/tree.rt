//! Text trees: what one text in parentheses stands for.

use st_num::{Name, Row};

/// A word, a quoted text, or a list in parentheses.
#[derive(Drop)]
pub enum TextTree {
    Word(Name),
    Quote(Name),
    List(Row<TextTree>),
}
