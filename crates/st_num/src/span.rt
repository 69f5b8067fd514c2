//! Places in source texts.

/// The place of the first character of a part of a text.
///
/// Files count from 0 in the order of the command; lines and columns count from 1, and a column
/// counts characters. The place `0:0:0` belongs to no text: it stands where places are dropped.
#[derive(Clone, Copy, Debug, PartialEq, Eq)]
pub struct Span {
    pub file: u16,
    pub line: u32,
    pub column: u32,
}

impl Span {
    /// The place that belongs to no text.
    pub const NOWHERE: Span = Span {
        file: 0,
        line: 0,
        column: 0,
    };
}
