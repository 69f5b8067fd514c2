//! The fault of bytes that are no line.

use st_text::TextFault;

/// The fault of a reader that is given one line.
pub(crate) const MALFORMED: TextFault = TextFault::Malformed { line: 1 };
