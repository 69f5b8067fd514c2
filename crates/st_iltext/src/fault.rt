//! The fault of what is malformed.

use st_text::TextFault;

/// The fault of a tree, or of a single line.
pub const MALFORMED: TextFault = TextFault::Malformed { line: 1 };
