//! What holds of all texts of lines.

ghost use Rattle.st_deriv.specs.Laws.{OneText, OneLine, PrintedIsRead, NoLineFeed};

/// A line has one text, and bytes are the text of one line. No text has a line feed. What is
/// printed of lines is the texts of these lines, and of no others.
pub fn one_text_one_line()
    ensures text { OneText }
    ensures line { OneLine }
    ensures feed { NoLineFeed }
    ensures printed { PrintedIsRead }
{}
