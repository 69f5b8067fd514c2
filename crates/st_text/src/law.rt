//! What holds of the texts of all trees.

ghost use Rattle.st_text.specs.Laws.{OneText, OneTree, OneRow, OneFront, NoFrontOfAnother};

/// A tree has one text, and bytes are the text of one tree, or of one row of trees.
pub fn one_text_one_tree()
    ensures text { OneText }
    ensures tree { OneTree }
    ensures row { OneRow }
{}

/// At the front of bytes stands one text at most: with a space, a closing parenthesis or a line
/// feed behind it, a text does not begin another with one of these behind it.
pub fn texts_end()
    ensures front { OneFront }
    ensures no_front { NoFrontOfAnother }
{}
