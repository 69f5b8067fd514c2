//! What holds of the texts of all internal languages and of all values.

ghost use Rattle.st_iltext.specs.IlLaws.{OneIlText, OneIl};
ghost use Rattle.st_iltext.specs.ValueLaws.{OneValueText, OneValue, NoValueBeginsAnother};

/// An internal language has one text, and a text one internal language.
pub fn one_text_one_il()
    ensures text { OneIlText }
    ensures il { OneIl }
{}

/// A value has one text, and a text one value. With a space, a closing parenthesis or a line feed
/// behind it, the text of a value does not begin that of another with one of these behind it.
pub fn one_text_one_value()
    ensures text { OneValueText }
    ensures value { OneValue }
    ensures no_front { NoValueBeginsAnother }
{}
