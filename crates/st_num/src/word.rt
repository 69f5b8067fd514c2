//! The reserved words of the language.

ghost use Rattle.std.specs.Prelude.{◌≡◌};
ghost use Rattle.st_num.specs.Words.{word_spelling};

/// A name that the language keeps for itself.
#[derive(Clone, Copy, Debug, PartialEq, Eq)]
pub enum Word {
    Syntax,
    Relation,
    Rule,
    Var,
    Def,
    Grammar,
    Hint,
    If,
    Otherwise,
    Eps,
    True,
    False,
    Bool,
    Nat,
    Int,
    Text,
    Rat,
    Real,
}

impl Word {
    /// All reserved words.
    pub const ALL: [Word; 18] = [
        Word::Syntax,
        Word::Relation,
        Word::Rule,
        Word::Var,
        Word::Def,
        Word::Grammar,
        Word::Hint,
        Word::If,
        Word::Otherwise,
        Word::Eps,
        Word::True,
        Word::False,
        Word::Bool,
        Word::Nat,
        Word::Int,
        Word::Text,
        Word::Rat,
        Word::Real,
    ];

    /// How the word is written.
    pub fn spelling(self) -> &'static str
        ensures { result.now ≡ word_spelling self }
    {
        match self {
            Word::Syntax => "syntax",
            Word::Relation => "relation",
            Word::Rule => "rule",
            Word::Var => "var",
            Word::Def => "def",
            Word::Grammar => "grammar",
            Word::Hint => "hint",
            Word::If => "if",
            Word::Otherwise => "otherwise",
            Word::Eps => "eps",
            Word::True => "true",
            Word::False => "false",
            Word::Bool => "bool",
            Word::Nat => "nat",
            Word::Int => "int",
            Word::Text => "text",
            Word::Rat => "rat",
            Word::Real => "real",
        }
    }
}
