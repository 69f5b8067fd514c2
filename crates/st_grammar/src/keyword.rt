//! The words and signs that definitions, hints and premises begin with.

/// What begins a definition, a hint or a premise.
#[derive(Clone, Copy, Debug, PartialEq, Eq)]
pub enum Keyword {
    SyntaxWord,
    RelationWord,
    RuleWord,
    VarWord,
    DefWord,
    HintWord,
    IfWord,
    OtherwiseWord,
    /// The sign `--`.
    Dashes,
    NoWord,
}
