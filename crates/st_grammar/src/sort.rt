//! What a token can be in a part of a definition, and the sorts of parts.

ghost use Rattle.std.specs.Prelude.{◌≡◌};
ghost use Rattle.st_grammar.specs.Levels as levels;

/// What a token is that can stand alone as a part.
#[derive(Clone, Copy, Debug, PartialEq, Eq)]
pub enum Leaf {
    /// A name that begins with a lower-case letter.
    Low,
    /// One of `bool`, `nat`, `int`, `text`.
    Basic,
    /// A name without a lower-case letter that stands for a variable.
    Variable,
    /// Another name without a lower-case letter.
    Atom,
    Number,
    /// A text, `true`, `false` or `eps`.
    Literal,
    /// A name right behind a dollar sign.
    Function,
}

/// What opens: `(`, `[`, `{`, the three behind a backquote, and `$(`.
#[derive(Clone, Copy, Debug, PartialEq, Eq)]
pub enum Bracket {
    Round,
    Square,
    Brace,
    TickRound,
    TickSquare,
    TickBrace,
    Dollar,
}

/// What closes: `)`, `]`, `}`, and the bar, which opens a length too.
#[derive(Clone, Copy, Debug, PartialEq, Eq)]
pub enum Closing {
    ByRound,
    BySquare,
    ByBrace,
    ByBar,
}

/// What a part is, which tells what may stand in it.
#[derive(Clone, Copy, Debug, PartialEq, Eq)]
pub enum Sort {
    /// An expression, and whether it stands directly between the bars of a length.
    Expression(bool),
    /// What stands in `$( )`.
    Arithmetic,
    Notation,
    Typ,
    /// What stands behind `^`.
    Count,
    /// What stands behind `<` in a count.
    Bound,
}

impl Sort {
    /// Whether such an operand of one token stands in such a part.
    pub fn takes(self, leaf: Leaf) -> bool
        ensures { result ≡ levels.takes self leaf }
    {
        match self {
            Sort::Expression(_) => true,
            Sort::Arithmetic => !matches!(leaf, Leaf::Atom | Leaf::Literal),
            Sort::Notation => !matches!(leaf, Leaf::Number | Leaf::Literal | Leaf::Function),
            Sort::Typ => matches!(leaf, Leaf::Low | Leaf::Basic),
            Sort::Count | Sort::Bound => {
                !matches!(leaf, Leaf::Atom | Leaf::Literal | Leaf::Function)
            }
        }
    }

    /// Whether such a bracket begins an operand in such a part.
    pub fn encloses(self, bracket: Bracket) -> bool
        ensures { result ≡ levels.encloses self bracket }
    {
        match self {
            Sort::Expression(_) => !matches!(bracket, Bracket::Square),
            Sort::Arithmetic => matches!(bracket, Bracket::Round | Bracket::Dollar),
            Sort::Notation => !matches!(
                bracket,
                Bracket::Square | Bracket::Brace | Bracket::Dollar
            ),
            Sort::Typ => matches!(bracket, Bracket::Round),
            Sort::Count | Sort::Bound => matches!(bracket, Bracket::Dollar),
        }
    }

    /// The sort of what stands in such a bracket, by the sort of the part in which it stands.
    pub fn inside(self, bracket: Bracket) -> Sort
        ensures { result ≡ levels.inside self bracket }
    {
        match (self, bracket) {
            (_, Bracket::Dollar) => Sort::Arithmetic,
            (Sort::Arithmetic, _) => Sort::Arithmetic,
            (Sort::Notation, Bracket::Round) => Sort::Typ,
            (Sort::Notation, _) => Sort::Notation,
            (Sort::Typ, _) => Sort::Typ,
            (_, _) => Sort::Expression(false),
        }
    }

    /// Whether lengths, calls and elements at a position stand in such a part.
    pub fn computes(self) -> bool
        ensures { result ≡ levels.computes self }
    {
        matches!(self, Sort::Expression(_) | Sort::Arithmetic)
    }

    /// Whether such a part is an expression, directly between bars or not.
    pub fn is_expression(self) -> bool
        ensures { result ≡ levels.is_expression self }
    {
        matches!(self, Sort::Expression(_))
    }

    /// Whether such a part is the count behind `^`.
    pub fn is_count(self) -> bool
        ensures { result ≡ levels.is_count self }
    {
        matches!(self, Sort::Count)
    }

    /// Whether parts one behind the other are a sequence in such a part.
    pub fn juxtaposes(self) -> bool
        ensures { result ≡ levels.juxtaposes self }
    {
        matches!(self, Sort::Expression(_) | Sort::Notation)
    }

    /// Whether signs of this level stand in such a part.
    pub fn has_level(self, level: u8) -> bool
        ensures { result ≡ levels.has_level self level }
    {
        match self {
            Sort::Expression(_) => 1 <= level && level <= 13,
            Sort::Arithmetic => 15 <= level,
            Sort::Notation => 7 <= level && level <= 12,
            Sort::Typ | Sort::Count | Sort::Bound => false,
        }
    }
}

/// How parts are set off from one another.
#[derive(Clone, Copy, Debug, PartialEq, Eq)]
pub enum Style {
    /// There is exactly one.
    Lone,
    /// By commas.
    Parts,
    /// By commas, with a name before each.
    Fields,
    /// One, or two with a colon between them.
    Ends,
    /// By nothing.
    Run,
}
