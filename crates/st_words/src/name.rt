//! The names of the commands.

ghost use Rattle.std.specs.Prelude.{◌≡◌, ◌≢◌, MatchOption};
ghost use Rattle.st_words.specs.Names.{name_spelling};
ghost use Rattle.st_words.specs.inner.Program.{takes_options};
ghost use Rattle.st_words.specs.declared.name.CommandName.{CommandName};

/// The name of a command, which is its first word.
#[derive(Clone, Copy)]
pub(crate) enum CommandName {
    Check,
    Il,
    Groups,
    Order,
    Eval,
    Next,
    Run,
    Derive,
    Verify,
    Prose,
    Latex,
    Make,
}

impl CommandName {
    /// How the name is written.
    pub(crate) fn spelling(self) -> &'static str
        ensures { result.now ≡ name_spelling self }
    {
        match self {
            CommandName::Check => "check",
            CommandName::Il => "il",
            CommandName::Groups => "groups",
            CommandName::Order => "order",
            CommandName::Eval => "eval",
            CommandName::Next => "next",
            CommandName::Run => "run",
            CommandName::Derive => "derive",
            CommandName::Verify => "verify",
            CommandName::Prose => "prose",
            CommandName::Latex => "latex",
            CommandName::Make => "make",
        }
    }

    /// Whether the command takes options.
    pub(crate) fn takes_options(self) -> bool
        ensures { result ≡ takes_options self }
    {
        match self {
            CommandName::Run | CommandName::Derive => true,
            CommandName::Check
            | CommandName::Il
            | CommandName::Groups
            | CommandName::Order
            | CommandName::Eval
            | CommandName::Next
            | CommandName::Verify
            | CommandName::Prose
            | CommandName::Latex
            | CommandName::Make => false,
        }
    }
}

/// The names of the commands.
pub(crate) const NAMES: [CommandName; 12] = [
    CommandName::Check,
    CommandName::Il,
    CommandName::Groups,
    CommandName::Order,
    CommandName::Eval,
    CommandName::Next,
    CommandName::Run,
    CommandName::Derive,
    CommandName::Verify,
    CommandName::Prose,
    CommandName::Latex,
    CommandName::Make,
];

/// The name that the word is, if any.
pub(crate) fn name_of(word: &str) -> Option<CommandName>
    ensures { MatchOption result
        ((name : CommandName) → word.now ≢ name_spelling name)
        (λ name. word.now ≡ name_spelling name) }
{
    for name in &NAMES {
        if name.spelling() == word {
            return Some(*name);
        }
    }
    None
}
