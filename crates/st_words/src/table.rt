//! The table of the commands: the command of a name, with words that are arranged.

ghost use Rattle.std.specs.Prelude.{◌≡◌, ◌≢◌, ℕ, ◌∷◌, [], List, MatchResult, IfOk, OnErr};
ghost use Rattle.st_words.specs.Table.{Asks, NoOptions, TakesFiles, TakesTerm, TakesRelation, TakesRun, TakesVerify, TakesMake};
ghost use Rattle.st_words.specs.inner.Goals.{IsGoal};
ghost use Rattle.st_words.specs.declared.command.Command.{Command};
ghost use Rattle.st_words.specs.declared.table.Goal.{Goal};

use crate::arrangement::Arrangement;
use crate::name::CommandName;
use crate::number::{depth_of, fuel_of, number_of};
use crate::{Command, CommandWord, WordsFault};
use st_num::Row;

/// The first of the words, which is taken off.
fn take_first(words: &mut Vec<CommandWord>) -> Result<CommandWord, WordsFault>
    ensures ok { IfOk result (λ first. words.old.items ≡ first ∷ words.new.items) }
    ensures err { OnErr result (words.old.items ≡ []) }
{
    if words.is_empty() {
        return Err(WordsFault::Usage);
    }
    Ok(words.remove(0))
}

/// The words as the names of one or more files.
fn some_files(files: Vec<CommandWord>) -> Result<Row<CommandWord>, WordsFault>
    ensures { MatchResult result
        (λ some. (files.items ≡ some) × (some ≢ []))
        (λ fault. files.items ≡ []) }
{
    if files.is_empty() {
        return Err(WordsFault::Usage);
    }
    Ok(Row::from_vec(files))
}

/// The plain words, where no option is given.
fn without_options(given: Arrangement) -> Result<Vec<CommandWord>, WordsFault>
    ensures { MatchResult result
        (λ words. (given.plain ≡ words.items) × NoOptions given)
        (λ fault. ¬ (NoOptions given)) }
{
    if !given.fuels.is_empty() || !given.depths.is_empty() {
        return Err(WordsFault::Usage);
    }
    Ok(given.plain.into_vec())
}

/// FILE+: the names of the files, with no option.
fn take_files(given: Arrangement) -> Result<Row<CommandWord>, WordsFault>
    ensures { MatchResult result
        (λ files. TakesFiles given files)
        (λ fault. (files : List (List ℕ)) → ¬ (TakesFiles given files)) }
{
    some_files(without_options(given)?)
}

/// TERM FILE+: the file of a term and the other files, with no option.
fn take_term(given: Arrangement) -> Result<(CommandWord, Row<CommandWord>), WordsFault>
    ensures { MatchResult result
        (λ taken. TakesTerm given taken.0 taken.1)
        (λ fault. (term : List ℕ) (files : List (List ℕ)) → ¬ (TakesTerm given term files)) }
{
    let mut words = without_options(given)?;
    let term = take_first(&mut words)?;
    let files = some_files(words)?;
    Ok((term, files))
}

/// A relation, the file of a term and files.
#[derive(Drop)]
struct Goal {
    relation: CommandWord,
    term: CommandWord,
    files: Row<CommandWord>,
}

/// REL TERM FILE+: the relation, the file of a term and the other files.
fn goal_of(mut words: Vec<CommandWord>) -> Result<Goal, WordsFault>
    ensures { MatchResult result
        (λ goal. IsGoal words.items goal)
        (λ fault. (goal : Goal) → ¬ (IsGoal words.items goal)) }
{
    let relation = take_first(&mut words)?;
    let term = take_first(&mut words)?;
    let files = some_files(words)?;
    Ok(Goal {
        relation,
        term,
        files,
    })
}

/// REL TERM FILE+: the relation, the file of a term and the other files, with no option.
fn take_relation(given: Arrangement) -> Result<Goal, WordsFault>
    ensures { MatchResult result
        (λ goal. TakesRelation given goal.relation goal.term goal.files)
        (λ fault. (relation term : List ℕ) (files : List (List ℕ))
        → ¬ (TakesRelation given relation term files)) }
{
    goal_of(without_options(given)?)
}

/// REL TERM FILE+ with options: the same, and the fuel and the depth.
fn take_run(given: Arrangement) -> Result<(Goal, u32, u32), WordsFault>
    ensures { MatchResult result
        (λ taken. TakesRun given taken.0.relation taken.0.term taken.0.files taken.1 taken.2)
        (λ fault. (relation term : List ℕ) (files : List (List ℕ)) (fuel depth : ℕ)
        → ¬ (TakesRun given relation term files fuel depth)) }
{
    let fuel = fuel_of(given.fuels.as_slice())?;
    let depth = depth_of(given.depths.as_slice())?;
    let goal = goal_of(given.plain.into_vec())?;
    Ok((goal, fuel, depth))
}

/// IL DERIVATION: the files of an internal language and of a derivation, with no option.
fn take_verify(given: Arrangement) -> Result<(CommandWord, CommandWord), WordsFault>
    ensures { MatchResult result
        (λ taken. TakesVerify given taken.0 taken.1)
        (λ fault. (il derivation : List ℕ) → ¬ (TakesVerify given il derivation)) }
{
    let mut words = without_options(given)?;
    let il = take_first(&mut words)?;
    let derivation = take_first(&mut words)?;
    if !words.is_empty() {
        return Err(WordsFault::Usage);
    }
    Ok((il, derivation))
}

/// N: the number, with no option.
fn take_make(given: Arrangement) -> Result<u8, WordsFault>
    ensures { MatchResult result
        (λ n. TakesMake given n)
        (λ fault. (n : ℕ) → ¬ (TakesMake given n)) }
{
    let mut words = without_options(given)?;
    let text = take_first(&mut words)?;
    if !words.is_empty() {
        return Err(WordsFault::Usage);
    }
    let number = number_of(text.as_str(), 1, 16)?;
    Ok(number as u8)
}

/// The command of this name, with words that are arranged so.
pub(crate) fn command_of(name: CommandName, given: Arrangement) -> Result<Command, WordsFault>
    ensures { MatchResult result
        (λ command. Asks name given command)
        (λ fault. (command : Command) → ¬ (Asks name given command)) }
{
    match name {
        CommandName::Check => Ok(Command::Check(take_files(given)?)),
        CommandName::Il => Ok(Command::Il(take_files(given)?)),
        CommandName::Groups => Ok(Command::Groups(take_files(given)?)),
        CommandName::Order => Ok(Command::Order(take_files(given)?)),
        CommandName::Prose => Ok(Command::Prose(take_files(given)?)),
        CommandName::Latex => Ok(Command::Latex(take_files(given)?)),
        CommandName::Eval => {
            let (term, files) = take_term(given)?;
            Ok(Command::Eval(term, files))
        }
        CommandName::Next => {
            let goal = take_relation(given)?;
            Ok(Command::Next(goal.relation, goal.term, goal.files))
        }
        CommandName::Run => {
            let (goal, fuel, depth) = take_run(given)?;
            Ok(Command::Run(goal.relation, goal.term, goal.files, fuel, depth))
        }
        CommandName::Derive => {
            let (goal, fuel, depth) = take_run(given)?;
            Ok(Command::Derive(goal.relation, goal.term, goal.files, fuel, depth))
        }
        CommandName::Verify => {
            let (il, derivation) = take_verify(given)?;
            Ok(Command::Verify(il, derivation))
        }
        CommandName::Make => Ok(Command::Make(take_make(given)?)),
    }
}
