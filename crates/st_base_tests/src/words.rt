//! The commands that words ask for.

use st_num::Row;
use st_words::{Command, CommandWord, WordsFault, has_options, read_words};
use std::alloc::{AllocError, Global};
use std::test::Fail;

/// The words of a text, where `_` is the empty word.
fn words_of(alloc: Global, text: &str) -> Result<Vec<String>, AllocError> {
    let mut words = Vec::new(alloc);
    for word in text.split_whitespace() {
        let word = if word == "_" { "" } else { word };
        words.push(String::from_str(alloc, word)?)?;
    }
    Ok(words)
}

/// Adds the words to a text, each behind a blank.
fn add_words(words: &Row<CommandWord>, text: &mut String) -> Result<(), AllocError> {
    for word in words.as_slice() {
        text.push_str(" ")?;
        text.push_str(word.as_str())?;
    }
    Ok(())
}

/// The first word of a command.
fn word_of(command: &Command) -> &'static str {
    match command {
        Command::Check(_) => "check",
        Command::Il(_) => "il",
        Command::Groups(_) => "groups",
        Command::Order(_) => "order",
        Command::Eval(_, _) => "eval",
        Command::Next(_, _, _) => "next",
        Command::Run(_, _, _, _, _) => "run",
        Command::Derive(_, _, _, _, _) => "derive",
        Command::Verify(_, _) => "verify",
        Command::Prose(_) => "prose",
        Command::Latex(_) => "latex",
        Command::Make(_) => "make",
    }
}

/// Adds the relation and the numbers of a command, each behind a blank.
fn add_parameters(command: &Command, text: &mut String, alloc: Global) -> Result<(), AllocError> {
    let parameters = match command {
        Command::Next(relation, _, _) => {
            let relation = relation.as_str();
            format!(in alloc; " {relation}")?
        }
        Command::Run(relation, _, _, fuel, depth) | Command::Derive(relation, _, _, fuel, depth) =>
            {
                let relation = relation.as_str();
                format!(in alloc; " {relation} {fuel} {depth}")?
            }
        Command::Make(size) => format!(in alloc; " {size}")?,
        _ => String::new(alloc),
    };
    text.push_str(parameters.as_str())
}

/// A command as its first word, its relation, its numbers and the files that it loads.
fn shown(alloc: Global, command: &Command) -> Result<String, Fail> {
    let mut text = String::from_str(alloc, word_of(command))?;
    add_parameters(command, &mut text, alloc)?;
    text.push_str(":")?;
    add_words(&command.file_names(alloc)?, &mut text)?;
    Ok(text)
}

/// What is told of the words.
fn told(alloc: Global, words: &str) -> Result<String, Fail> {
    let words = words_of(alloc, words)?;
    match read_words(alloc, words.as_slice()) {
        Ok(command) => shown(alloc, &command),
        Err(WordsFault::Usage) => Ok(String::from_str(alloc, "usage")?),
        Err(WordsFault::Memory) => Err(Fail::from("memory")),
    }
}

const COMMANDS: [(&str, &str); 21] = [
    ("run T a b --fuel 3", "run T 3 200: a b"),
    ("run --fuel=3 T a b", "run T 3 200: a b"),
    ("run T --depth 500 a --fuel=0 b c", "run T 0 500: a b c"),
    ("run T a b", "run T 1000 200: a b"),
    ("derive T a b --depth=2", "derive T 1000 2: a b"),
    (
        "derive --fuel 1000000 -- --fuel a b",
        "derive --fuel 1000000 200: a b",
    ),
    ("run T a b -- --fuel 3", "run T 1000 200: a b --fuel 3"),
    ("run T - --fuel 0000003 - -- -", "run T 3 200: - - -"),
    ("check -- -x", "check: -x"),
    ("check -", "check: -"),
    ("check a -- b -- --depth", "check: a b -- --depth"),
    ("il a b", "il: a b"),
    ("groups a", "groups: a"),
    ("order a", "order: a"),
    ("eval t a b", "eval: t a b"),
    ("next T t a", "next T: t a"),
    ("verify i d", "verify: i d"),
    ("prose a", "prose: a"),
    ("latex a", "latex: a"),
    ("make 016", "make 16:"),
    ("make -- 0000001", "make 1:"),
];

#[test]
fn words_ask_for_these_commands(rt: HostRuntime) -> Result<(), Fail> {
    for (words, wanted) in &COMMANDS {
        let told = told(rt.alloc(), words)?;
        assert!(&rt; told.as_str() == *wanted, "{words}");
    }
    Ok(())
}

const NO_COMMANDS: [&str; 41] = [
    "",
    "frob",
    "help",
    "help check",
    "--help",
    "--version",
    "check --help",
    "check a -h",
    "-- check a",
    "--fuel 3 run T a b",
    "check",
    "check --",
    "check a --fuel 3",
    "check -x",
    "run T a",
    "run T a b --fuel 3 --fuel 3",
    "run T a b --fuel=3 --fuel 3",
    "run T a b --depth 501",
    "run T a b --depth 1",
    "run T a b --fuel 1000001",
    "run T a b --fuel 00000001",
    "run T a b --fuel",
    "run T a b --fuel -",
    "run T a b --fuel +1",
    "run T a b --fuel --depth 3",
    "run T a b --depth=3 --depth=3",
    "run T a b --fuel -- 3",
    "run T a b --fuel _",
    "run T a b --fuel=",
    "run T a b --fuel=0x1",
    "run T a b --fuel=+1",
    "run T a b --fuels 3",
    "run T a b --speed=3",
    "eval t",
    "next T t",
    "verify i",
    "verify i d e",
    "make",
    "make 0",
    "make 17",
    "make 1 2",
];

#[test]
fn words_ask_for_no_command(rt: HostRuntime) -> Result<(), Fail> {
    for words in &NO_COMMANDS {
        let told = told(rt.alloc(), words)?;
        assert!(&rt; told.as_str() == "usage", "{words}");
    }
    Ok(())
}

const OPTIONS: [(&str, bool); 5] = [
    ("run T a b --fuel 3", true),
    ("check -x", true),
    ("check - a", false),
    ("check -- -x", false),
    ("-- --fuel", false),
];

#[test]
fn options_stand_before_the_end(rt: HostRuntime) -> Result<(), Fail> {
    for (words, wanted) in &OPTIONS {
        let words = words_of(rt.alloc(), words)?;
        assert!(&rt; has_options(words.as_slice()) == *wanted);
    }
    Ok(())
}
