//! The commands as `clap` has them: the words that each takes.

ghost use Rattle.std.specs.Prelude.{◌≡◌, false, IfOk};
ghost use Rattle.clap.specs.Words.{app_of, rule_of, shape_of};
ghost use Rattle.clap.specs.declared.builder.command.Command.TheViews.{out-Command};
ghost use Rattle.st_words.specs.inner.Program.{plain_rule, option_rule, shape_named, program_app};

use crate::name::{CommandName, NAMES};
use clap::{Arg, ArgAction};
use std::alloc::{AllocError, Global};

/// What the plain words of a command are found by.
pub(crate) const PLAIN: &str = "words";

/// The name of the option that says the fuel, which is what its value is found by.
pub(crate) const FUEL: &str = "fuel";

/// The name of the option that says the depth, which is what its value is found by.
pub(crate) const DEPTH: &str = "depth";

/// The plain words of a command, of which there is at least one.
fn plain_argument<'a>(alloc: Global) -> Arg<'a>
    ensures rule { rule_of result ≡ plain_rule }
    ensures local { result.global ≡ false }
{
    Arg::new(alloc, PLAIN)
        .action(ArgAction::Append)
        .required(true)
}

/// An option of this name, given at most once, with any text as its value.
fn option_argument<'a>(alloc: Global, name: &'a str) -> Arg<'a>
    ensures rule { rule_of result ≡ option_rule name.now }
    ensures local { result.global ≡ false }
{
    Arg::new(alloc, name).long(name).action(ArgAction::Set)
}

/// The command of this name.
fn command_named<'a>(alloc: Global, name: CommandName) -> Result<clap::Command<'a>, AllocError>
    ensures shape { IfOk result (λ command. shape_of command ≡ shape_named name) }
    ensures local { IfOk result (λ command. (out-Command command).has_globals ≡ false) }
{
    let plain = plain_argument(alloc);
    let spelling: &'a str = name.spelling();
    let command = clap::Command::new(alloc, spelling).arg(plain)?;
    if !name.takes_options() {
        return Ok(command);
    }
    let fuel = option_argument(alloc, FUEL);
    let depth = option_argument(alloc, DEPTH);
    command.arg(fuel)?.arg(depth)
}

/// All commands, as the subcommands of one, with no help and no version.
pub(crate) fn program<'a>(alloc: Global) -> Result<clap::Command<'a>, AllocError>
    ensures { IfOk result (λ program. app_of program ≡ program_app) }
{
    let mut program = clap::Command::new(alloc, "spectec")
        .no_binary_name(true)
        .disable_help_flag(true)
        .disable_help_subcommand(true)
        .disable_version_flag(true)
        .subcommand_required(true);
    for name in &NAMES {
        program = program.subcommand(command_named(alloc, *name)?)?;
    }
    Ok(program)
}
