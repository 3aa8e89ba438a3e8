//! The commands, as `clap` is told them.

ghost use Rattle.std.specs.Prelude.{◌≡◌, IfOk, map};
ghost use Rattle.qc_words.specs.Words.{texts};
ghost use Rattle.clap.specs.Words.{app_of};
ghost use Rattle.qc_words.specs.Commands.{command_name, named, command_with_options, command_with, command_of, odds_command, rest_command, search_command};

use clap::{Arg, Command};
use std::alloc::{AllocError, Global};

/// The command that words begin with.
#[derive(Clone, Copy, PartialEq, Eq)]
pub enum CommandName {
    Plan,
    Check,
    Tasks,
    Show,
    Make,
    Free,
    FreeCheck,
    Sheet,
    Watch,
    Dispatch,
    Picture,
    Report,
    Moves,
    Odds,
    Rest,
}

/// The command with this name.
pub(crate) fn command_name(word: &str) -> Option<CommandName>
    ensures { result ≡ command_name word.now }
{
    match word {
        "plan" => Some(CommandName::Plan),
        "check" => Some(CommandName::Check),
        "tasks" => Some(CommandName::Tasks),
        "show" => Some(CommandName::Show),
        "make" => Some(CommandName::Make),
        "free" => Some(CommandName::Free),
        "freecheck" => Some(CommandName::FreeCheck),
        "sheet" => Some(CommandName::Sheet),
        "watch" => Some(CommandName::Watch),
        "dispatch" => Some(CommandName::Dispatch),
        "picture" => Some(CommandName::Picture),
        "report" => Some(CommandName::Report),
        "moves" => Some(CommandName::Moves),
        "odds" => Some(CommandName::Odds),
        "rest" => Some(CommandName::Rest),
        _ => None,
    }
}

/// The command that the first word names.
pub fn named(words: &[String]) -> Option<CommandName>
    ensures { result ≡ named (texts words.now) }
{
    command_name(words.first()?.as_str())
}

/// A command with these operands in order, and with options of these names, each with a value.
fn command_with_options<'a>(
    alloc: Global,
    name: &'a str,
    operands: &[&'a str],
    options: &[&'a str],
) -> Result<Command<'a>, AllocError>
    ensures { IfOk result (λ command. app_of command ≡ command_with_options name.entry.now
        (map (λ operand. operand.now) operands.now) (map (λ option. option.now) options.now)) }
{
    let mut command = Command::new(alloc, name);
    for operand in operands {
        command = command.arg(Arg::new(alloc, *operand).required(true))?;
    }
    for option in options {
        command = command.arg(Arg::new(alloc, *option).long(*option))?;
    }
    Ok(command)
}

/// A command with these operands in order.
fn command_with<'a>(
    alloc: Global,
    name: &'a str,
    operands: &[&'a str],
) -> Result<Command<'a>, AllocError>
    ensures { IfOk result (λ command. app_of command
        ≡ command_with name.entry.now (map (λ operand. operand.now) operands.now)) }
{
    command_with_options(alloc, name, operands, &[])
}

/// A command that plans, with its operands and the options `--nodes` and `--from`.
fn search_command<'a>(alloc: Global, name: &'a str) -> Result<Command<'a>, AllocError>
    ensures { IfOk result (λ command. app_of command ≡ search_command name.entry.now) }
{
    command_with_options(
        alloc,
        name,
        &["ship", "stow", "plan", "tree"],
        &["nodes", "from"],
    )
}

/// The command that tells the odds of a plan, with its operands and its options.
fn odds_command<'a>(alloc: Global) -> Result<Command<'a>, AllocError>
    ensures { IfOk result (λ command. app_of command ≡ odds_command) }
{
    command_with_options(
        alloc,
        "odds",
        &["ship", "stow", "plan", "past"],
        &["runs", "seed", "by"],
    )
}

/// The command that writes what is left of a plan, with its operands.
fn rest_command<'a>(alloc: Global) -> Result<Command<'a>, AllocError>
    ensures { IfOk result (λ command. app_of command ≡ rest_command) }
{
    command_with(
        alloc,
        "rest",
        &["ship", "stow", "plan", "log", "newship", "newstow", "own"],
    )
}

/// The command as `clap` is told it.
pub fn command_of<'a>(alloc: Global, name: CommandName) -> Result<Command<'a>, AllocError>
    ensures { IfOk result (λ command. app_of command ≡ command_of name) }
{
    match name {
        CommandName::Plan => search_command(alloc, "plan"),
        CommandName::Check => command_with(alloc, "check", &["ship", "stow", "plan", "tree"]),
        CommandName::Tasks => command_with(alloc, "tasks", &["ship", "stow"]),
        CommandName::Show => command_with(alloc, "show", &["ship", "stow", "plan"]),
        CommandName::Make => command_with(alloc, "make", &["number", "hatches", "cranes"]),
        CommandName::Free => search_command(alloc, "free"),
        CommandName::FreeCheck => {
            command_with(alloc, "freecheck", &["ship", "stow", "plan", "tree"])
        }
        CommandName::Sheet => command_with(alloc, "sheet", &["ship", "stow", "plan"]),
        CommandName::Watch => command_with(alloc, "watch", &["ship", "log"]),
        CommandName::Dispatch => command_with(alloc, "dispatch", &["ship", "stow", "plan", "log"]),
        CommandName::Picture => command_with(alloc, "picture", &["ship", "stow", "plan"]),
        CommandName::Report => command_with(alloc, "report", &["ship", "stow", "plan"]),
        CommandName::Moves => command_with(alloc, "moves", &["arrival", "departure", "stow"]),
        CommandName::Odds => odds_command(alloc),
        CommandName::Rest => rest_command(alloc),
    }
}
