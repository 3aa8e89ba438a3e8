//! Words that are read as a request.

ghost use Rattle.std.specs.Prelude.{◌≡◌, IfOk, IfSome, IsOk, IsTrue, map, option_map};
ghost use Rattle.std.specs.List.{list_any};
ghost use Rattle.std.specs.Option.{option_map_or};
ghost use Rattle.clap.specs.Words.{app_of, found_of, rows_of, first_of, is_simple_and_free};
ghost use Rattle.qc_run.specs.Inputs.{names_of};
ghost use Rattle.qc_words.specs.Asked.{asked_for, usage, KeepsLimits, are_different, is_same};
ghost use Rattle.qc_words.specs.Commands.{command_of, named, read_by};
ghost use Rattle.qc_words.specs.declared.commands.CommandName.TheVariants as name;
ghost use Rattle.qc_words.specs.Words.{Asks, about, asked_in, by_in, check_in, followed, listed, moves_in, nodes_in, number_between, odds_in, plan_in, planned, rest_in, runs_in, seed_in, texts, value_of, watched, weighed};

use crate::about::about;
use crate::asked::{MOST_NUMBER, MOST_RUNS, MOST_SEED, Reader, Request};
use crate::commands::{CommandName, command_of, named};
use clap::error::ErrorKind;
use clap::{ArgMatches, Command};
use qc_model::{MOST_CRANES, MOST_HATCHES, Turn};
use qc_num::{OutOfMemory, Tick, plain_number};
use qc_run::{Inputs, MovesAsked, OddsAsked, PlanAsked, RestAsked};
use qc_tree::MOST_BRANCHINGS;
use std::alloc::Global;

/// How many branchings a plan has at most where the words don't say it.
pub const USUAL_BRANCHINGS: u32 = 20_000;

/// How many runs odds are of where the words don't say it.
pub const USUAL_RUNS: u16 = 1000;

// How many digits the tick of `--by` has at most.
const TICK_DIGITS: usize = 12;

/// What the command reads from the words, or nothing where it refuses them.
fn read<'a>(
    command: Command<'a>,
    words: &'a [String],
) -> Result<Option<ArgMatches<'a>>, OutOfMemory>
    requires { IsTrue (is_simple_and_free (app_of command)) }
    ensures { IfOk result (λ read. option_map (λ matches. rows_of (found_of matches)) read
        ≡ read_by (app_of command.entry) (texts words.now)) }
{
    match command.try_get_matches_from(words) {
        Ok(matches) => Ok(Some(matches)),
        Err(error) => {
            let kind = error.kind();
            drop(error);
            if kind == ErrorKind::OutOfMemory {
                Err(OutOfMemory)
            } else {
                Ok(None)
            }
        }
    }
}

/// The value of an option or operand, where `clap` has one.
fn text_of<'a>(matches: &ArgMatches<'a>, name: &str) -> Option<&'a str>
    ensures { option_map (λ text. text.now) result
        ≡ first_of name.now (rows_of (found_of matches.now)) }
{
    matches.get_str(name)
}

/// The value of an operand. Each is required, so `clap` has one where it takes the words.
fn value_of<'a>(matches: &ArgMatches<'a>, name: &str) -> &'a str
    ensures { result.now ≡ value_of name.now (rows_of (found_of matches.now)) }
{
    match text_of(matches, name) {
        Some(text) => text,
        None => "",
    }
}

/// The number that the text is in plain decimal, where it is in range.
fn number_between(text: &str, least: u32, most: u32) -> Option<u32>
    ensures { result ≡ number_between least most text.now }
{
    let number = plain_number(text.as_bytes(), 10)?;
    if u64::from(least) <= number && number <= u64::from(most) {
        Some(number as u32)
    } else {
        None
    }
}

/// The most branchings that `--nodes` gives, and the usual ones without it.
fn nodes_in(text: Option<&str>) -> Option<u32>
    ensures { result ≡ nodes_in (option_map (λ text. text.now) text.entry) }
{
    match text {
        Some(text) => number_between(text, 0, MOST_BRANCHINGS),
        None => Some(USUAL_BRANCHINGS),
    }
}

/// How many runs `--runs` gives, and the usual ones without it.
fn runs_in(text: Option<&str>) -> Option<u16>
    ensures { result ≡ runs_in (option_map (λ text. text.now) text.entry) }
{
    match text {
        Some(text) => Some(number_between(text, 1, u32::from(MOST_RUNS))? as u16),
        None => Some(USUAL_RUNS),
    }
}

/// What `--seed` says that draws begin with, and 0 without it.
fn seed_in(text: Option<&str>) -> Option<u32>
    ensures { result ≡ seed_in (option_map (λ text. text.now) text.entry) }
{
    match text {
        Some(text) => number_between(text, 0, MOST_SEED),
        None => Some(0),
    }
}

/// The tick that `--by` gives, which needn't be there; `None` where it is no tick.
fn by_in(text: Option<&str>) -> Option<Option<Tick>>
    ensures { result ≡ by_in (option_map (λ text. text.now) text.entry) }
{
    match text {
        Some(text) => Some(Some(plain_number(text.as_bytes(), TICK_DIGITS)?)),
        None => Some(None),
    }
}

/// The files of a command that reads a ship file and a list.
fn listed<'a>(matches: &ArgMatches<'a>) -> Inputs<'a>
    ensures { names_of result ≡ listed (rows_of (found_of matches.now)) }
{
    Inputs {
        stow: Some(value_of(matches, "stow")),
        ..Inputs::of(value_of(matches, "ship"))
    }
}

/// These, and a plan.
fn planned<'a>(matches: &ArgMatches<'a>) -> Inputs<'a>
    ensures { names_of result ≡ planned (rows_of (found_of matches.now)) }
{
    Inputs {
        plan: Some(value_of(matches, "plan")),
        ..listed(matches)
    }
}

/// These, and a log that a plan is followed by.
fn followed<'a>(matches: &ArgMatches<'a>) -> Inputs<'a>
    ensures { names_of result ≡ followed (rows_of (found_of matches.now)) }
{
    Inputs {
        log: Some(value_of(matches, "log")),
        ..planned(matches)
    }
}

/// A ship file, a list, a plan, and what tasks of past calls took.
fn weighed<'a>(matches: &ArgMatches<'a>) -> Inputs<'a>
    ensures { names_of result ≡ weighed (rows_of (found_of matches.now)) }
{
    Inputs {
        past: Some(value_of(matches, "past")),
        ..planned(matches)
    }
}

/// A ship file and a log of reported places.
fn watched<'a>(matches: &ArgMatches<'a>) -> Inputs<'a>
    ensures { names_of result ≡ watched (rows_of (found_of matches.now)) }
{
    Inputs {
        log: Some(value_of(matches, "log")),
        ..Inputs::of(value_of(matches, "ship"))
    }
}

/// A check by schedules of this turn: of a plan by a tree, or of the tree alone where `-` is named.
fn check_in<'a>(turn: Turn, matches: &ArgMatches<'a>) -> Request<'a>
    ensures { asked_for result ≡ check_in turn (rows_of (found_of matches.now)) }
{
    let files = Inputs {
        tree: Some(value_of(matches, "tree")),
        turn,
        ..listed(matches)
    };
    let plan = value_of(matches, "plan");
    if plan == "-" {
        Request::Reads(Reader::CheckTree, files)
    } else {
        let plan = Some(plan);
        Request::Reads(Reader::Check, Inputs { plan, ..files })
    }
}

/// Whether two names are there and are equal.
fn is_same(a: Option<&str>, b: Option<&str>) -> bool
    ensures { result ≡ is_same (option_map (λ name. name.now) a.entry) (option_map (λ name. name.now) b.entry) }
{
    match (a, b) {
        (Some(a), Some(b)) => a == b,
        _ => false,
    }
}

/// Whether one of these names is there and is equal to this one.
fn is_among(name: Option<&str>, names: &[Option<&str>]) -> bool
    ensures { result ≡ list_any (λ other. is_same (option_map (λ text. text.now) name.entry)
        (option_map (λ text. text.now) other)) names.now }
{
    names.iter().any(|other| is_same(name, *other))
}

/// Whether no two of these names are equal.
fn are_different(names: &[Option<&str>]) -> bool
    ensures { result ≡ are_different (map (option_map (λ text. text.now)) names.now) }
{
    for at in 0..names.len() {
        if is_among(names[at], &names[at + 1..]) {
            return false;
        }
    }
    true
}

/// A plan by schedules of this turn, where its names are different.
fn plan_in<'a>(turn: Turn, matches: &ArgMatches<'a>) -> Request<'a>
    ensures { asked_for result ≡ plan_in turn (rows_of (found_of matches.now)) }
{
    let Some(nodes) = nodes_in(text_of(matches, "nodes")) else {
        return Request::Usage;
    };
    let asked = PlanAsked {
        inputs: Inputs {
            own: text_of(matches, "from"),
            turn,
            ..listed(matches)
        },
        plan: value_of(matches, "plan"),
        tree: value_of(matches, "tree"),
        nodes,
    };
    let files = asked.inputs;
    let names = [
        Some(files.ship),
        files.stow,
        files.own,
        Some(asked.plan),
        Some(asked.tree),
    ];
    if are_different(&names) {
        Request::Plans(asked)
    } else {
        Request::Usage
    }
}

/// A list of moves, where its names are different.
fn moves_in<'a>(matches: &ArgMatches<'a>) -> Request<'a>
    ensures { asked_for result ≡ moves_in (rows_of (found_of matches.now)) }
{
    let asked = MovesAsked {
        arrival: value_of(matches, "arrival"),
        departure: value_of(matches, "departure"),
        stow: value_of(matches, "stow"),
    };
    let names = [Some(asked.arrival), Some(asked.departure), Some(asked.stow)];
    if are_different(&names) {
        Request::Moves(asked)
    } else {
        Request::Usage
    }
}

/// The odds of a plan, where each number of its options is in its range.
fn odds_in<'a>(matches: &ArgMatches<'a>) -> Request<'a>
    ensures { asked_for result ≡ odds_in (rows_of (found_of matches.now)) }
{
    match (
        runs_in(text_of(matches, "runs")),
        seed_in(text_of(matches, "seed")),
        by_in(text_of(matches, "by")),
    ) {
        (Some(runs), Some(seed), Some(by_tick)) => Request::Odds(OddsAsked {
            inputs: weighed(matches),
            runs,
            seed,
            by_tick,
        }),
        _ => Request::Usage,
    }
}

/// What is left of a plan, where the names are different.
fn rest_in<'a>(matches: &ArgMatches<'a>) -> Request<'a>
    ensures { asked_for result ≡ rest_in (rows_of (found_of matches.now)) }
{
    let asked = RestAsked {
        inputs: followed(matches),
        new_ship: value_of(matches, "newship"),
        new_stow: value_of(matches, "newstow"),
        own: value_of(matches, "own"),
    };
    let files = asked.inputs;
    let names = [
        Some(files.ship),
        files.stow,
        files.plan,
        files.log,
        Some(asked.new_ship),
        Some(asked.new_stow),
        Some(asked.own),
    ];
    if are_different(&names) {
        Request::Rest(asked)
    } else {
        Request::Usage
    }
}

/// What is made by the three numbers, where they are in range.
fn make_from<'a>(matches: &ArgMatches<'a>) -> Request<'a>
    ensures { asked_for result ≡ asked_in name.Make (rows_of (found_of matches.now)) }
{
    match (
        number_between(value_of(matches, "number"), 0, MOST_NUMBER),
        number_between(value_of(matches, "hatches"), 1, u32::from(MOST_HATCHES)),
        number_between(value_of(matches, "cranes"), 1, u32::from(MOST_CRANES)),
    ) {
        (Some(number), Some(hatches), Some(cranes)) => Request::Make {
            number,
            hatches: hatches as u16,
            cranes: cranes as u16,
        },
        _ => Request::Usage,
    }
}

/// What a command asks for by the values that were read.
fn asked_in<'a>(name: CommandName, matches: &ArgMatches<'a>) -> Request<'a>
    ensures { asked_for result ≡ asked_in name (rows_of (found_of matches.now)) }
{
    match name {
        CommandName::Plan => plan_in(Turn::OneWay, matches),
        CommandName::Check => check_in(Turn::OneWay, matches),
        CommandName::Free => plan_in(Turn::Free, matches),
        CommandName::FreeCheck => check_in(Turn::Free, matches),
        CommandName::Make => make_from(matches),
        CommandName::Tasks => Request::Reads(Reader::Tasks, listed(matches)),
        CommandName::Show => Request::Reads(Reader::Show, planned(matches)),
        CommandName::Sheet => Request::Reads(Reader::Sheet, planned(matches)),
        CommandName::Watch => Request::Reads(Reader::Watch, watched(matches)),
        CommandName::Dispatch => Request::Reads(Reader::Dispatch, followed(matches)),
        CommandName::Picture => Request::Reads(Reader::Picture, planned(matches)),
        CommandName::Report => Request::Reads(Reader::Report, planned(matches)),
        CommandName::Moves => moves_in(matches),
        CommandName::Odds => odds_in(matches),
        CommandName::Rest => rest_in(matches),
    }
}

/// What the words ask for by one command; `Usage` where `clap` refuses them.
fn request_by(
    alloc: Global,
    name: CommandName,
    words: &[String],
) -> Result<Request<'_>, OutOfMemory>
    ensures { IfOk result (λ request. asked_for request
        ≡ option_map_or (asked_in name) (read_by (command_of name) (texts words.now)) usage) }
{
    let Some(matches) = read(command_of(alloc, name)?, words)? else {
        return Ok(Request::Usage);
    };
    let request = asked_in(name, &matches);
    drop(matches);
    Ok(request)
}

/// What the words of a command line, without the program's name, ask for: help or which program this
/// is, a request of the command that begins them, or `Request::Usage`. No memory is taken where the
/// words ask about the program and where no command begins them, so `OutOfMemory` comes only behind a
/// command's name.
pub fn request_of(alloc: Global, words: &[String]) -> Result<Request<'_>, OutOfMemory>
    ensures asked { IfOk result (λ request. Asks (texts words.now) (asked_for request)) }
    ensures limits { IfOk result (λ request. KeepsLimits (asked_for request)) }
    ensures about { IfSome (about (texts words.now)) (λ asked. IsOk result) }
    ensures no_command { about (texts words.now) ≡ None → named (texts words.now) ≡ None → result ≡ Ok Request.Usage }
{
    if let Some(request) = about(words) {
        return Ok(request);
    }
    let Some(name) = named(words) else {
        return Ok(Request::Usage);
    };
    request_by(alloc, name, words)
}
