//! The commands with their words.

use qc_num::OutOfMemory;
use qc_page::nearest;
use std::alloc::Global;

/// The names of the commands.
const NAMES: [&str; 15] = [
    "plan",
    "check",
    "tasks",
    "show",
    "make",
    "free",
    "freecheck",
    "sheet",
    "dispatch",
    "watch",
    "picture",
    "report",
    "moves",
    "odds",
    "rest",
];

/// The commands, each with its operands and with its options in brackets.
const LINES: [&str; 15] = [
    "plan SHIP STOW PLAN TREE [--nodes N] [--from OWN]",
    "check SHIP STOW PLAN TREE",
    "tasks SHIP STOW",
    "show SHIP STOW PLAN",
    "make NUMBER HATCHES CRANES",
    "free SHIP STOW PLAN TREE [--nodes N] [--from OWN]",
    "freecheck SHIP STOW PLAN TREE",
    "sheet SHIP STOW PLAN",
    "dispatch SHIP STOW PLAN LOG",
    "watch SHIP LOG",
    "picture SHIP STOW PLAN",
    "report SHIP STOW PLAN",
    "moves ARRIVAL DEPARTURE STOW",
    "odds SHIP STOW PLAN PAST [--runs N] [--seed S] [--by T]",
    "rest SHIP STOW PLAN LOG NEWSHIP NEWSTOW OWN",
];

/// The options of `plan` and `free`.
const SEARCH_OPTIONS: [&str; 2] = ["--nodes", "--from"];

/// The options of `odds`.
const ODDS_OPTIONS: [&str; 3] = ["--runs", "--seed", "--by"];

/// The commands that write files, of which no two names may be equal.
const WRITERS: [&str; 4] = ["plan", "free", "moves", "rest"];

/// A command with its words.
#[derive(Clone, Copy)]
pub(crate) struct Form {
    pub(crate) name: &'static str,
    /// Its operands, with one space between them.
    operands: &'static str,
    /// The name, the operands and the options.
    pub(crate) line: &'static str,
}

/// The operands in the words behind a command's name.
fn operands_in(words: &'static str) -> &'static str {
    match words.split_once(" [") {
        Some((operands, _)) => operands,
        None => words,
    }
}

/// The command of this name.
pub(crate) fn form_of(name: &str) -> Option<Form> {
    for line in &LINES {
        if let Some((first, words)) = line.split_once(' ')
            && first == name
        {
            return Some(Form {
                name: first,
                operands: operands_in(words),
                line,
            });
        }
    }
    None
}

/// The name of the first command that is near.
pub(crate) fn near_command(alloc: Global, word: &str) -> Result<Option<&'static str>, OutOfMemory> {
    nearest(alloc, word, &NAMES)
}

impl Form {
    /// Whether it has options.
    pub(crate) fn has_options(&self) -> bool {
        self.line.ends_with(']')
    }

    /// The names of its options.
    pub(crate) fn options(&self) -> &'static [&'static str] {
        if self.name == "odds" {
            &ODDS_OPTIONS
        } else if self.has_options() {
            &SEARCH_OPTIONS
        } else {
            &[]
        }
    }

    /// Its options, of which it has some, with their values.
    pub(crate) fn told_options(&self) -> &'static str {
        if self.name == "odds" {
            "--runs N, --seed S and --by T"
        } else {
            "--nodes N and --from OWN"
        }
    }

    /// Whether no two of its names may be equal.
    pub(crate) fn needs_different_names(&self) -> bool {
        WRITERS.contains(&self.name)
    }

    /// How many names it takes, in words, where no two of them may be equal.
    pub(crate) fn told_count(&self) -> &'static str {
        match self.count() {
            3 => "three",
            4 => "four",
            _ => "seven",
        }
    }

    /// How many operands it has.
    pub(crate) fn count(&self) -> usize {
        self.operands.split(' ').count()
    }

    /// An operand by its number, from 0; empty where there is none.
    pub(crate) fn operand(&self, at: usize) -> &'static str {
        self.operands.split(' ').nth(at).unwrap_or("")
    }
}
