//! Words that ask about the program.

ghost use Rattle.std.specs.Prelude.{◌≡◌, option_map};
ghost use Rattle.qc_words.specs.Asked.{asked_for};
ghost use Rattle.qc_words.specs.Words.{about, command_about, is_help, texts, word_about};

use crate::asked::Request;
use crate::commands::command_name;

/// Whether the word asks for help, alone or behind a command's name.
fn is_help(word: &str) -> bool
    ensures { result ≡ is_help word.now }
{
    word == "--help" || word == "-h"
}

/// What one word alone asks for: help, or which program this is.
fn word_about<'a>(word: &str) -> Option<Request<'a>>
    ensures { option_map asked_for result ≡ word_about word.now }
{
    if is_help(word) || word == "help" {
        Some(Request::Help(None))
    } else if word == "--version" || word == "-V" {
        Some(Request::Version)
    } else {
        None
    }
}

/// What a word behind a command's name asks for: help on that command.
fn command_about<'a>(name: &str, word: &str) -> Option<Request<'a>>
    ensures { option_map asked_for result ≡ command_about name.now word.now }
{
    if is_help(word) {
        Some(Request::Help(Some(command_name(name)?)))
    } else {
        None
    }
}

/// What words ask for that ask about the program.
pub(crate) fn about<'a>(words: &[String]) -> Option<Request<'a>>
    ensures { option_map asked_for result ≡ about (texts words.now) }
{
    match words {
        [word] => word_about(word.as_str()),
        [name, word] => command_about(name.as_str(), word.as_str()),
        _ => None,
    }
}
