//! The words behind a command's name, told apart.

use qc_num::OutOfMemory;
use std::alloc::Global;

/// An option with the value behind it.
#[derive(Clone, Copy)]
struct Given<'a> {
    option: &'a str,
    value: &'a str,
}

/// The words behind a command's name, told apart.
#[derive(Drop)]
pub(crate) struct Sorted<'a> {
    /// The options that the command has.
    options: &'static [&'static str],
    /// Whether all words that follow are operands.
    is_behind_dashes: bool,
    pub(crate) operands: Vec<&'a str>,
    /// The first word that is an option and can't be one.
    pub(crate) strange: Option<&'a str>,
    /// The option that has no value behind it. No word behind it is told apart then.
    pub(crate) open: Option<&'a str>,
    /// The option that stands twice.
    pub(crate) twice: Option<&'a str>,
    /// The options that have a value.
    given: Vec<Given<'a>>,
}

/// Whether a word is an operand ahead of `--` too: it begins with no dash, or is one alone.
fn is_operand(word: &str) -> bool {
    !word.starts_with('-') || word == "-"
}

impl<'a> Sorted<'a> {
    /// No word yet.
    fn new(alloc: Global, options: &'static [&'static str]) -> Sorted<'a> {
        Sorted {
            options,
            is_behind_dashes: false,
            operands: Vec::new(alloc),
            strange: None,
            open: None,
            twice: None,
            given: Vec::new(alloc),
        }
    }

    /// The first value of an option.
    pub(crate) fn value_of(&self, option: &str) -> Option<&'a str> {
        for given in &self.given {
            if given.option == option {
                return Some(given.value);
            }
        }
        None
    }

    /// Takes the value of an option.
    fn take_value(&mut self, option: &'a str, value: &'a str) -> Result<(), OutOfMemory> {
        self.open = None;
        if self.value_of(option).is_some() {
            self.twice = Some(option);
        }
        self.given.push(Given { option, value })?;
        Ok(())
    }

    /// Takes a word that begins with a dash and is no operand.
    fn take_option(&mut self, word: &'a str) -> Result<(), OutOfMemory> {
        let (name, value) = match word.split_once('=') {
            Some((name, value)) => (name, Some(value)),
            None => (word, None),
        };
        if !self.options.contains(&name) {
            self.strange = self.strange.or(Some(word));
            return Ok(());
        }
        match value {
            Some(value) => self.take_value(name, value)?,
            None => self.open = Some(name),
        }
        Ok(())
    }

    /// Whether an option needs a value where this word stands, that can't be one: it is an option, but for what may be
    /// meant as a number.
    fn lacks_value(&self, word: &str) -> bool {
        match self.open {
            Some(option) => !is_operand(word) && (option == "--from" || word.starts_with("--")),
            None => false,
        }
    }

    /// Takes the next word.
    fn take(&mut self, word: &'a str) -> Result<(), OutOfMemory> {
        if let Some(option) = self.open {
            self.take_value(option, word)?;
        } else if self.is_behind_dashes || is_operand(word) {
            self.operands.push(word)?;
        } else if word == "--" {
            self.is_behind_dashes = true;
        } else {
            self.take_option(word)?;
        }
        Ok(())
    }
}

/// Tells the words behind a command's name apart.
pub(crate) fn told_apart<'a>(
    alloc: Global,
    options: &'static [&'static str],
    words: &'a [String],
) -> Result<Sorted<'a>, OutOfMemory> {
    let mut sorted = Sorted::new(alloc, options);
    for word in words {
        if sorted.lacks_value(word.as_str()) {
            break;
        }
        sorted.take(word.as_str())?;
    }
    Ok(sorted)
}
