//! Words that are no command.

use crate::forms::{Form, form_of, near_command};
use crate::sorted::{Sorted, told_apart};
use qc_num::{OutOfMemory, plain_number};
use qc_page::{Page, nearest};
use std::alloc::Global;

/// How many operands of a command that plans are read: SHIP and STOW, which stand first.
const INPUTS: usize = 2;

/// How many digits a number among the words has at most.
const DIGITS: usize = 12;

/// Whether a value is a number that may stand there, in plain decimal.
fn is_between(value: &str, least: u64, most: u64) -> bool {
    match plain_number(value.as_bytes(), DIGITS) {
        Some(number) => least <= number && number <= most,
        None => false,
    }
}

/// Says that a word isn't a number that may stand there, and answers whether it is none.
fn say_number(page: &mut Page, name: &str, value: &str, least: u64, most: u64) -> bool {
    if is_between(value, least, most) {
        return false;
    }
    page.line()
        .text(name)
        .text(" can't be \"")
        .word(value)
        .text("\": it is a whole number from ")
        .count(least)
        .text(" to ")
        .count(most)
        .text(", in digits alone and without a leading 0")
        .end();
    true
}

/// Says which two of the names of a command that writes are one.
fn say_equal(page: &mut Page, form: &Form, sorted: &Sorted<'_>) {
    for (at, name) in sorted.operands.iter().enumerate() {
        if say_if_equal(page, form, sorted, at, name) {
            return;
        }
    }
}

/// Says which name is that of an operand too, and answers whether one is.
fn say_if_equal(page: &mut Page, form: &Form, sorted: &Sorted<'_>, at: usize, name: &str) -> bool {
    let this = form.operand(at);
    if let Some(from) = sorted.value_of("--from")
        && from == name
    {
        say_from(page, this, at < INPUTS, name);
    } else if let Some(later) = equal_behind(sorted, at, name) {
        say_same(page, form, this, form.operand(later), name);
    } else {
        return false;
    }
    true
}

/// Says that two operands are the same name.
fn say_same(page: &mut Page, form: &Form, this: &str, other: &str, name: &str) {
    page.line()
        .text(this)
        .text(" and ")
        .text(other)
        .text(" are the same file \"")
        .word(name)
        .text("\": ")
        .text(form.name)
        .text(" needs ")
        .text(form.told_count())
        .text(" different names")
        .end()
}

/// Says that an operand, which may be one that is read, is the name behind `--from`.
fn say_from(page: &mut Page, operand: &str, is_read: bool, name: &str) {
    let (what, other) = if is_read {
        ("a plan to begin with", "OWN")
    } else {
        ("only read", operand)
    };
    page.line()
        .text(operand)
        .text(" and OWN behind --from are the same file \"")
        .word(name)
        .text("\": OWN is ")
        .text(what)
        .text(", so name another file for ")
        .text(other)
        .end()
}

/// The operand behind this one that is the same word.
fn equal_behind(sorted: &Sorted<'_>, at: usize, name: &str) -> Option<usize> {
    for (later, other) in sorted.operands.iter().enumerate() {
        if at < later && name == *other {
            return Some(later);
        }
    }
    None
}

/// The name of a number of `make` by its place, from 0, and the least and the most that it may be.
fn limits_of(at: usize) -> (&'static str, u64, u64) {
    match at {
        0 => ("NUMBER", 0, 2_147_483_647),
        1 => ("HATCHES", 1, 60),
        _ => ("CRANES", 1, 8),
    }
}

/// What the number behind an option is called, and the least and the most that it may be; none where a name stands
/// there.
fn limits_behind(option: &str) -> Option<(&'static str, u64, u64)> {
    if option == "--nodes" {
        Some(("N behind --nodes", 0, 1_000_000))
    } else if option == "--runs" {
        Some(("N behind --runs", 1, 10_000))
    } else if option == "--seed" {
        Some(("S behind --seed", 0, 2_147_483_647))
    } else if option == "--by" {
        Some(("T behind --by", 0, 999_999_999_999))
    } else {
        None
    }
}

/// Says that the number behind an option is out of range, and answers whether it is.
fn say_if_out(page: &mut Page, sorted: &Sorted<'_>, option: &str) -> bool {
    let Some(value) = sorted.value_of(option) else {
        return false;
    };
    match limits_behind(option) {
        Some((name, least, most)) => say_number(page, name, value, least, most),
        None => false,
    }
}

/// Says which number behind an option is out of range, and answers whether one is.
fn say_out(page: &mut Page, form: &Form, sorted: &Sorted<'_>) -> bool {
    for option in form.options() {
        if say_if_out(page, sorted, option) {
            return true;
        }
    }
    false
}

/// Says which number of `make` is out of range.
fn say_made(page: &mut Page, sorted: &Sorted<'_>) {
    for (at, word) in sorted.operands.iter().enumerate() {
        let (name, least, most) = limits_of(at);
        if say_number(page, name, word, least, most) {
            return;
        }
    }
}

/// Whether a word asks for help.
fn is_help(word: &str) -> bool {
    ["--help", "-h", "help"].contains(&word)
}

/// Whether a word asks which program this is.
fn is_version(word: &str) -> bool {
    ["--version", "-V"].contains(&word)
}

/// Says that a command hasn't this option.
fn say_strange(page: &mut Page, form: &Form, word: &str) {
    if is_help(word) {
        page.line()
            .word(word)
            .text(" stands directly behind the command, without other words: qc ")
            .text(form.name)
            .text(" ")
            .word(word)
            .end()
    } else if is_version(word) {
        say_version(page, word)
    } else if word == "-q" {
        page.line()
            .text("-q stands ahead of the command: qc -q ")
            .text(form.name)
            .end()
    } else {
        say_no_option(page, form, word)
    }
}

/// Says that no word stands beside one that asks which program this is.
fn say_version(page: &mut Page, word: &str) {
    page.line()
        .word(word)
        .text(" stands without other words: qc ")
        .word(word)
        .end()
}

/// The option of a command that is near to a word.
fn near_option(
    alloc: Global,
    form: &Form,
    word: &str,
) -> Result<Option<&'static str>, OutOfMemory> {
    nearest(alloc, word, form.options())
}

/// Says that a command hasn't this option, and which it has.
fn say_no_option(page: &mut Page, form: &Form, word: &str) {
    let Some(near) = page.unless_short(near_option(page.alloc(), form, word)) else {
        return;
    };
    page.line()
        .text(form.name)
        .text(" has no option \"")
        .word(word)
        .text("\"; ");
    if let Some(near) = near {
        return page.text("the nearest is ").text(near).end();
    }
    if form.has_options() {
        page.text("it has ")
            .text(form.told_options())
            .text(", and ");
    }
    page.text("a file of that name is written ./")
        .word(word)
        .end()
}

/// Says which word of a command's options is wrong, and answers whether one is.
fn say_options(page: &mut Page, form: &Form, sorted: &Sorted<'_>) -> bool {
    if let Some(option) = sorted.open {
        page.line()
            .text("behind ")
            .text(option)
            .text(" its value is missing")
            .end();
    } else if let Some(word) = sorted.strange {
        say_strange(page, form, word);
    } else if let Some(option) = sorted.twice {
        page.line().text(option).text(" stands twice").end();
    } else {
        return false;
    }
    true
}

/// Says how many operands are missing or too many, and answers whether any are.
fn say_count(page: &mut Page, form: &Form, sorted: &Sorted<'_>) -> bool {
    let missing = form.operand(sorted.operands.len());
    if !missing.is_empty() {
        say_few(page, form, missing);
    } else if let Some(word) = sorted.operands.get(form.count()) {
        say_many(page, form, word);
    } else {
        return false;
    }
    true
}

/// Says which operand is missing.
fn say_few(page: &mut Page, form: &Form, missing: &str) {
    page.line()
        .text(form.name)
        .text(" needs ")
        .text(missing)
        .text(" too");
    end_with_words(page, form)
}

/// Says which word is one too many.
fn say_many(page: &mut Page, form: &Form, word: &str) {
    page.line()
        .text("\"")
        .word(word)
        .text("\" is one word too many for ")
        .text(form.name);
    end_with_words(page, form)
}

/// Ends the line with the words of a command, on a line of their own.
fn end_with_words(page: &mut Page, form: &Form) {
    page.text("; the words are").end();
    page.line().text("    qc ").text(form.line).end()
}

/// Says what is wrong with the words behind a command's name.
fn say_behind(page: &mut Page, form: &Form, words: &[String]) {
    let sorted = told_apart(page.alloc(), form.options(), words);
    let Some(sorted) = page.unless_short(sorted) else {
        return;
    };
    let is_said = say_options(page, form, &sorted) || say_count(page, form, &sorted);
    if !is_said {
        say_values(page, form, &sorted);
    }
    drop(sorted)
}

/// Says what is wrong with words that are as many as there should be.
fn say_values(page: &mut Page, form: &Form, sorted: &Sorted<'_>) {
    if form.name == "make" {
        return say_made(page, sorted);
    }
    if !say_out(page, form, sorted) && form.needs_different_names() {
        say_equal(page, form, sorted)
    }
}

/// Says that no word stands behind one that asks about the program.
fn say_about(page: &mut Page, word: &str, next: Option<&String>) {
    if is_version(word) {
        return say_version(page, word);
    }
    let next = match next {
        Some(next) => next.as_str(),
        None => "",
    };
    let (name, what) = match form_of(next) {
        Some(form) => (form.name, form.name),
        None => ("COMMAND", "one command"),
    };
    page.line()
        .word(word)
        .text(" stands without other words; qc ")
        .text(name)
        .text(" --help tells what ")
        .text(what)
        .text(" does")
        .end()
}

/// Says that a word is no command.
fn say_no_command(page: &mut Page, word: &str) {
    let Some(near) = page.unless_short(near_command(page.alloc(), word)) else {
        return;
    };
    page.line().text("\"").word(word).text("\" is no command; ");
    match near {
        Some(near) => page.text("the nearest is ").text(near).end(),
        None => page.text("qc --help says what they are").end(),
    }
}

/// Says which of the words is wrong.
pub fn say_usage(page: &mut Page, words: &[String]) {
    let Some((first, rest)) = words.split_first() else {
        return page
            .line()
            .text(
                "no word was given, or one that isn't text in UTF-8; a command stands first, and qc --help says what they are",
            )
            .end();
    };
    let first = first.as_str();
    if let Some(form) = form_of(first) {
        return say_behind(page, &form, rest);
    }
    if is_help(first) || is_version(first) {
        return say_about(page, first, rest.first());
    }
    say_no_command(page, first)
}
