//! One line of a log.

ghost use Rattle.std.specs.Prelude.{◌≡◌, ◌<◌, pos, option_and_then, option_map, IfOk, IfSome};
ghost use Rattle.qc_num.specs.Digits.{number_in};
ghost use Rattle.qc_model.specs.Numbers.{most_cranes};
ghost use Rattle.qc_watch.specs.Log.{below_zero, crane_named, entry_in, entry_of, place_in};
ghost use Rattle.qc_watch.specs.Since.{IsEntry};

use crate::fault::WatchKind;
use crate::report::Report;
use qc_lines::{line_text, next_word};
use qc_num::{Bay, plain_number};
use qc_ship::Ship;

/// How many digits a time has at most.
const TIME_DIGITS: usize = 12;

/// How many digits a place has at most.
const PLACE_DIGITS: usize = 6;

/// A report and its crane, counted from 0.
#[derive(Clone, Copy, PartialEq, Eq)]
pub(crate) struct Entry {
    pub(crate) crane: u16,
    pub(crate) report: Report,
}

/// The place that a text without a minus sign writes.
fn place_from(digits: &[u8]) -> Option<Bay>
    ensures { result ≡ option_map pos (number_in 6 digits.now) }
{
    match plain_number(digits, PLACE_DIGITS) {
        Some(number) => Some(number as Bay),
        None => None,
    }
}

/// The place below 0 that the digits behind a minus sign write.
fn place_below(digits: &[u8]) -> Option<Bay>
    ensures { result ≡ option_and_then below_zero (number_in 6 digits.now) }
{
    match plain_number(digits, PLACE_DIGITS) {
        Some(0) => None,
        Some(number) => Some(-(number as Bay)),
        None => None,
    }
}

/// The place that a text writes.
fn place_in(text: &[u8]) -> Option<Bay>
    ensures { result ≡ place_in text.now }
{
    let (first, digits) = text.split_first()?;
    if *first == b'-' {
        place_below(digits)
    } else {
        place_from(text)
    }
}

/// The crane of this name.
fn crane_named(ship: &Ship, name: &[u8]) -> Option<usize>
    ensures number { result ≡ crane_named ship.now name.now }
    ensures range { IfSome result (λ crane. crane < most_cranes) }
{
    ship.cranes()
        .iter()
        .position(|crane| crane.name.as_bytes() == name)
}

/// The report of a time, a name and a place.
fn entry_of(ship: &Ship, time: &[u8], name: &[u8], place: &[u8]) -> Result<Entry, WatchKind>
    ensures entry { result ≡ entry_of ship.now time.now name.now place.now }
    ensures range { IfOk result IsEntry }
{
    let Some(at) = plain_number(time, TIME_DIGITS) else {
        return Err(WatchKind::Line);
    };
    if name.is_empty() {
        return Err(WatchKind::Line);
    }
    let Some(place) = place_in(place) else {
        return Err(WatchKind::Line);
    };
    let Some(crane) = crane_named(ship, name) else {
        return Err(WatchKind::UnknownCrane);
    };
    Ok(Entry {
        crane: crane as u16,
        report: Report { at, place },
    })
}

/// The report that a line writes, or the first fault of it.
pub(crate) fn entry_in(ship: &Ship, line: &[u8]) -> Result<Entry, WatchKind>
    ensures entry { result ≡ entry_in ship.now line.now }
    ensures range { IfOk result IsEntry }
{
    let Some(text) = line_text(line) else {
        return Err(WatchKind::Line);
    };
    let (time, rest) = next_word(text);
    let (name, place) = next_word(rest);
    entry_of(ship, time, name, place)
}
