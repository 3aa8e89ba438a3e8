//! Reading a log of reported places.

ghost use Rattle.std.specs.Prelude.{◌≡◌, ◌+◌, ◌≤◌, [], length, map, IfOk};
ghost use Rattle.std.specs.List.{range_with_len};
ghost use Rattle.qc_num.specs.Reading.{IsReading, each};
ghost use Rattle.qc_num.specs.declared.read_error.ReadError.TheVariants.{Fault};
ghost use Rattle.qc_lines.specs.Lines.{lines_of};
ghost use Rattle.qc_watch.specs.Log.{next_entry, reports_in, told_of};
ghost use Rattle.qc_watch.specs.Numbers.{most_lines};
ghost use Rattle.qc_watch.specs.Since.{IsSince, Takes};

use crate::entry::{Entry, entry_in};
use crate::fault::{WatchError, WatchFault, WatchKind};
use crate::report::Report;
use crate::reports::Reports;
use qc_lines::next_line;
use qc_model::MOST_CRANES;
use qc_num::{OutOfMemory, Tick};
use qc_ship::Ship;
use std::alloc::{AllocError, Global};
use std::marker::Model;

/// The most lines of a log.
const MOST_LINES: usize = 200_000;

/// The reports of the lines so far.
#[derive(Drop)]
struct Log {
    entries: Vec<Entry>,
    /// For each crane the first tick at which it may report next.
    since: [Tick; MOST_CRANES as usize],
}

impl Model for Log {
    ghost use Rattle.std.specs.Prelude.{List};
    ghost use Rattle.qc_watch.specs.declared.entry.Entry.{Entry};
    ghost use Rattle.qc_watch.specs.Since.{IsSince};

    ghost Value = { List Entry };

    ghost view = { λ log. log.entries.items };

    ghost invariant = { λ log. IsSince log.entries.items log.since };
}

/// The fault of a line, by how many lines are before it.
fn fault(before: usize, kind: WatchKind) -> WatchError
    requires { before ≤ most_lines }
    ensures { result ≡ Fault (record { line = before + 1; kind = kind }) }
{
    WatchError::Fault(WatchFault {
        line: before as u32 + 1,
        kind,
    })
}

/// The reports of one crane among these.
fn told_of(alloc: Global, entries: &[Entry], crane: u16) -> Result<Vec<Report>, AllocError>
    ensures { IfOk result (λ list. list.items ≡ told_of entries.now crane) }
{
    entries
        .iter()
        .filter(|e| e.crane == crane)
        .map(|e| e.report)
        .collect(alloc)
}

impl Log {
    /// No line.
    fn new(alloc: Global) -> Log
        ensures { result ≡ [] }
    {
        Log {
            entries: Vec::new(alloc),
            since: [0; MOST_CRANES as usize],
        }
    }

    /// Takes the next line.
    fn take(&mut self, ship: &Ship, line: &[u8]) -> Result<(), WatchError>
        ensures { Takes (next_entry ship.now self.old line.now) self.old self.new result }
    {
        let before = self.entries.len();
        if before == MOST_LINES {
            return Err(fault(before, WatchKind::TooMany));
        }
        let entry = match entry_in(ship, line) {
            Ok(entry) => entry,
            Err(kind) => return Err(fault(before, kind)),
        };
        let crane = entry.crane as usize;
        if entry.report.at < self.since[crane] {
            return Err(fault(before, WatchKind::TimeBack));
        }
        self.entries.push(entry)?;
        self.since[crane] = entry.report.at + 1;
        Ok(())
    }

    /// The reports of each of so many cranes.
    fn lists(&self, alloc: Global, cranes: u16) -> Result<Vec<Vec<Report>>, OutOfMemory>
        ensures { IfOk result (λ lists. map (λ list. list.items) lists.items
            ≡ map (told_of self.now) (range_with_len 0 cranes)) }
    {
        let mut lists = Vec::new(alloc);
        for crane in 0..cranes {
            lists.push(told_of(alloc, self.entries.as_slice(), crane)?)?;
        }
        Ok(lists)
    }

    /// How many reports there are.
    fn count(&self) -> u32
        ensures { result ≡ length self.now }
    {
        self.entries.len() as u32
    }
}

/// The reports of all lines, in their order.
fn read_lines(alloc: Global, text: &[u8], ship: &Ship) -> Result<Log, WatchError>
    ensures { IsReading (λ log. log) (each (next_entry ship.now) [] (lines_of text.now)) result }
{
    let mut log = Log::new(alloc);
    let mut rest = text;
    while !rest.is_empty() {
        let (line, more) = next_line(rest);
        log.take(ship, line)?;
        rest = more;
    }
    Ok(log)
}

/// The reports of a log, a list for each crane of the ship, or the first fault of its first faulty line.
pub fn read_reports(alloc: Global, text: &[u8], ship: &Ship) -> Result<Reports, WatchError>
    ensures reports { IsReading (λ reports. reports) (reports_in ship.now text.now) result }
    ensures cranes { IfOk result (λ reports. length reports ≡ length ship.now.cranes) }
{
    let log = read_lines(alloc, text, ship)?;
    let lists = log.lists(alloc, ship.cranes().len() as u16)?;
    Ok(Reports::of_lists(lists, log.count()))
}
