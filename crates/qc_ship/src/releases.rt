//! Release times: tasks by their names, each with the tick before which it doesn't start.

ghost use Rattle.std.specs.Prelude.{◌≡◌, ◌<◌, ◌≤◌, [], length, map, option_map};
ghost use Rattle.std.specs.List.{list_any};
ghost use Rattle.toml.specs.Data.{integer};
ghost use Rattle.toml.specs.View.{view};
ghost use Rattle.qc_model.specs.Numbers.{most_ready};
ghost use Rattle.qc_num.specs.Reading.{IsReading, each};
ghost use Rattle.qc_ship.specs.ShipFile.{release_in, same_name, text_and_integer};
ghost use Rattle.qc_ship.specs.ShipValues.{number_in};
ghost use Rattle.qc_ship.specs.declared.fault.Key.TheVariants.{NotBefore};

use crate::names::{name_in, same_name};
use crate::values::{fault, items_of};
use crate::{Key, MOST_NAME_TICKS, NameTick, ShipError, ShipFault, ShipKind, TaskName};
use qc_model::MOST_READY;
use qc_num::Tick;
use std::alloc::Global;
use toml::Value;

/// The text and the integer of an array of both, if the value is one.
fn text_and_integer(value: &Value) -> Option<(&str, i64)>
    ensures { option_map (λ parts. (parts.0.now, parts.1)) result ≡ text_and_integer (view value.now) }
{
    let [a, b] = items_of(value)? else {
        return None;
    };
    Some((a.as_str()?, b.as_integer()?))
}

/// The tick that an integer is, from 0 to 1,000,000.
fn tick_in(number: u32, n: i64) -> Result<Tick, ShipFault>
    ensures { result ≡ number_in NotBefore number 0 most_ready (integer n) }
{
    if 0 <= n && n <= MOST_READY as i64 {
        Ok(n as Tick)
    } else {
        Err(fault(ShipKind::Range, Key::NotBefore, number))
    }
}

/// Whether an entry names a task.
fn is_named(entries: &[NameTick], name: TaskName) -> bool
    ensures { result ≡ list_any (λ earlier. same_name earlier.name name) entries.now }
{
    entries.iter().any(|entry| same_name(entry.name, name))
}

/// A task of the ship that no entry before names, and its tick.
fn release_in(hatches: &[u16], before: &[NameTick], value: &Value) -> Result<NameTick, ShipFault>
    requires { length before.now < 1000 }
    ensures { result ≡ release_in hatches.now before.now (view value.now) }
{
    let number = before.len() as u32 + 1;
    let Some((text, n)) = text_and_integer(value) else {
        return Err(fault(ShipKind::WrongKind, Key::NotBefore, number));
    };
    let Some(name) = name_in(hatches, text) else {
        return Err(fault(ShipKind::Task, Key::NotBefore, number));
    };
    let tick = tick_in(number, n)?;
    if is_named(before, name) {
        return Err(fault(ShipKind::TaskTwice, Key::NotBefore, number));
    }
    Ok(NameTick { name, tick })
}

/// The entries of an array's values.
pub(crate) fn read_releases(
    alloc: Global,
    hatches: &[u16],
    values: &[Value],
) -> Result<Vec<NameTick>, ShipError>
    requires { length values.now ≤ MOST_NAME_TICKS }
    ensures { IsReading (λ v. v.items) (each (release_in hatches.now) [] (map view values.now)) result }
{
    let mut entries = Vec::new(alloc);
    for value in values {
        let entry = release_in(hatches, entries.as_slice(), value)?;
        entries.push(entry)?;
    }
    Ok(entries)
}
