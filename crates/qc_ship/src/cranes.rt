//! The cranes of a ship file.

ghost use Rattle.std.specs.Prelude.{◌≡◌, ◌<◌, ◌≤◌, ◌+ℤ◌, pos, int_le, [], length, map, bytes_eq};
ghost use Rattle.std.specs.List.{list_any};
ghost use Rattle.toml.specs.View.{view, table_view};
ghost use Rattle.qc_ship.specs.ShipValues.{IsRead};
ghost use Rattle.qc_num.specs.Reading.{IsReading, each};
ghost use Rattle.qc_ship.specs.ShipFile.{table_in, name_at, bay_at, keeps_gap, hatch_place, crane_at, crane_in};

use crate::values::{fault, integer_in, number_or, required, text_in};
use crate::{Key, ShipError, ShipFault, ShipKind};
use qc_model::{Crane, MOST_CRANES, MOST_HATCHES, MOST_READY, Name};
use qc_num::Bay;
use std::alloc::Global;
use toml::{Table, Value};

/// The table of a crane.
fn table_in(number: u32, value: &Value) -> Result<&Table, ShipFault>
    ensures { IsRead (λ t. table_view t.now) (table_in number (view value.now)) result }
{
    match value.as_table() {
        Some(table) => Ok(table),
        None => Err(fault(ShipKind::WrongKind, Key::Crane, number)),
    }
}

/// The name of a crane.
fn name_at(number: u32, table: &Table) -> Result<Name, ShipFault>
    ensures { result ≡ name_at number (table_view table.now) }
{
    let value = required(table, Key::Name, number)?;
    let text = text_in(Key::Name, number, value)?;
    match Name::of(text.as_bytes()) {
        Some(name) => Ok(name),
        None => Err(fault(ShipKind::Range, Key::Name, number)),
    }
}

/// The place of the hatch of this number, counted from 1.
fn hatch_place(places: &[u16], hatch: u64) -> Bay
    requires from_first { 1 ≤ hatch }
    requires to_last { hatch ≤ length places.now }
    ensures { result ≡ hatch_place places.now hatch }
{
    Bay::from(places[hatch as usize - 1])
}

/// The keys of a crane's table.
fn crane_at(
    in_decimetres: bool,
    places: &[u16],
    number: u32,
    table: &Table,
) -> Result<Crane, ShipFault>
    requires some { 1 ≤ length places.now }
    requires few { length places.now ≤ MOST_HATCHES }
    ensures { result ≡ crane_at in_decimetres places.now number (table_view table.now) }
{
    let last = places.len() as u32;
    let name = name_at(number, table)?;
    let ready = number_or(table, 0, Key::Ready, number, 0, MOST_READY as u32)?;
    let bay = bay_at(in_decimetres, number, table)?;
    let from = number_or(table, 1, Key::From, number, 1, last)?;
    let to = number_or(table, last, Key::To, number, from as u32, last)?;
    let from = hatch_place(places, from);
    let to = hatch_place(places, to);
    Ok(Crane {
        name,
        ready,
        bay,
        from,
        to,
    })
}

/// The start bay of a crane.
fn bay_at(in_decimetres: bool, number: u32, table: &Table) -> Result<Bay, ShipFault>
    ensures { result ≡ bay_at in_decimetres number (table_view table.now) }
{
    let value = required(table, Key::Bay, number)?;
    let (low, high) = if in_decimetres {
        (-10_000, 16_000)
    } else {
        (-200, 300)
    };
    Ok(integer_in(Key::Bay, number, low, high, value)? as Bay)
}

/// The crane behind these.
fn crane_in(
    in_decimetres: bool,
    gap: u16,
    places: &[u16],
    before: &[Crane],
    value: &Value,
) -> Result<Crane, ShipFault>
    requires some { 1 ≤ length places.now }
    requires few { length places.now ≤ MOST_HATCHES }
    requires number { length before.now < 1000 }
    ensures { result ≡ crane_in in_decimetres gap places.now before.now (view value.now) }
{
    let number = before.len() as u32 + 1;
    let crane = crane_at(in_decimetres, places, number, table_in(number, value)?)?;
    if has_name(before, crane.name.as_bytes()) {
        return Err(fault(ShipKind::NameTwice, Key::Name, number));
    }
    if keeps_gap(gap, before, crane.bay) {
        Ok(crane)
    } else {
        Err(fault(ShipKind::CraneOrder, Key::Crane, number))
    }
}

/// Whether a start bay is at least the gap behind that of the last crane.
fn keeps_gap(gap: u16, before: &[Crane], bay: Bay) -> bool
    ensures { result ≡ keeps_gap gap before.now bay }
{
    match before.last() {
        Some(previous) => is_clear_of(previous.bay, gap, bay),
        None => true,
    }
}

#[tactic(auto, using(std::proofs::lemmas::Int::ints))]
/// Whether a crane at `bay` starts at least the gap behind the one before it.
fn is_clear_of(previous: Bay, gap: u16, bay: Bay) -> bool
    ensures { result ≡ int_le (previous +ℤ pos gap) bay }
{
    i64::from(previous) + i64::from(gap) <= i64::from(bay)
}

/// Whether one of the cranes has the name.
fn has_name(cranes: &[Crane], name: &[u8]) -> bool
    ensures { result ≡ list_any (λ crane. bytes_eq crane.name name.now) cranes.now }
{
    cranes.iter().any(|crane| crane.name.as_bytes() == name)
}

/// The cranes of an array's values.
pub(crate) fn read_cranes(
    alloc: Global,
    in_decimetres: bool,
    gap: u16,
    places: &[u16],
    values: &[Value],
) -> Result<Vec<Crane>, ShipError>
    requires some { 1 ≤ length places.now }
    requires few { length places.now ≤ MOST_HATCHES }
    requires count { length values.now ≤ MOST_CRANES }
    ensures { IsReading (λ v. v.items)
        (each (crane_in in_decimetres gap places.now) [] (map view values.now)) result }
{
    let mut cranes = Vec::new(alloc);
    for value in values {
        let crane = crane_in(in_decimetres, gap, places, cranes.as_slice(), value)?;
        cranes.push(crane)?;
    }
    Ok(cranes)
}
