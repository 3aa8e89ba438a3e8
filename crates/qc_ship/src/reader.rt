//! Reading a ship file.

ghost use Rattle.std.specs.Prelude.{◌≡◌, ◌≤◌, IfOk, length, ok_or};
ghost use Rattle.std.specs.List.{range_with_len};
ghost use Rattle.toml.specs.View.{view, table_view};
ghost use Rattle.qc_num.specs.Reading.{IsReading};
ghost use Rattle.qc_ship.specs.Keys.{fault};
ghost use Rattle.qc_ship.specs.Ship.{most_travel};
ghost use Rattle.qc_ship.specs.ShipFile.{times_at, hatches_at, places_at, gives_places, gap_at, restows_in, ordered_at, apart_at, before_at, cranes_at, not_before_at, ship_of, table_of, ship_file};
ghost use Rattle.qc_ship.specs.declared.fault.Key.TheVariants.{Whole};
ghost use Rattle.qc_ship.specs.declared.fault.ShipKind.TheVariants.{NotToml};

use crate::cranes::read_cranes;
use crate::hatches::{read_hatches, read_places};
use crate::names::read_order;
use crate::pairs::read_pairs;
use crate::releases::read_releases;
use crate::ship::Times;
use crate::values::{array_in, fault, number_at, number_or, required, text_in, value_at};
use crate::{
    HatchPair, Key, MOST_HATCH_PAIRS, MOST_MARGIN, MOST_MOVE_TICKS, MOST_NAME_PAIRS,
    MOST_NAME_TICKS, NamePair, NameTick, Ship, ShipError, ShipFault, ShipKind,
};
use qc_model::{
    Crane, MOST_CRANES, MOST_GAP_BY_PLACES, MOST_HATCHES, MOST_TRAVEL, MOST_TRAVEL_BY_PLACES,
};
use qc_num::Tick;
use std::alloc::{AllocError, Global};
use toml::{Table, Value};

/// The table of a TOML text.
fn read_table(alloc: Global, text: &[u8]) -> Result<Table, ShipError>
    ensures { IsReading table_view (ok_or (table_of text.now) (fault NotToml Whole 0)) result }
{
    let Ok(text) = std::str::from_utf8(text) else {
        return Err(ShipError::Fault(fault(ShipKind::NotToml, Key::Whole, 0)));
    };
    match toml::table_from_str(alloc, text) {
        Ok(table) => Ok(table),
        Err(error) if error.is_memory() => Err(ShipError::OutOfMemory),
        Err(_) => Err(ShipError::Fault(fault(ShipKind::NotToml, Key::Whole, 0))),
    }
}

/// The numbers of the hatches.
fn hatches_at(alloc: Global, table: &Table) -> Result<Vec<u16>, ShipError>
    ensures { IsReading (λ v. v.items) (hatches_at (table_view table.now)) result }
{
    let value = required(table, Key::Hatches, 0)?;
    let values = array_in(Key::Hatches, 1, usize::from(MOST_HATCHES), value)?;
    read_hatches(alloc, values)
}

/// The crane bay of each hatch: as it is given, or counted from 1.
fn places_at(alloc: Global, count: usize, table: &Table) -> Result<Vec<u16>, ShipError>
    requires { count ≤ MOST_HATCHES }
    ensures { IsReading (λ v. v.items) (places_at count (table_view table.now)) result }
{
    match value_at(table, Key::Places) {
        Some(value) => read_places(alloc, array_in(Key::Places, count, count, value)?),
        None => Ok(counted_places(alloc, count as u16)?),
    }
}

/// The places of hatches that stand one crane bay apart.
fn counted_places(alloc: Global, count: u16) -> Result<Vec<u16>, AllocError>
    requires { count ≤ MOST_HATCHES }
    ensures { IfOk result (λ v. v.items ≡ range_with_len 1 count) }
{
    let mut places = Vec::new(alloc);
    for before in 0..count {
        places.push(before + 1)?;
    }
    Ok(places)
}

/// Whether the file gives places in decimetres.
fn gives_places(table: &Table) -> bool
    ensures { result ≡ gives_places (table_view table.now) }
{
    value_at(table, Key::Places).is_some()
}

/// The least distance of neighbouring cranes.
fn gap_at(table: &Table) -> Result<u16, ShipFault>
    ensures { result ≡ gap_at (table_view table.now) }
{
    if gives_places(table) {
        Ok(number_at(table, Key::Clear, 1, u32::from(MOST_GAP_BY_PLACES))? as u16)
    } else {
        Ok(number_at(table, Key::Margin, 0, MOST_MARGIN)? as u16 + 1)
    }
}

#[tactic(auto, unfolding(crate::specs::ShipFile::times_at))]
/// The gap, the ticks and the order of restows.
fn times_at(table: &Table) -> Result<Times, ShipFault>
    ensures { result ≡ times_at (table_view table.now) }
{
    let gap = gap_at(table)?;
    let travel = number_at(table, Key::Travel, 1, most_travel(gives_places(table)))?;
    let deck_move = number_at(table, Key::DeckMove, 1, MOST_MOVE_TICKS)?;
    let hold_move = number_at(table, Key::HoldMove, 1, MOST_MOVE_TICKS)?;
    let cover = number_or(table, 0, Key::Cover, 0, 0, MOST_MOVE_TICKS)?;
    let ordered = ordered_at(table)?;
    Ok(Times {
        gap,
        travel,
        deck_move,
        hold_move,
        cover,
        ordered,
    })
}

/// The most ticks of travel per crane bay.
fn most_travel(in_decimetres: bool) -> u32
    ensures { result ≡ most_travel in_decimetres }
{
    if in_decimetres {
        MOST_TRAVEL_BY_PLACES as u32
    } else {
        MOST_TRAVEL as u32
    }
}

/// Whether a restow is done in order, by the word of the file.
fn restows_in(value: &Value) -> Result<bool, ShipFault>
    ensures { result ≡ restows_in (view value.now) }
{
    match text_in(Key::Restows, 0, value)? {
        "ordered" => Ok(true),
        "free" => Ok(false),
        _ => Err(fault(ShipKind::Range, Key::Restows, 0)),
    }
}

/// The same, by the table: restows are in order where nothing is said.
fn ordered_at(table: &Table) -> Result<bool, ShipFault>
    ensures { result ≡ ordered_at (table_view table.now) }
{
    match value_at(table, Key::Restows) {
        Some(value) => restows_in(value),
        None => Ok(false),
    }
}

/// The pairs of hatches that aren't worked at the same time.
fn apart_at(alloc: Global, hatches: &[u16], table: &Table) -> Result<Vec<HatchPair>, ShipError>
    ensures { IsReading (λ v. v.items) (apart_at hatches.now (table_view table.now)) result }
{
    match value_at(table, Key::Apart) {
        Some(value) => read_pairs(
            alloc,
            hatches,
            array_in(Key::Apart, 0, MOST_HATCH_PAIRS, value)?,
        ),
        None => Ok(Vec::new(alloc)),
    }
}

/// The planner's own order of tasks.
fn before_at(alloc: Global, hatches: &[u16], table: &Table) -> Result<Vec<NamePair>, ShipError>
    ensures { IsReading (λ v. v.items) (before_at hatches.now (table_view table.now)) result }
{
    match value_at(table, Key::Before) {
        Some(value) => read_order(
            alloc,
            hatches,
            array_in(Key::Before, 0, MOST_NAME_PAIRS, value)?,
        ),
        None => Ok(Vec::new(alloc)),
    }
}

/// The ticks before which tasks don't start.
fn not_before_at(alloc: Global, hatches: &[u16], table: &Table) -> Result<Vec<NameTick>, ShipError>
    ensures { IsReading (λ v. v.items) (not_before_at hatches.now (table_view table.now)) result }
{
    match value_at(table, Key::NotBefore) {
        Some(value) => read_releases(
            alloc,
            hatches,
            array_in(Key::NotBefore, 0, MOST_NAME_TICKS, value)?,
        ),
        None => Ok(Vec::new(alloc)),
    }
}

/// The cranes along the rail.
fn cranes_at(
    alloc: Global,
    in_decimetres: bool,
    gap: u16,
    places: &[u16],
    table: &Table,
) -> Result<Vec<Crane>, ShipError>
    requires some { 1 ≤ length places.now }
    requires few { length places.now ≤ MOST_HATCHES }
    ensures { IsReading (λ v. v.items)
        (cranes_at in_decimetres gap places.now (table_view table.now)) result }
{
    let value = required(table, Key::Crane, 0)?;
    let values = array_in(Key::Crane, 1, usize::from(MOST_CRANES), value)?;
    read_cranes(alloc, in_decimetres, gap, places, values)
}

/// The ship of a table.
#[tactic(auto, unfolding(crate::specs::ShipFile::ship_of))]
fn ship_of(alloc: Global, table: &Table) -> Result<Ship, ShipError>
    ensures { IsReading (λ s. s) (ship_of (table_view table.now)) result }
{
    let hatches = hatches_at(alloc, table)?;
    let places = places_at(alloc, hatches.len(), table)?;
    let times = times_at(table)?;
    let apart = apart_at(alloc, hatches.as_slice(), table)?;
    let before = before_at(alloc, hatches.as_slice(), table)?;
    let not_before = not_before_at(alloc, hatches.as_slice(), table)?;
    let in_decimetres = gives_places(table);
    let cranes = cranes_at(alloc, in_decimetres, times.gap, places.as_slice(), table)?;
    Ok(Ship::of(
        hatches,
        places,
        in_decimetres,
        times,
        apart,
        before,
        not_before,
        cranes,
    ))
}

/// Reads a ship file. The fault is the first in the order of the keys.
pub fn read_ship(alloc: Global, text: &[u8]) -> Result<Ship, ShipError>
    ensures { IsReading (λ s. s) (ship_file text.now) result }
{
    let table = read_table(alloc, text)?;
    ship_of(alloc, &table)
}
