//! The ship file of what is left.

ghost use Rattle.std.specs.Prelude.{◌≡◌, ◌<◌, ◌-◌, ◌^◌, ℕ, codes, false, if◌then◌else◌, IfOk, IsTrue, Ok, OnOk, length};
ghost use Rattle.toml.specs.Data.{string};
ghost use Rattle.toml.specs.Text.{IsDocumentText};
ghost use Rattle.toml.specs.View.{table_view, view};
ghost use Rattle.qc_make.specs.MadeTable.{with_member};
ghost use Rattle.qc_model.specs.Instance.{crane};
ghost use Rattle.qc_model.specs.Names.{is_name};
ghost use Rattle.qc_rest_files.specs.RestShip.{are_named, releases_of, rest_ship};
ghost use Rattle.qc_rest_files.specs.ShipTable.{apart_value, array_of, before_value, crane_value, number, release_value, restows_text, ship_table};
ghost use Rattle.qc_ship.specs.Ship.{IsShip};
ghost use Rattle.qc_ship.specs.ShipFile.{ship_file};
ghost use Rattle.std.specs.List.{filter};

use crate::cranes::crane_values;
use crate::names::{before_values, release_values};
use crate::values::{apart_values, number_value, number_values};
use qc_make::put;
use qc_model::Instance;
use qc_num::{Bytes, OutOfMemory, Tick};
use qc_ship::Ship;
use std::alloc::Global;
use toml::{Table, Value};

/// Puts ticks at a key.
fn put_ticks(alloc: Global, table: &mut Table, key: &str, ticks: Tick) -> Result<(), OutOfMemory>
    requires { ticks < 2 ^ 63 }
    ensures { OnOk result (table_view table.new
        ≡ with_member key.now (number ticks) (table_view table.old)) }
{
    put(alloc, table, key, number_value(ticks))
}

/// Puts numbers at a key.
fn put_numbers(
    alloc: Global,
    table: &mut Table,
    key: &str,
    numbers: &[u16],
) -> Result<(), OutOfMemory>
    ensures { OnOk result (table_view table.new
        ≡ with_member key.now (array_of number numbers.now) (table_view table.old)) }
{
    let values = number_values(alloc, numbers)?;
    put(alloc, table, key, Value::Array(values))
}

/// Puts the ticks of the ship at their keys.
fn put_times(alloc: Global, table: &mut Table, ship: &Ship) -> Result<(), OutOfMemory>
    ensures { OnOk result (table_view table.new ≡ with_member (codes "travel") (number ship.now.travel)
        (with_member (codes "hold_move") (number ship.now.hold_move)
        (with_member (codes "deck_move") (number ship.now.deck_move)
        (with_member (codes "cover") (number ship.now.cover) (table_view table.old))))) }
{
    put_ticks(alloc, table, "cover", ship.cover())?;
    put_ticks(alloc, table, "deck_move", ship.deck_move())?;
    put_ticks(alloc, table, "hold_move", ship.hold_move())?;
    put_ticks(alloc, table, "travel", ship.travel())
}

/// Puts the order of restows at its key.
fn put_restows(alloc: Global, table: &mut Table, ship: &Ship) -> Result<(), OutOfMemory>
    ensures { OnOk result (table_view table.new
        ≡ with_member (codes "restows") (string (restows_text ship.now.ordered)) (table_view table.old)) }
{
    let word = if ship.ordered() { "ordered" } else { "free" };
    put(
        alloc,
        table,
        "restows",
        Value::String(String::from_str(alloc, word)?),
    )
}

/// The least distance of cranes as a value.
fn clear_value(ship: &Ship) -> Value
    ensures { view result ≡ number ship.now.gap }
{
    Value::Integer(i64::from(ship.margin()) + 1)
}

/// The margin as a value: how many bays neighbouring cranes keep free.
fn margin_value(ship: &Ship) -> Value
    ensures { view result ≡ number (ship.now.gap - 1) }
{
    Value::Integer(i64::from(ship.margin()))
}

/// Puts the distance of cranes at its key, and the places of the hatches where the file gives them.
fn put_distance(alloc: Global, table: &mut Table, ship: &Ship) -> Result<(), OutOfMemory>
    ensures { OnOk result (table_view table.new ≡ if ship.now.in_decimetres
        then with_member (codes "places") (array_of number ship.now.places)
        (with_member (codes "clear") (number ship.now.gap) (table_view table.old))
        else with_member (codes "margin") (number (ship.now.gap - 1)) (table_view table.old)) }
{
    if ship.in_decimetres() {
        put(alloc, table, "clear", clear_value(ship))?;
        put_numbers(alloc, table, "places", ship.places())
    } else {
        put(alloc, table, "margin", margin_value(ship))
    }
}

/// Puts the hatches and the rules of the planner at their keys, those of tasks only as far as these are left.
fn put_lists(
    alloc: Global,
    table: &mut Table,
    ship: &Ship,
    rest: &Instance,
) -> Result<(), OutOfMemory>
    ensures { OnOk result (table_view table.new
        ≡ with_member (codes "not_before") (array_of release_value (releases_of rest.now.tasks))
        (with_member (codes "before") (array_of before_value (filter (are_named rest.now.tasks) ship.now.before))
        (with_member (codes "apart") (array_of apart_value ship.now.apart)
        (with_member (codes "hatches") (array_of number ship.now.hatches) (table_view table.old))))) }
{
    put_numbers(alloc, table, "hatches", ship.hatches())?;
    let apart = apart_values(alloc, ship.apart())?;
    put(alloc, table, "apart", Value::Array(apart))?;
    let before = before_values(alloc, ship.before(), rest.tasks())?;
    put(alloc, table, "before", Value::Array(before))?;
    let releases = release_values(alloc, rest)?;
    put(alloc, table, "not_before", Value::Array(releases))
}

/// Puts the cranes at their key.
fn put_cranes(
    alloc: Global,
    table: &mut Table,
    ship: &Ship,
    rest: &Instance,
) -> Result<(), OutOfMemory>
    ensures table { OnOk result (table_view table.new
        ≡ with_member (codes "crane") (array_of (crane_value ship.now.places) rest.now.cranes) (table_view table.old)) }
    ensures names { OnOk result ((k : ℕ) → k < length rest.now.cranes
        → IsTrue (is_name (crane rest.now k).name)) }
{
    let cranes = crane_values(alloc, ship.places(), rest)?;
    put(alloc, table, "crane", Value::Array(cranes))
}

/// The table of the ship file of what is left.
fn ship_table(alloc: Global, ship: &Ship, rest: &Instance) -> Result<Table, OutOfMemory>
    ensures table { IfOk result (λ t. table_view t ≡ ship_table (rest_ship ship.now rest.now)) }
    ensures names { IfOk result (λ _. (k : ℕ) → k < length rest.now.cranes
        → IsTrue (is_name (crane rest.now k).name)) }
{
    let mut table = Table::new(alloc);
    put_times(alloc, &mut table, ship)?;
    put_restows(alloc, &mut table, ship)?;
    put_distance(alloc, &mut table, ship)?;
    put_lists(alloc, &mut table, ship, rest)?;
    put_cranes(alloc, &mut table, ship, rest)?;
    Ok(table)
}

/// The ship file of what is left: that of the ship, with the cranes of the instance, its tasks' releases, and those of the
/// planner's pairs of which both tasks are left. All memory for the file is taken here. Where that ship keeps the limits of
/// ships, the text reads as it.
pub fn ship_text(alloc: Global, ship: &Ship, rest: &Instance) -> Result<Bytes, OutOfMemory>
    ensures text { IfOk result (IsDocumentText false (ship_table (rest_ship ship.now rest.now))) }
    ensures reads { IfOk result (λ bytes. IsShip (rest_ship ship.now rest.now)
        → ship_file bytes ≡ Ok (rest_ship ship.now rest.now)) }
{
    let table = ship_table(alloc, ship, rest)?;
    match toml::table_to_string(alloc, &table) {
        Ok(text) => Ok(Bytes::of(text.into_bytes())),
        Err(_) => Err(OutOfMemory),
    }
}
