//! The ship file that is made.
ghost use Rattle.std.specs.Prelude.{◌≡◌, ◌<◌, ◌≤◌, codes, map, IfOk, OnOk, Some};
ghost use Rattle.toml.specs.View.{table_view, view};
ghost use Rattle.qc_ship.specs.ShipFile.{table_of};
ghost use Rattle.qc_make.specs.MadeTable.{crane_table, crane_values, hatch_values, number_value, ship_table, with_member};

use crate::table::put;
use qc_model::{MOST_CRANES, MOST_HATCHES};
use qc_num::{Bytes, OutOfMemory};
use std::alloc::Global;
use toml::{Table, Value};

/// A number as a value.
fn number_value(number: u16) -> Value
    ensures { view result ≡ number_value number }
{
    Value::Integer(i64::from(number))
}

/// Puts a number at a key.
fn put_number(alloc: Global, table: &mut Table, key: &str, number: u16) -> Result<(), OutOfMemory>
    ensures { OnOk result (table_view table.new
        ≡ with_member key.now (number_value number) (table_view table.old)) }
{
    put(alloc, table, key, number_value(number))
}

/// Puts the margin and the ticks at their keys.
fn put_numbers(alloc: Global, table: &mut Table) -> Result<(), OutOfMemory>
    ensures { OnOk result (table_view table.new ≡ with_member (codes "cover") (number_value 240)
        (with_member (codes "hold_move") (number_value 110)
        (with_member (codes "deck_move") (number_value 120)
        (with_member (codes "travel") (number_value 60)
        (with_member (codes "margin") (number_value 1) (table_view table.old)))))) }
{
    put_number(alloc, table, "margin", 1)?;
    put_number(alloc, table, "travel", 60)?;
    put_number(alloc, table, "deck_move", 120)?;
    put_number(alloc, table, "hold_move", 110)?;
    put_number(alloc, table, "cover", 240)
}

/// The numbers of so many hatches, as values.
fn hatch_values(alloc: Global, hatches: u16) -> Result<Vec<Value>, OutOfMemory>
    requires { hatches ≤ MOST_HATCHES }
    ensures { IfOk result (λ v. map view v.items ≡ hatch_values hatches) }
{
    let mut values = Vec::new(alloc);
    for k in 0..hatches {
        values.push(number_value(4 * k + 2))?;
    }
    Ok(values)
}

/// The table of crane k, from 0.
fn crane_table(alloc: Global, k: u16) -> Result<Table, OutOfMemory>
    requires { k < MOST_CRANES }
    ensures { IfOk result (λ t. table_view t ≡ crane_table k) }
{
    let number = k + 1;
    let mut table = Table::new(alloc);
    put(
        alloc,
        &mut table,
        "name",
        Value::String(format!(in alloc; "C{number}")?),
    )?;
    put_number(alloc, &mut table, "bay", 2 * k + 1)?;
    Ok(table)
}

/// The tables of so many cranes, as values.
fn crane_values(alloc: Global, cranes: u16) -> Result<Vec<Value>, OutOfMemory>
    requires { cranes ≤ MOST_CRANES }
    ensures { IfOk result (λ v. map view v.items ≡ crane_values cranes) }
{
    let mut values = Vec::new(alloc);
    for k in 0..cranes {
        values.push(Value::Table(crane_table(alloc, k)?))?;
    }
    Ok(values)
}

/// The table of a ship file.
fn ship_table(alloc: Global, hatches: u16, cranes: u16) -> Result<Table, OutOfMemory>
    requires hatches { hatches ≤ MOST_HATCHES }
    requires cranes { cranes ≤ MOST_CRANES }
    ensures { IfOk result (λ t. table_view t ≡ ship_table hatches cranes) }
{
    let hatches = Value::Array(hatch_values(alloc, hatches)?);
    let cranes = Value::Array(crane_values(alloc, cranes)?);
    let mut table = Table::new(alloc);
    put(alloc, &mut table, "hatches", hatches)?;
    put_numbers(alloc, &mut table)?;
    put(alloc, &mut table, "crane", cranes)?;
    Ok(table)
}

/// A ship file for so many hatches and cranes: hatches 2, 6, 10 and so on, a margin of 1, 60 ticks
/// of travel per bay, 120 a move on deck, 110 in the hold and 240 for a cover, and cranes C1, C2 and
/// so on at bays 1, 3 and so on. That the file has no fault isn't promised here: whoever reads it finds that out.
pub fn ship_text(alloc: Global, hatches: u16, cranes: u16) -> Result<Bytes, OutOfMemory>
    requires hatches { (1 ≤ hatches) × (hatches ≤ MOST_HATCHES) }
    requires cranes { (1 ≤ cranes) × (cranes ≤ MOST_CRANES) }
    ensures { IfOk result (λ bytes. table_of bytes ≡ Some (ship_table hatches cranes)) }
{
    let table = ship_table(alloc, hatches, cranes)?;
    match toml::table_to_string(alloc, &table) {
        Ok(text) => Ok(Bytes::of(text.into_bytes())),
        Err(_) => Err(OutOfMemory),
    }
}
