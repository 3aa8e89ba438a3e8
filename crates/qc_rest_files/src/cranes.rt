//! The cranes of a ship file.

ghost use Rattle.std.specs.Prelude.{◌≡◌, ◌≤◌, ◌<◌, ◌+◌, ℕ, pos, IfOk, IfSome, IsTrue, OnOk, length, map, position};
ghost use Rattle.std.specs.Ordering.{int_eq};
ghost use Rattle.toml.specs.Data.{string};
ghost use Rattle.toml.specs.View.{table_view, view};
ghost use Rattle.qc_make.specs.MadeTable.{with_member};
ghost use Rattle.qc_model.specs.Instance.{crane};
ghost use Rattle.qc_model.specs.Names.{is_name};
ghost use Rattle.qc_rest_files.specs.ShipTable.{crane_value, hatch_at, number};

use crate::values::number_value;
use qc_make::put;
use qc_model::{Crane, Instance, MOST_HATCHES};
use qc_num::{Bay, OutOfMemory};
use std::alloc::Global;
use toml::{Table, Value};

/// Whether a place is this one.
fn is_at(p: u16, place: Bay) -> bool
    ensures { result ≡ int_eq (pos p) place }
{
    Bay::from(p) == place
}

/// The number, from 0, of the hatch at a place.
fn hatch_of(places: &[u16], place: Bay) -> Option<usize>
    ensures hatch { result ≡ position (λ p. int_eq (pos p) place) places.now }
    ensures bound { IfSome result (λ k. k < length places.now) }
{
    places.iter().position(|p| is_at(*p, place))
}

/// The number, from 1, of the hatch at a place; 0 where no hatch is there.
fn hatch_at(places: &[u16], place: Bay) -> u64
    requires { length places.now ≤ MOST_HATCHES }
    ensures hatch { result ≡ hatch_at places.now place }
    ensures most { result ≤ MOST_HATCHES }
{
    match hatch_of(places, place) {
        Some(before) => before as u64 + 1,
        None => 0,
    }
}

/// The name of a crane.
fn name_of(crane: &Crane) -> &str
    ensures text { result.now ≡ crane.now.name }
    ensures name { IsTrue (is_name crane.now.name) }
{
    std::str::from_utf8(crane.name.as_bytes()).unwrap()
}

/// The name of a crane as a value.
fn name_value(alloc: Global, crane: &Crane) -> Result<Value, OutOfMemory>
    ensures value { IfOk result (λ v. view v ≡ string crane.now.name) }
    ensures name { IsTrue (is_name crane.now.name) }
{
    Ok(Value::String(String::from_str(alloc, name_of(crane))?))
}

/// Puts the number of the hatch at a place at a key.
fn put_hatch(
    alloc: Global,
    table: &mut Table,
    key: &str,
    places: &[u16],
    place: Bay,
) -> Result<(), OutOfMemory>
    requires { length places.now ≤ MOST_HATCHES }
    ensures { OnOk result (table_view table.new
        ≡ with_member key.now (number (hatch_at places.now place)) (table_view table.old)) }
{
    put(alloc, table, key, number_value(hatch_at(places, place)))
}

/// The table of a crane of an instance.
fn crane_value(alloc: Global, places: &[u16], inst: &Instance, k: u16) -> Result<Value, OutOfMemory>
    requires places { length places.now ≤ MOST_HATCHES }
    requires crane { k < length inst.now.cranes }
    ensures value { IfOk result (λ v. view v ≡ crane_value places.now (crane inst.now k)) }
    ensures name { IfOk result (λ _. IsTrue (is_name (crane inst.now k).name)) }
{
    let post = inst.post(k);
    let mut table = Table::new(alloc);
    put(alloc, &mut table, "name", name_value(alloc, inst.crane(k))?)?;
    put(
        alloc,
        &mut table,
        "bay",
        Value::Integer(i64::from(post.bay)),
    )?;
    put(alloc, &mut table, "ready", number_value(post.ready))?;
    put_hatch(alloc, &mut table, "from", places, post.from)?;
    put_hatch(alloc, &mut table, "to", places, post.to)?;
    Ok(Value::Table(table))
}

/// The tables of the cranes of an instance.
pub(crate) fn crane_values(
    alloc: Global,
    places: &[u16],
    inst: &Instance,
) -> Result<Vec<Value>, OutOfMemory>
    requires { length places.now ≤ MOST_HATCHES }
    ensures values { IfOk result (λ v. map view v.items ≡ map (crane_value places.now) inst.now.cranes) }
    ensures names { IfOk result (λ _. (k : ℕ) → k < length inst.now.cranes
        → IsTrue (is_name (crane inst.now k).name)) }
{
    let mut values = Vec::new(alloc);
    for k in 0..inst.crane_count() {
        values.push(crane_value(alloc, places, inst, k)?)?;
    }
    Ok(values)
}
