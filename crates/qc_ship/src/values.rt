//! Values of a TOML table.

ghost use Rattle.std.specs.Prelude.{◌≡◌, ◌≤◌, ◌≤ℤ◌, IfOk, map, option_map, length};
ghost use Rattle.toml.specs.Data.{get_member, as_array};
ghost use Rattle.toml.specs.View.{view, table_view};
ghost use Rattle.qc_ship.specs.Keys.{key_text, fault};
ghost use Rattle.qc_ship.specs.ShipValues.{IsRead, required, integer_in, number_in, number_at, number_or, elements, array_in, text_in};

use crate::{Key, ShipFault, ShipKind};
use qc_num::Tick;
use toml::{Table, Value};

/// A fault of a key.
pub(crate) fn fault(kind: ShipKind, key: Key, number: u32) -> ShipFault
    ensures { result ≡ fault kind key number }
{
    ShipFault { kind, key, number }
}

/// The value at a key, if the table has the key.
pub(crate) fn value_at(table: &Table, key: Key) -> Option<&Value>
    ensures { option_map (λ v. view v.now) result ≡ get_member (key_text key) (table_view table.now) }
{
    table.get(key.text())
}

/// The value at a key that must be there.
pub(crate) fn required(table: &Table, key: Key, number: u32) -> Result<&Value, ShipFault>
    ensures { IsRead (λ v. view v.now) (required key number (table_view table.now)) result }
{
    match value_at(table, key) {
        Some(value) => Ok(value),
        None => Err(fault(ShipKind::Missing, key, number)),
    }
}

/// An integer from `low` to `high`.
pub(crate) fn integer_in(
    key: Key,
    number: u32,
    low: i64,
    high: i64,
    value: &Value,
) -> Result<i64, ShipFault>
    ensures value { result ≡ integer_in key number low high (view value.now) }
    ensures from_low { IfOk result (λ n. low ≤ℤ n) }
    ensures to_high { IfOk result (λ n. n ≤ℤ high) }
{
    match value.as_integer() {
        Some(n) if low <= n && n <= high => Ok(n),
        Some(_) => Err(fault(ShipKind::Range, key, number)),
        None => Err(fault(ShipKind::WrongKind, key, number)),
    }
}

/// A number from `low` to `high`.
pub(crate) fn number_in(
    key: Key,
    number: u32,
    low: u32,
    high: u32,
    value: &Value,
) -> Result<Tick, ShipFault>
    ensures value { result ≡ number_in key number low high (view value.now) }
    ensures from_low { IfOk result (λ n. low ≤ n) }
    ensures to_high { IfOk result (λ n. n ≤ high) }
{
    let n = integer_in(key, number, i64::from(low), i64::from(high), value)?;
    Ok(n as Tick)
}

/// A number from `low` to `high` at a key that must be there.
pub(crate) fn number_at(table: &Table, key: Key, low: u32, high: u32) -> Result<Tick, ShipFault>
    ensures value { result ≡ number_at key 0 low high (table_view table.now) }
    ensures to_high { IfOk result (λ n. n ≤ high) }
{
    let value = required(table, key, 0)?;
    number_in(key, 0, low, high, value)
}

/// A number from `low` to `high`, and `default` where the key isn't there.
pub(crate) fn number_or(
    table: &Table,
    default: u32,
    key: Key,
    number: u32,
    low: u32,
    high: u32,
) -> Result<Tick, ShipFault>
    ensures value { result ≡ number_or default key number low high (table_view table.now) }
    ensures to_high { default ≤ high → IfOk result (λ n. n ≤ high) }
{
    match value_at(table, key) {
        Some(value) => number_in(key, number, low, high, value),
        None => Ok(Tick::from(default)),
    }
}

/// An array of `low` to `high` values.
pub(crate) fn array_in(
    key: Key,
    low: usize,
    high: usize,
    value: &Value,
) -> Result<&[Value], ShipFault>
    ensures values { IsRead (λ a. map view a.now) (array_in key low high (view value.now)) result }
    ensures to_high { IfOk result (λ a. length a.now ≤ high) }
{
    match items_of(value) {
        Some(items) if low <= items.len() && items.len() <= high => Ok(items),
        Some(_) => Err(fault(ShipKind::Range, key, 0)),
        None => Err(fault(ShipKind::WrongKind, key, 0)),
    }
}

/// The values of an array, if the value is one.
pub(crate) fn items_of(value: &Value) -> Option<&[Value]>
    ensures { option_map (λ a. map view a.now) result ≡ option_map elements (as_array (view value.now)) }
{
    match value.as_array() {
        Some(array) => Some(array.as_slice()),
        None => None,
    }
}

/// A text.
pub(crate) fn text_in(key: Key, number: u32, value: &Value) -> Result<&str, ShipFault>
    ensures { IsRead (λ s. s.now) (text_in key number (view value.now)) result }
{
    match value.as_str() {
        Some(text) => Ok(text),
        None => Err(fault(ShipKind::WrongKind, key, number)),
    }
}
