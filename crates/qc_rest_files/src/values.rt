//! Values of a ship file.

ghost use Rattle.std.specs.Prelude.{◌≡◌, ◌<◌, ◌^◌, IfOk, map};
ghost use Rattle.toml.specs.View.{view};
ghost use Rattle.qc_rest_files.specs.ShipTable.{apart_value, number, two};

use qc_num::OutOfMemory;
use qc_ship::HatchPair;
use std::alloc::Global;
use toml::Value;

/// A number as a value.
pub(crate) fn number_value(n: u64) -> Value
    requires { n < 2 ^ 63 }
    ensures { view result ≡ number n }
{
    Value::Integer(n as i64)
}

/// Two values as one.
pub(crate) fn two_values(alloc: Global, a: Value, b: Value) -> Result<Value, OutOfMemory>
    ensures { IfOk result (λ v. view v ≡ two (view a) (view b)) }
{
    let mut values = Vec::new(alloc);
    values.push(a)?;
    values.push(b)?;
    Ok(Value::Array(values))
}

/// Numbers as values.
pub(crate) fn number_values(alloc: Global, numbers: &[u16]) -> Result<Vec<Value>, OutOfMemory>
    ensures { IfOk result (λ v. map view v.items ≡ map number numbers.now) }
{
    let mut values = Vec::new(alloc);
    for n in numbers {
        values.push(number_value(u64::from(*n)))?;
    }
    Ok(values)
}

/// The numbers of two hatches as a value.
fn apart_value(alloc: Global, pair: HatchPair) -> Result<Value, OutOfMemory>
    ensures { IfOk result (λ v. view v ≡ apart_value pair) }
{
    two_values(
        alloc,
        number_value(u64::from(pair.a)),
        number_value(u64::from(pair.b)),
    )
}

/// Pairs of hatches as values.
pub(crate) fn apart_values(alloc: Global, pairs: &[HatchPair]) -> Result<Vec<Value>, OutOfMemory>
    ensures { IfOk result (λ v. map view v.items ≡ map apart_value pairs.now) }
{
    let mut values = Vec::new(alloc);
    for pair in pairs {
        values.push(apart_value(alloc, *pair)?)?;
    }
    Ok(values)
}
