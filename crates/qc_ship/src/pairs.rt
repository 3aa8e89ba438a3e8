//! Pairs of hatches that aren't worked at the same time.

ghost use Rattle.std.specs.Prelude.{◌≡◌, ◌<◌, ◌≤◌, [], length, map};
ghost use Rattle.toml.specs.View.{view};
ghost use Rattle.qc_num.specs.Reading.{IsReading, each};
ghost use Rattle.qc_ship.specs.ShipFile.{two_integers, hatch_of, pair_in};

use crate::values::{fault, items_of};
use crate::{HatchPair, Key, MOST_HATCH_PAIRS, ShipError, ShipFault, ShipKind};
use std::alloc::Global;
use toml::Value;

/// The two integers of an array of two, if the value is one.
fn two_integers(value: &Value) -> Option<(i64, i64)>
    ensures { result ≡ two_integers (view value.now) }
{
    let [a, b] = items_of(value)? else {
        return None;
    };
    Some((a.as_integer()?, b.as_integer()?))
}

/// The hatch of this number, if the ship has it.
fn hatch_of(hatches: &[u16], number: i64) -> Option<u16>
    ensures { result ≡ hatch_of hatches.now number }
{
    hatches
        .iter()
        .copied()
        .find(|hatch| i64::from(*hatch) == number)
}

/// A pair of two different hatches of the ship.
fn pair_in(hatches: &[u16], before: &[HatchPair], value: &Value) -> Result<HatchPair, ShipFault>
    requires { length before.now < 1000 }
    ensures { result ≡ pair_in hatches.now before.now (view value.now) }
{
    let number = before.len() as u32 + 1;
    let Some((a, b)) = two_integers(value) else {
        return Err(fault(ShipKind::WrongKind, Key::Apart, number));
    };
    match (hatch_of(hatches, a), hatch_of(hatches, b)) {
        (Some(a), Some(b)) if a != b => Ok(HatchPair { a, b }),
        _ => Err(fault(ShipKind::Apart, Key::Apart, number)),
    }
}

/// The pairs of an array's values.
pub(crate) fn read_pairs(
    alloc: Global,
    hatches: &[u16],
    values: &[Value],
) -> Result<Vec<HatchPair>, ShipError>
    requires { length values.now ≤ MOST_HATCH_PAIRS }
    ensures { IsReading (λ v. v.items) (each (pair_in hatches.now) [] (map view values.now)) result }
{
    let mut pairs = Vec::new(alloc);
    for value in values {
        let pair = pair_in(hatches, pairs.as_slice(), value)?;
        pairs.push(pair)?;
    }
    Ok(pairs)
}
