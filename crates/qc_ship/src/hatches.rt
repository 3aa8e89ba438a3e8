//! Hatches and their places.

ghost use Rattle.std.specs.Prelude.{◌≡◌, ◌<◌, ◌≤◌, [], length, map};
ghost use Rattle.toml.specs.View.{view};
ghost use Rattle.qc_ship.specs.Ship.{lowest_bay, highest_bay};
ghost use Rattle.qc_num.specs.Reading.{IsReading, each};
ghost use Rattle.qc_ship.specs.ShipFile.{hatch_in, place_in};

use crate::values::{fault, number_in};
use crate::{GREATEST_HATCH, Key, ShipError, ShipFault, ShipKind};
use qc_model::{MOST_HATCHES, MOST_PLACE};
use std::alloc::Global;
use toml::Value;

/// The lowest bay of a hatch.
fn lowest_bay(hatch: u16) -> u32
    ensures { result ≡ lowest_bay hatch }
{
    if hatch % 2 == 0 {
        u32::from(hatch).saturating_sub(1)
    } else {
        u32::from(hatch)
    }
}

/// The highest bay of a hatch.
fn highest_bay(hatch: u16) -> u32
    ensures { result ≡ highest_bay hatch }
{
    if hatch % 2 == 0 {
        u32::from(hatch) + 1
    } else {
        u32::from(hatch)
    }
}

/// The hatch behind these.
fn hatch_in(before: &[u16], value: &Value) -> Result<u16, ShipFault>
    requires { length before.now < 100 }
    ensures { result ≡ hatch_in before.now (view value.now) }
{
    let number = before.len() as u32 + 1;
    let hatch = number_in(Key::Hatches, number, 1, u32::from(GREATEST_HATCH), value)? as u16;
    match before.last() {
        Some(previous) if lowest_bay(hatch) <= highest_bay(*previous) => {
            Err(fault(ShipKind::HatchOrder, Key::Hatches, number))
        }
        _ => Ok(hatch),
    }
}

/// The place behind these.
fn place_in(before: &[u16], value: &Value) -> Result<u16, ShipFault>
    requires { length before.now < 100 }
    ensures { result ≡ place_in before.now (view value.now) }
{
    let number = before.len() as u32 + 1;
    let place = number_in(Key::Places, number, 1, u32::from(MOST_PLACE), value)? as u16;
    match before.last() {
        Some(previous) if place <= *previous => Err(fault(
            ShipKind::HatchOrder,
            Key::Places,
            number,
        )),
        _ => Ok(place),
    }
}

/// The places of an array's values.
pub(crate) fn read_places(alloc: Global, values: &[Value]) -> Result<Vec<u16>, ShipError>
    requires { length values.now ≤ MOST_HATCHES }
    ensures { IsReading (λ v. v.items) (each place_in [] (map view values.now)) result }
{
    let mut places = Vec::new(alloc);
    for value in values {
        let place = place_in(places.as_slice(), value)?;
        places.push(place)?;
    }
    Ok(places)
}

/// The hatches of an array's values.
pub(crate) fn read_hatches(alloc: Global, values: &[Value]) -> Result<Vec<u16>, ShipError>
    requires { length values.now ≤ MOST_HATCHES }
    ensures { IsReading (λ v. v.items) (each hatch_in [] (map view values.now)) result }
{
    let mut hatches = Vec::new(alloc);
    for value in values {
        let hatch = hatch_in(hatches.as_slice(), value)?;
        hatches.push(hatch)?;
    }
    Ok(hatches)
}
