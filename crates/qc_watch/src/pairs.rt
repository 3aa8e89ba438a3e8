//! Which pair of cranes is too near.

ghost use Rattle.std.specs.Prelude.{◌≡◌, ◌<◌, ◌≤◌, ℕ, length, MatchOption};
ghost use Rattle.qc_watch.specs.Breach.{room_between};
ghost use Rattle.qc_watch.specs.Cursors.{AreClearFrom, AreSmall, IsNearPair, IsNearTo};

use crate::cursors::Places;
use crate::place::is_short;
use qc_ship::Ship;

/// The bays that crane `w` must be ahead of the lower crane `v`.
fn room_between(ship: &Ship, v: u16, w: u16) -> u64
    requires order { v < w }
    requires range { w < length ship.now.cranes }
    ensures room { result ≡ room_between ship.now v w }
    ensures few { result ≤ 16000 }
{
    (ship.margin() + 1) as u64 * u64::from(w - v)
}

/// The first crane above `v` that is too near to it.
fn near_to(ship: &Ship, places: &Places, v: u16) -> Option<u16>
    requires small { AreSmall places.now }
    requires range { v < length ship.now.cranes }
    ensures { MatchOption result (AreClearFrom ship.now places.now v) (IsNearTo ship.now places.now v) }
{
    let cranes = ship.cranes().len() as u16;
    let lower = places[v as usize]?;
    for w in v + 1..cranes {
        if let Some(higher) = places[w as usize] {
            if is_short(lower, higher, room_between(ship, v, w)) {
                return Some(w);
            }
        }
    }
    None
}

/// The first pair of cranes that are too near: of the lowest crane, the one with the lowest other.
pub(crate) fn near_pair(ship: &Ship, places: &Places) -> Option<(u16, u16)>
    requires { AreSmall places.now }
    ensures { MatchOption result ((v : ℕ) → v < length ship.now.cranes → AreClearFrom ship.now places.now v)
        (λ pair. IsNearPair ship.now places.now pair.0 pair.1) }
{
    for v in 0..ship.cranes().len() as u16 {
        if let Some(w) = near_to(ship, places, v) {
            return Some((v, w));
        }
    }
    None
}
