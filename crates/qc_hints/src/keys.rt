//! The keys of a ship file.

use qc_ship::Key;

/// The keys of the ship.
pub(crate) const SHIP_KEYS: [&str; 13] = [
    "hatches",
    "places",
    "margin",
    "clear",
    "travel",
    "deck_move",
    "hold_move",
    "cover",
    "restows",
    "apart",
    "before",
    "not_before",
    "crane",
];

/// The keys of a crane.
pub(crate) const CRANE_KEYS: [&str; 5] = ["name", "ready", "bay", "from", "to"];

/// Whether a key is one of a crane.
pub(crate) fn is_of_crane(key: Key) -> bool {
    CRANE_KEYS.contains(&key.text())
}

/// The keys of a crane or, with 0, of the ship.
pub(crate) fn keys_of(crane: u32) -> &'static [&'static str] {
    if crane == 0 { &SHIP_KEYS } else { &CRANE_KEYS }
}

/// Whether a name is a key of a crane or, with 0, of the ship.
pub(crate) fn is_known(crane: u32, name: &str) -> bool {
    keys_of(crane).contains(&name)
}
