//! What may stand at a key of a ship file.

use qc_ship::Key;

/// What may stand at a key, where places are counted as hatches or in decimetres.
pub(crate) fn wanted_at(key: Key, in_decimetres: bool) -> &'static str {
    match key {
        Key::Whole => "a text in TOML",
        Key::Hatches =>
            "1 to 60 whole numbers from 1 to 998 in brackets, bow to stern, as [2, 6, 10]",
        Key::Places =>
            "one whole number from 1 to 6000 for each hatch, in decimetres, as [400, 550, 900]",
        Key::Margin => "a whole number from 0 to 20, the bays that stay free between two cranes",
        Key::Clear =>
            "a whole number from 1 to 2000, the least distance of two cranes in decimetres",
        Key::Travel if in_decimetres =>
            "a whole number from 1 to 100, the ticks of travel for each decimetre",
        Key::Travel => "a whole number from 1 to 10000, the ticks of travel for each bay",
        Key::DeckMove => "a whole number from 1 to 10000, the ticks of a move on deck",
        Key::HoldMove => "a whole number from 1 to 10000, the ticks of a move in the hold",
        Key::Cover => "a whole number from 0 to 10000, the ticks for the hatch cover",
        Key::Restows => "\"free\" or \"ordered\"",
        Key::Apart => "at most 100 pairs of hatches in brackets, as [[20, 24]]",
        Key::Before =>
            "at most 240 pairs of tasks in brackets, as [[\"2-DD\", \"6-DD\"]], of which the first ends before the second starts",
        Key::NotBefore =>
            "at most 240 pairs of a task and a tick from 0 to 1000000 in brackets, as [[\"2-DD\", 600]], before which it doesn't start",
        Key::Crane => "1 to 8 cranes, each below a line [[crane]] of its own",
        Key::Name =>
            "1 to 12 letters from A to Z or a to z, digits, - and _ between double quotes, as \"STS-1\"",
        Key::Ready =>
            "a whole number from 0 to 1000000, the tick from which the crane may leave its place",
        Key::Bay if in_decimetres =>
            "a whole number from -10000 to 16000, the decimetre where the crane stands at first",
        Key::Bay =>
            "a whole number from -200 to 300, the crane bay where the crane stands at first; that of the first hatch is 1",
        Key::From => "the number of the crane's first hatch, counted from 1 in hatches",
        Key::To =>
            "the number of the crane's last hatch, counted from 1 in hatches and not below from",
    }
}
