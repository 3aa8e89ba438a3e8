//! What may be wrong with a ship file.

ghost use Rattle.std.specs.Prelude.{◌≡◌, ◌≤◌, length};
ghost use Rattle.qc_num.specs.declared.read_error.ReadError.TheVariants.{Fault};
ghost use Rattle.qc_ship.specs.Keys.{kind_text, key_text};

use qc_num::ReadError;

/// What is wrong with a key of a ship file.
#[derive(Clone, Copy, Debug, PartialEq, Eq)]
pub enum ShipKind {
    /// The file is no TOML text.
    NotToml,
    /// A required key isn't there.
    Missing,
    /// The value isn't of the key's type.
    WrongKind,
    /// A number, a length or a text isn't one of those that are allowed.
    Range,
    /// A hatch or a place isn't behind the one before it.
    HatchOrder,
    /// A crane starts too near to the one before it.
    CraneOrder,
    /// An earlier crane has the name.
    NameTwice,
    /// A pair doesn't name two different hatches of the ship.
    Apart,
    /// A text is no name of a task of the ship: a hatch in plain decimal, `-` and a phase.
    Task,
    /// Both names of a pair are equal.
    Same,
    /// An earlier element names the task.
    TaskTwice,
    /// With this pair some task would have to end before it starts. It takes the stowage list to tell.
    Ring,
}

impl ShipKind {
    /// The kind as reports print it.
    pub fn text(self) -> &'static str
        ensures text { result.now ≡ kind_text self }
        ensures short { length result.now ≤ 10 }
    {
        match self {
            ShipKind::NotToml => "NotToml",
            ShipKind::Missing => "Missing",
            ShipKind::WrongKind => "WrongKind",
            ShipKind::Range => "Range",
            ShipKind::HatchOrder => "HatchOrder",
            ShipKind::CraneOrder => "CraneOrder",
            ShipKind::NameTwice => "NameTwice",
            ShipKind::Apart => "Apart",
            ShipKind::Task => "Task",
            ShipKind::Same => "Same",
            ShipKind::TaskTwice => "TaskTwice",
            ShipKind::Ring => "Ring",
        }
    }
}

/// The keys of a ship file.
#[derive(Clone, Copy, Debug, PartialEq, Eq)]
pub enum Key {
    /// The file itself.
    Whole,
    Hatches,
    Places,
    Margin,
    Clear,
    Travel,
    DeckMove,
    HoldMove,
    Cover,
    Restows,
    Apart,
    Before,
    NotBefore,
    Crane,
    Name,
    Ready,
    Bay,
    From,
    To,
}

impl Key {
    /// The key as the file has it; empty for the file itself.
    pub fn text(self) -> &'static str
        ensures text { result.now ≡ key_text self }
        ensures short { length result.now ≤ 10 }
    {
        match self {
            Key::Whole => "",
            Key::Hatches => "hatches",
            Key::Places => "places",
            Key::Margin => "margin",
            Key::Clear => "clear",
            Key::Travel => "travel",
            Key::DeckMove => "deck_move",
            Key::HoldMove => "hold_move",
            Key::Cover => "cover",
            Key::Restows => "restows",
            Key::Apart => "apart",
            Key::Before => "before",
            Key::NotBefore => "not_before",
            Key::Crane => "crane",
            Key::Name => "name",
            Key::Ready => "ready",
            Key::Bay => "bay",
            Key::From => "from",
            Key::To => "to",
        }
    }
}

/// The first fault of a ship file. `number` counts the elements of an array from 1; it is 0 for the
/// key itself.
#[derive(Clone, Copy, Debug, PartialEq, Eq)]
pub struct ShipFault {
    pub kind: ShipKind,
    pub key: Key,
    pub number: u32,
}

/// Why no ship was read.
pub type ShipError = ReadError<ShipFault>;

impl From<ShipFault> for ShipError {
    ghost from_gives = { λ fault error. error ≡ Fault fault };

    fn from(fault: ShipFault) -> ShipError {
        ShipError::Fault(fault)
    }
}
