//! What may be wrong with a stowage list.

ghost use Rattle.std.specs.Prelude.{◌≡◌, ◌≤◌, length};
ghost use Rattle.qc_stow.specs.Faults.{kind_text};

use qc_num::ReadError;
use qc_ship::CellFault;

/// What is wrong with a record of a stowage list: the first of these that applies.
#[derive(Clone, Copy, Debug, PartialEq, Eq)]
pub enum StowKind {
    /// The first record doesn't name each of the four columns exactly once, or there is no record.
    Header,
    /// There are more than 50,000 moves; told of the first one too many.
    TooMany,
    /// The record hasn't as many fields as the header.
    Fields,
    /// The id isn't 1 to 20 visible ASCII characters without comma and double quote.
    Id,
    /// The move is neither `D` nor `L`.
    MoveKind,
    /// The cell can't be read.
    Cell(CellFault),
    /// The length isn't 20 at an odd bay or 40 at an even one.
    LengthMismatch,
    /// No hatch takes the bay.
    NoHatch,
    /// An earlier move of the same kind has the id.
    IdTwice,
    /// An earlier move of the same kind has an overlapping cell.
    CellTaken,
}

impl StowKind {
    /// The kind as reports print it.
    pub fn text(self) -> &'static str
        ensures text { result.now ≡ kind_text self }
        ensures short { length result.now ≤ 14 }
    {
        match self {
            StowKind::Header => "Header",
            StowKind::TooMany => "TooMany",
            StowKind::Fields => "Fields",
            StowKind::Id => "Id",
            StowKind::MoveKind => "MoveKind",
            StowKind::Cell(fault) => fault.text(),
            StowKind::LengthMismatch => "LengthMismatch",
            StowKind::NoHatch => "NoHatch",
            StowKind::IdTwice => "IdTwice",
            StowKind::CellTaken => "CellTaken",
        }
    }
}

/// The first fault of a stowage list.
#[derive(Clone, Copy, Debug, PartialEq, Eq)]
pub struct StowFault {
    /// The record, from 1: the header is the first.
    pub number: u32,
    pub kind: StowKind,
}

/// Why no stowage list was read.
pub type StowError = ReadError<StowFault>;
