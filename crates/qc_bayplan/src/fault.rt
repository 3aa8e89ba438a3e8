//! What may be wrong with a bay plan.

ghost use Rattle.std.specs.Prelude.{◌≡◌, ◌≤◌, length};
ghost use Rattle.qc_num.specs.declared.read_error.ReadError.TheVariants.{Fault};
ghost use Rattle.qc_bayplan.specs.Faults.{kind_text};

use qc_num::ReadError;
use qc_ship::CellFault;

/// What is wrong with a segment of a bay plan: the first of these that applies.
#[derive(Clone, Copy, Debug)]
pub enum BayPlanKind {
    /// The six bytes behind `UNA` can't serve as signs, or there are fewer; told with the number 0.
    Una,
    /// Something follows though the plan is over.
    After,
    /// The file ends though the plan isn't over.
    Cut,
    /// The segment has more than 4,096 bytes.
    TooLong,
    /// The tag isn't three capital letters.
    Tag,
    /// The tag may not come here.
    Place,
    /// The message isn't `BAPLIE`.
    NotBaplie,
    /// The message changes a plan, or tells the loads alone.
    Partial,
    /// A count isn't 1 to 9 digits of the right number.
    Count,
    /// A container comes where no place is open.
    NoPlace,
    /// There are more than 25,000 containers; told of the first one too many.
    TooMany,
    /// The place isn't numbered in the way of ISO 9711.
    CellKind,
    /// The cell can't be read.
    Cell(CellFault),
    /// The id isn't 1 to 20 visible ASCII characters without comma and double quote.
    Id,
    /// The size's first character is none of the lengths that are known.
    Size,
    /// 20 feet at an even bay, or more at an odd one.
    LengthMismatch,
    /// An earlier container has the id.
    IdTwice,
    /// An earlier container has an overlapping cell.
    CellTaken,
}

impl BayPlanKind {
    /// The kind as reports print it.
    pub fn text(self) -> &'static str
        ensures text { result.now ≡ kind_text self }
        ensures short { length result.now ≤ 14 }
    {
        match self {
            BayPlanKind::Una => "Una",
            BayPlanKind::After => "After",
            BayPlanKind::Cut => "Cut",
            BayPlanKind::TooLong => "TooLong",
            BayPlanKind::Tag => "Tag",
            BayPlanKind::Place => "Place",
            BayPlanKind::NotBaplie => "NotBaplie",
            BayPlanKind::Partial => "Partial",
            BayPlanKind::Count => "Count",
            BayPlanKind::NoPlace => "NoPlace",
            BayPlanKind::TooMany => "TooMany",
            BayPlanKind::CellKind => "CellKind",
            BayPlanKind::Cell(fault) => fault.text(),
            BayPlanKind::Id => "Id",
            BayPlanKind::Size => "Size",
            BayPlanKind::LengthMismatch => "LengthMismatch",
            BayPlanKind::IdTwice => "IdTwice",
            BayPlanKind::CellTaken => "CellTaken",
        }
    }
}

/// The first fault of a bay plan.
#[derive(Clone, Copy, Debug)]
pub struct BayPlanFault {
    /// The segment, from 1; 0 where the signs are at fault.
    pub number: u32,
    pub kind: BayPlanKind,
}

/// Why no bay plan was read.
pub type BayPlanError = ReadError<BayPlanFault>;

/// Why a segment wasn't read.
pub(crate) type KindError = ReadError<BayPlanKind>;

impl From<BayPlanKind> for KindError {
    ghost from_gives = { λ kind error. error ≡ Fault kind };

    fn from(kind: BayPlanKind) -> KindError {
        KindError::Fault(kind)
    }
}
