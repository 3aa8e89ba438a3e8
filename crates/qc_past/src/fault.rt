//! What may be wrong with a file of past tasks.

ghost use Rattle.std.specs.Prelude.{◌≡◌, ◌≤◌, length};
ghost use Rattle.qc_past.specs.Faults.{kind_text};

use qc_num::ReadError;

/// What is wrong with a record of a file of past tasks: the first of these that applies.
#[derive(Clone, Copy, Debug, PartialEq, Eq)]
pub enum PastKind {
    /// The first record isn't the header, or there is no record.
    Header,
    /// There are more than 10,000 tasks; told of the first one too many.
    TooMany,
    /// The record hasn't four fields.
    Fields,
    /// The call isn't 1 to 20 ASCII letters, digits, `-` and `_`.
    Call,
    /// The phase is none of `DD`, `DH`, `LH`, `LD` and `-`.
    Phase,
    /// One of the two lengths isn't a whole number from 1 to 999,999,999, written plainly.
    Number,
    /// The real length is above 100 times the planned one.
    TooLong,
    /// The 240 records before this one are all of its call, and a call has no more tasks.
    CallFull,
    /// The call was told before, and then another one: its records don't stand together.
    CallTwice,
    /// Nothing follows the header; told of the record behind it.
    Empty,
}

impl PastKind {
    /// The kind as reports print it.
    pub fn text(self) -> &'static str
        ensures text { result.now ≡ kind_text self }
        ensures short { length result.now ≤ 9 }
    {
        match self {
            PastKind::Header => "Header",
            PastKind::TooMany => "TooMany",
            PastKind::Fields => "Fields",
            PastKind::Call => "Call",
            PastKind::Phase => "Phase",
            PastKind::Number => "Number",
            PastKind::TooLong => "TooLong",
            PastKind::CallFull => "CallFull",
            PastKind::CallTwice => "CallTwice",
            PastKind::Empty => "Empty",
        }
    }
}

/// The first fault of a file of past tasks.
#[derive(Clone, Copy, Debug, PartialEq, Eq)]
pub struct PastFault {
    /// The record, from 1: the header is the first.
    pub number: u32,
    pub kind: PastKind,
}

/// Why no past tasks were read.
pub type PastError = ReadError<PastFault>;

impl From<PastFault> for PastError {
    ghost use Rattle.std.specs.Prelude.{◌≡◌};
    ghost use Rattle.qc_num.specs.declared.read_error.ReadError.TheVariants.{Fault};

    ghost from_gives = { λ fault error. error ≡ Fault fault };

    fn from(fault: PastFault) -> PastError {
        PastError::Fault(fault)
    }
}
