//! Cells: bay, row and tier.

ghost use Rattle.std.specs.Prelude.{◌≡◌, ◌≢◌, ◌<◌, ◌≤◌, length, ◌%◌, [], ◌∷◌, Ok};
ghost use Rattle.qc_ship.specs.Cells.{CellView, IsCell, fault_text, cell_in, cell_of, cell_text, is_on_deck, overlap, slots, is_forty};

use crate::digits::two_digits;
use qc_num::{Text, are_digits, value_of_digits};
use std::marker::Model;

/// The text of a cell: six digits, or seven from bay 100 on.
pub type CellText = Text<7>;

/// A place on board, by its ISO 9711 numbers.
///
/// An odd bay is 20 feet long, and an even one is the 40-foot bay over the odd ones beside it. Row
/// 00 is on the centre line, odd rows lie to starboard and even ones to port. Every tier is even;
/// those from 70 on are on deck, and those below in the hold.
#[derive(Clone, Copy, PartialEq, Eq)]
pub struct Cell {
    /// 1 to 999, from the bow.
    pub bay: u16,
    /// 0 to 99.
    pub row: u8,
    /// 2 to 98, even.
    pub tier: u8,
}

impl Model for Cell {
    ghost Value = { CellView };

    ghost view = { λ c. record { bay = c.bay; row = c.row; tier = c.tier } };

    ghost invariant = { λ c. IsCell (record { bay = c.bay; row = c.row; tier = c.tier }) };

    ghost inverse = { λ c. record { bay = c.bay; row = c.row; tier = c.tier } };
}

/// Why a text isn't a cell: the first of these that applies.
#[derive(Clone, Copy, Debug, PartialEq, Eq)]
pub enum CellFault {
    /// It isn't six or seven bytes long.
    Length,
    /// A byte isn't a digit.
    Digit,
    /// The bay is 0.
    BayZero,
    /// The tier is odd.
    TierOdd,
    /// The tier is 0.
    TierZero,
}

impl CellFault {
    /// The fault as reports print it.
    pub fn text(self) -> &'static str
        ensures text { result.now ≡ fault_text self }
        ensures short { length result.now ≤ 8 }
    {
        match self {
            CellFault::Length => "Length",
            CellFault::Digit => "Digit",
            CellFault::BayZero => "BayZero",
            CellFault::TierOdd => "TierOdd",
            CellFault::TierZero => "TierZero",
        }
    }
}

impl Cell {
    /// The cell that six or seven digits write: the last two are the tier, the two before them the
    /// row, and the first two or three the bay.
    pub fn read(text: &[u8]) -> Result<Cell, CellFault>
        ensures { result ≡ cell_in text.now }
    {
        if text.len() != 6 && text.len() != 7 {
            return Err(CellFault::Length);
        }
        if !are_digits(text) {
            return Err(CellFault::Digit);
        }
        let (bay, place) = text.split_at(text.len() - 4);
        let (row, tier) = place.split_at(2);
        let (bay, row, tier) = (
            value_of_digits(bay),
            value_of_digits(row),
            value_of_digits(tier),
        );
        Cell::of(bay as u16, row as u8, tier as u8)
    }

    /// The cell of these numbers, or the first fault of them.
    fn of(bay: u16, row: u8, tier: u8) -> Result<Cell, CellFault>
        requires bay { bay < 1000 }
        requires row { row < 100 }
        requires tier { tier < 100 }
        ensures { result ≡ cell_of bay row tier }
    {
        if bay == 0 {
            return Err(CellFault::BayZero);
        }
        if tier % 2 != 0 {
            return Err(CellFault::TierOdd);
        }
        if tier == 0 {
            return Err(CellFault::TierZero);
        }
        Ok(Cell { bay, row, tier })
    }

    /// The cell's text: `BBRRTT` for bays below 100, else `BBBRRTT`.
    pub fn write(&self) -> CellText
        ensures text { result ≡ cell_text self.now }
        ensures reads { cell_in result ≡ Ok self.now }
        ensures cell { IsCell self.now }
    {
        let (row_tens, row_ones) = two_digits(self.row);
        let (tier_tens, tier_ones) = two_digits(self.tier);
        let (bay_tens, bay_ones) = two_digits((self.bay % 100) as u8);
        if self.bay < 100 {
            Text::of(&[bay_tens, bay_ones, row_tens, row_ones, tier_tens, tier_ones])
        } else {
            let hundreds = b'0' + (self.bay / 100) as u8;
            Text::of(&[
                hundreds, bay_tens, bay_ones, row_tens, row_ones, tier_tens, tier_ones,
            ])
        }
    }

    /// Whether the cell is on deck, and not in the hold.
    pub fn is_deck(&self) -> bool
        ensures { result ≡ is_on_deck self.now }
    {
        self.tier >= 70
    }

    /// Whether the cell is one of 40 feet, and not of 20.
    pub fn is_forty(&self) -> bool
        ensures forty { result ≡ is_forty self.now }
        ensures cell { IsCell self.now }
    {
        self.bay % 2 == 0
    }

    /// The first and the last 20-foot bay that the cell covers: at an odd bay that bay twice.
    pub fn slots(&self) -> (u16, u16)
        ensures even { self.now.bay % 2 ≡ 0 → slots self.now.bay ≡ result.0 ∷ result.1 ∷ [] }
        ensures odd { self.now.bay % 2 ≢ 0 → (slots self.now.bay ≡ result.0 ∷ [])
            × (result.1 ≡ result.0) }
    {
        if self.bay % 2 == 0 {
            (self.bay - 1, self.bay + 1)
        } else {
            (self.bay, self.bay)
        }
    }

    /// Whether both cells have one row and one tier, and a 20-foot bay in common.
    pub fn overlaps(&self, other: &Cell) -> bool
        ensures { result ≡ overlap self.now other.now }
    {
        let (first, last) = self.slots();
        let (other_first, other_last) = other.slots();
        self.row == other.row
            && self.tier == other.tier
            && (first == other_first
                || first == other_last
                || last == other_first
                || last == other_last)
    }
}
