//! Lists of moves.

ghost use Rattle.std.specs.Prelude.{◌≡◌};
ghost use Rattle.qc_stow.specs.Moves.{AreMoves};

use crate::row::Row;
use std::marker::Model;

/// The most moves of a stowage list.
pub const MOST_MOVES: usize = 50_000;

/// The moves of a stowage list: at most 50,000, of which no two of one kind have one id or
/// overlapping cells.
#[derive(Drop)]
pub struct Moves {
    rows: Vec<Row>,
}

impl Model for Moves {
    ghost use Rattle.std.specs.Prelude.{List};
    ghost use Rattle.qc_stow.specs.declared.row.Row.{Row};
    ghost use Rattle.qc_stow.specs.Moves.{AreMoves};

    ghost Value = { List Row };

    ghost view = { λ m. m.rows.items };

    ghost invariant = { λ m. AreMoves m.rows.items };
}

impl Moves {
    /// Moves of these rows.
    pub(crate) fn of(rows: Vec<Row>) -> Moves
        requires { AreMoves rows.items }
        ensures { result ≡ rows.items }
    {
        Moves { rows }
    }

    /// The moves in the order of the file.
    pub fn rows(&self) -> &[Row]
        ensures rows { result.now ≡ self.now }
        ensures moves { AreMoves self.now }
    {
        self.rows.as_slice()
    }
}
