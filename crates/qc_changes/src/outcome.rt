//! What leads from one plan to another.

ghost use Rattle.std.specs.Prelude.{◌≡◌};
ghost use Rattle.qc_changes.specs.Counts.{count_in};

use crate::class::Class;
use crate::counts::Counts;
use qc_stow::Row;
use std::marker::Model;

/// The moves that lead from one bay plan to another.
#[derive(Drop)]
pub struct Changes {
    rows: Vec<Row>,
    counts: Counts,
}

impl Model for Changes {
    ghost use Rattle.qc_changes.specs.Changes.{ChangesView};

    ghost Value = { ChangesView };

    ghost view = { λ c. record { rows = c.rows.items; counts = c.counts } };
}

impl Changes {
    /// The changes of these moves, of so many containers of each class.
    pub(crate) fn of(rows: Vec<Row>, counts: Counts) -> Changes
        ensures { result ≡ record { rows = rows.items; counts = counts } }
    {
        Changes { rows, counts }
    }

    /// The moves in an order in which they can be made.
    pub fn rows(&self) -> &[Row]
        ensures { result.now ≡ self.now.rows }
    {
        self.rows.as_slice()
    }

    /// How many containers have this class.
    pub fn count(&self, class: Class) -> usize
        ensures { result ≡ count_in class self.now.counts }
    {
        self.counts.of(class)
    }
}
