//! The texts of ship files and stowage lists. Hatches 2, 6, 10 and 14 are at bays 1 to 4; travel takes
//! 1 tick a bay and a move 10.

macro_rules! ship {
    ($keys:literal, $cranes:literal) => {
        concat!(
            "hatches = [2, 6, 10, 14]\ntravel = 1\ndeck_move = 10\nhold_move = 10\n",
            $keys,
            "\ncrane = [",
            $cranes,
            "]\n"
        )
    };
}

pub const ONE: &str = ship!("margin = 1", "{name = 'C1', bay = 1}");

pub const TWO: &str = ship!(
    "margin = 1",
    "{name = 'C1', bay = 1}, {name = 'C2', bay = 3}"
);

// The same cranes, and a move in the hold takes 1 tick.
pub const QUICK_HOLD: &str = concat!(
    "hatches = [2, 6, 10, 14]\ntravel = 1\ndeck_move = 10\nhold_move = 1\nmargin = 1\n",
    "crane = [{name = 'C1', bay = 1}, {name = 'C2', bay = 3}]\n"
);

pub const APART: &str = ship!(
    "margin = 1\napart = [[2, 14]]",
    "{name = 'C1', bay = 1}, {name = 'C2', bay = 3}"
);

pub const LATE: &str = ship!(
    "margin = 1",
    "{name = 'C1', bay = 2, ready = 100}, {name = 'C2', bay = 4}"
);

pub const CLOSE: &str = ship!(
    "margin = 0",
    "{name = 'C1', bay = 1}, {name = 'C2', bay = 2}, {name = 'C3', bay = 3}, {name = 'C4', bay = 4}"
);

macro_rules! list {
    ($($row:literal)*) => {
        concat!("id,move,cell,length\n", $($row, ",40\n",)*)
    };
}

// The tasks 2-DD and 6-DD of 20 ticks.
pub const AT_2_AND_6: &str = list!("A,D,020082" "B,D,020084" "C,D,060082" "D,D,060084");
// The tasks 2-DD of 20 and 14-DD of 30 ticks.
pub const AT_2_AND_14: &str =
    list!("A,D,020082" "B,D,020084" "C,D,140082" "D,D,140084" "E,D,140086");
// The tasks 2-DD and 2-DH of 10 ticks.
pub const DECK_HOLD: &str = list!("A,D,020082" "B,D,020002");
// The tasks 2-DD, 2-DH and 14-DD of 10 ticks.
pub const DECK_HOLD_AND_14: &str = list!("A,D,020082" "B,D,020002" "C,D,140082");
// The tasks 2-DD, 6-DD, 10-DD and 14-DD of 10 ticks.
pub const ONE_A_BAY: &str = list!("A,D,020082" "B,D,060082" "C,D,100082" "D,D,140082");
// The tasks 2-DD of 20, 6-DD of 10 and 14-DD of 20 ticks.
pub const AT_2_6_AND_14: &str =
    list!("A,D,020082" "B,D,020084" "C,D,060082" "D,D,140082" "E,D,140084");
// The tasks 6-DD and 6-DH of one move.
pub const DECK_HOLD_AT_6: &str = list!("A,D,060082" "B,D,060002");
// The tasks 6-DD, 6-DH and 6-LH of one move.
pub const HOLD_TWICE_AT_6: &str = list!("A,D,060082" "B,D,060002" "C,L,060002");
// The tasks 2-DD, 2-DH and 10-DD of 10 ticks.
pub const DECK_HOLD_AND_10: &str = list!("A,D,020082" "B,D,020002" "C,D,100082");
// The tasks 2-DD, 6-DD and 6-DH of 10 ticks.
pub const DECK_AND_DECK_HOLD: &str = list!("A,D,020082" "B,D,060082" "C,D,060002");
