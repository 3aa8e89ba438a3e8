//! The quay crane scheduling problem (Kim and Park 2004): instances, schedules, the rules that they
//! keep, the mirror, and where cranes stand.
//!
//! Every instance keeps its limits (`Instance::of`), and its mirror's mirror is the instance. The
//! judge finds the first rule that a schedule breaks, none exactly where it is feasible and goes
//! the way that is asked for (`first_break`, `direction_of`); one that goes one way moves safely
//! (`safe`). Lemmas say what the nodes of a search force, and that no leaf shows more than
//! schedules keep.
#![tactic(auto)]

mod copies;
mod crane;
mod decision;
mod direction;
mod frame;
mod instance;
mod judge;
mod keeps;
mod limits;
mod mirrors;
mod name;
mod pair;
mod rules;
mod schedule;
mod seen;
mod task;
mod ticks;
mod turn;
mod way;

pub use copies::{copy, copy_cranes};
pub use crane::Crane;
pub use decision::Decision;
pub use direction::Direction;
pub use frame::Frame;
pub use instance::Instance;
pub use judge::{Judge, Work};
pub use limits::{
    MOST_APART, MOST_BAYS, MOST_CRANES, MOST_DISTANCE, MOST_END, MOST_GAP, MOST_GAP_BY_PLACES,
    MOST_HATCHES, MOST_ORDERS, MOST_PLACE, MOST_READY, MOST_START, MOST_TASKS, MOST_TRAVEL,
    MOST_TRAVEL_BY_PLACES, MOST_WORK,
};
pub use mirrors::mirror;
pub use name::Name;
pub use pair::Pair;
pub use rules::{Break, Rule, direction_of, first_break};
pub use schedule::{Schedule, Slot, ends};
pub use seen::{Post, seen_number, seen_place};
pub use task::{Phase, Task, TaskText};
pub use ticks::{bays_between, bays_up, distance, gap_over, travel_over};
pub use turn::Turn;
pub use way::{Trip, Way};
