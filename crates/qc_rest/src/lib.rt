//! Replanning in the middle of work: what is left of a plan, as an instance of its own that begins now.
//!
//! `Rest::of` tells it from a log that a dispatcher followed, with the old order as a schedule of it, and why there is
//! none (`specs/Whole.antt`).
//!
//! The rest (`specs/RestOf.antt`) has the tasks without a start, released no sooner than what runs and holds them back is
//! over, and the cranes where they stand by now (`specs/Stands.antt`, `specs/Places.antt`). Whoever plans it
//! plans the whole: its feasible schedules and the starts made before are together feasible, with the lengths that tasks
//! took or still take (`every_plan_of_the_rest_keeps_the_rules`), and end when it ends (`the_whole_ends_with_the_rest`). It is an instance
//! (`the_rest_is_an_instance`), its cranes can be at their places by now (`cranes_can_be_at_their_places`), and the old
//! order is a feasible schedule of it that is late by less than the travel of one bay
//! (`the_old_order_is_late_by_less_than_a_bay`).
#![tactic(auto)]

mod gone;
mod instance;
mod last;
mod laws;
mod order;
mod pass;
mod places;
mod remains;
mod rest;
mod stand;
mod stands;

pub use remains::{StillRuns, is_run_out};
pub use rest::{Rest, RestError};
pub use stand::Stand;
