//! A ship read upward: its hatches, and the events, which are the pairs of a hatch and a crane that
//! reaches it, in the order in which tasks wait for each other. A state is what one pass over the
//! events must remember, its children are what it can become at an event.
//!
//! There is a part only where at most 60 hatches have tasks (`open`). What is found by it is judged
//! later, so nothing is promised of its estimates.
#![tactic(auto)]

mod event;
mod events;
mod hatch;
mod part;
mod places;
mod rest;
mod rooms;
mod state;
mod windows;

pub use event::{Child, Event};
pub use hatch::{Block, Hatch};
pub use part::UpwardView;
pub use state::State;
