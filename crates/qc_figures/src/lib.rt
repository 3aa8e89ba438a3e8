//! What each crane does with its ticks in a plan, whether it goes one way or to and fro: the
//! waypoints of all cranes (`tracks_of`), the figures of each (`figures_of`) and their table; and
//! `Page`, a text that grows.
//!
//! As a lemma, of a feasible schedule: the figures make up all ticks (`whole`).
#![tactic(auto)]

mod crane;
mod figured;
mod page;
mod table;
mod tally;
mod tracks;

pub use crane::Figures;
pub use figured::{Figured, figures_of, parts};
pub use table::write_figures;
pub use tracks::{Tracks, tracks_of};
