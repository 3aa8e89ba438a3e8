//! The commands that tell of a feasible plan by its waypoints, whether it goes one way or to and
//! fro: its drawing, and the figures of each crane, which make up all ticks. Else the first rule
//! that it breaks; all files as they were (`draw_picture`, `report_figures`).
#![tactic(auto)]

mod answer;
mod command;
mod motion;
mod report;

pub use answer::{Motion, Planned, Print, Printed};
pub use command::print_plan;
