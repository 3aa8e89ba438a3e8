//! What every command shares: the files that it reads and the steps over them, why it stops, the
//! status that it ends with, and how its report goes out.
//!
//! A step comes to what is due of the bytes, or stops for a refusal that is due, with no call
//! failed, or for its own cause (`read_instance`, `read_job`, `read_own_job`, `read_watched`, `read_bay_plans`,
//! `read_past_file`).
//! `broken_by` says whether cranes may follow a plan. A report goes out whole with its status, or
//! the sink failed and got a front part (`report_text`, `report_stop`); a refusal, and a broken rule, are handed on
//! for the second voice (`Ended`).
#![tactic(auto)]

mod bay_plans;
mod broken;
mod ended;
mod faults;
mod inputs;
mod no_rest;
mod past;
mod reading;
mod refusal;
mod report;
mod rules;
mod status;
mod watched;

pub use bay_plans::{BayPlans, read_bay_plans};
pub use broken::{Broken, broken_of, report_broken};
pub use ended::{Cause, Ended, Until, Wait};
pub use inputs::{Input, Inputs, MovesAsked, OddsAsked, PlanAsked, RestAsked};
pub use no_rest::{NoRest, NoRestKind, report_no_rest};
pub use past::read_past_file;
pub use reading::{
    Job, OwnJob, instance_of, read_input, read_instance, read_job, read_moves, read_own_job,
    read_schedule, read_ship_file,
};
pub use refusal::{LogFault, Refusal, Stop};
pub use report::{direction_text, report_stop, report_text};
pub use rules::{broken_by, broken_rule};
pub use status::Status;
pub use watched::{Watched, read_watched};
