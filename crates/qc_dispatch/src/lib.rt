//! A dispatcher: it follows the order of a plan while tasks take as long as they do; and logs of
//! what it is told.
//!
//! Each start comes at the first moment at which the rules allow it, over every list of calls
//! (`Dispatch::open`, `advance`, `done`). `follow_log` gives what comes of a log, or the fault of
//! its first faulty line, and what each task that runs was last reported to need still; `waits_for` what an idle
//! crane waits for. Once all tasks have ended the
//! work was a feasible schedule of the lengths that they took (`work_is_feasible`). Which task of a plan
//! leads which, and by how long, `lead_marks` and `gap` tell.
#![tactic(auto)]

mod dispatch;
mod event;
mod fault;
mod follow;
mod grant;
mod laws;
mod leader;
mod next;
mod order;
mod report;
mod stage;
mod waits;

pub use dispatch::Dispatch;
pub use event::Event;
pub use fault::{DispatchError, DispatchFault, DispatchKind};
pub use follow::{Followed, Remaining, follow_log};
pub use grant::{Grant, NotRunning};
pub use order::{cell, gap, lead_marks};
pub use report::Report;
pub use stage::Stage;
