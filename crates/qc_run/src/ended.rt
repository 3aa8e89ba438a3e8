//! What a run came to: its status, and what is told of it beside the report.
ghost use Rattle.std.specs.Prelude.{◌≡◌, None};
ghost use Rattle.qc_run.specs.Ended.{cause_of};

use crate::broken::Broken;
use crate::no_rest::NoRest;
use crate::refusal::{Refusal, Stop};
use crate::status::Status;
use qc_model::{Name, TaskText};
use qc_num::Tick;

/// What an idle crane's next task waits for.
#[derive(Drop)]
pub enum Until {
    /// It may begin at this tick.
    At(Tick),
    /// Another task must be over first, of this crane; and whether it runs.
    Over {
        task: TaskText,
        crane: Name,
        runs: bool,
    },
}

/// A crane that stands idle and has tasks left, which one of them is next, and what that waits for.
#[derive(Drop)]
pub struct Wait {
    pub crane: Name,
    pub task: TaskText,
    pub until: Until,
}

/// Why a run ended as it did, or what goes on behind it.
#[derive(Drop)]
pub enum Cause {
    /// The command wasn't served.
    Refused(Refusal),
    /// The plan breaks a rule.
    Broken(Broken),
    /// What cranes wait for where the log of a plan that is followed ends.
    Waits(Vec<Wait>),
    /// The rest of a plan can't be planned.
    NoRest(NoRest),
}

/// What a run came to.
pub struct Ended {
    pub status: Status,
    /// What there is to tell beside the report; none where the status tells all.
    pub cause: Option<Cause>,
}

/// By hand, so that it is let go by one call wherever it is held, and not piece by piece.
impl Drop for Ended {
    fn drop(self) {
        let Ended {
            status: _,
            cause: _,
        } = self;
    }
}

impl Ended {
    /// The status tells all.
    pub fn of(status: Status) -> Ended
        ensures { result ≡ record { status = status; cause = None } }
    {
        Ended {
            status,
            cause: None,
        }
    }
}

/// What is told of a stop beside its report.
pub(crate) fn cause_of(why: Stop) -> Option<Cause>
    ensures { result ≡ cause_of why }
{
    match why {
        Stop::Refused(why) => Some(Cause::Refused(why)),
        Stop::OutOfMemory => None,
    }
}
