//! Why a command isn't served, and what is printed then.
ghost use Rattle.std.specs.Prelude.{◌≡◌, ◌++◌, codes};
ghost use Rattle.qc_run.specs.Texts.{input_text, line, refusal_status, refusal_text, stop_status, stop_text};

use crate::faults::{
    bay_plan_fault_line, log_fault_line, past_fault_line, plan_fault_line, ship_fault_line,
    stow_fault_line, tree_fault_line,
};
use crate::inputs::Input;
use crate::status::Status;
use qc_bayplan::{BayPlanFault, Which};
use qc_dispatch::DispatchFault;
use qc_gantt::PlanFault;
use qc_num::{OutOfMemory, Text};
use qc_past::PastFault;
use qc_ship::ShipFault;
use qc_stow::StowFault;
use qc_tree::TreeFault;
use qc_watch::WatchFault;

/// The first fault of a log, by the command that reads it.
#[derive(Clone, Copy, Debug, PartialEq, Eq)]
pub enum LogFault {
    Watch(WatchFault),
    Dispatch(DispatchFault),
}

/// Why a command isn't served.
#[derive(Clone, Copy)]
pub enum Refusal {
    /// The words are no command.
    Usage,
    /// The file isn't there or couldn't be read.
    ReadFault(Input),
    /// The file has more than 8,388,608 bytes.
    TooLarge(Input),
    BadShip(ShipFault),
    BadStow(StowFault),
    BadPlan(PlanFault),
    BadTree(TreeFault),
    BadLog(LogFault),
    BadBayPlan(Which, BayPlanFault),
    BadPast(PastFault),
}

/// Why a command was given up before anything was written.
#[derive(Clone, Copy)]
pub enum Stop {
    Refused(Refusal),
    OutOfMemory,
}

impl From<OutOfMemory> for Stop {
    ghost use Rattle.qc_run.specs.declared.refusal.Stop.TheVariants as stop;

    ghost from_gives = { λ _ error. error ≡ stop.OutOfMemory };

    fn from(_refused: OutOfMemory) -> Stop {
        Stop::OutOfMemory
    }
}

const USAGE: &[u8] = b"Usage
qc plan SHIP STOW PLAN TREE [--nodes N] [--from OWN]
qc check SHIP STOW PLAN TREE
qc tasks SHIP STOW
qc show SHIP STOW PLAN
qc make NUMBER HATCHES CRANES
qc free SHIP STOW PLAN TREE [--nodes N] [--from OWN]
qc freecheck SHIP STOW PLAN TREE
qc sheet SHIP STOW PLAN
qc dispatch SHIP STOW PLAN LOG
qc watch SHIP LOG
qc picture SHIP STOW PLAN
qc report SHIP STOW PLAN
qc moves ARRIVAL DEPARTURE STOW
qc odds SHIP STOW PLAN PAST [--runs N] [--seed S] [--by T]
qc rest SHIP STOW PLAN LOG NEWSHIP NEWSTOW OWN
";

/// The line of a file that couldn't be read.
fn unread_line(file: Input) -> Text<512>
    ensures { result ≡ codes "ReadFault " ++ line (input_text file) }
{
    match file {
        Input::Ship => Text::of(b"ReadFault ship\n"),
        Input::Stow => Text::of(b"ReadFault stow\n"),
        Input::Plan => Text::of(b"ReadFault plan\n"),
        Input::Tree => Text::of(b"ReadFault tree\n"),
        Input::Own => Text::of(b"ReadFault own\n"),
        Input::Log => Text::of(b"ReadFault log\n"),
        Input::Arrival => Text::of(b"ReadFault arrival\n"),
        Input::Departure => Text::of(b"ReadFault departure\n"),
        Input::Past => Text::of(b"ReadFault past\n"),
    }
}

/// The line of a file that is too large.
fn large_line(file: Input) -> Text<512>
    ensures { result ≡ codes "TooLarge " ++ line (input_text file) }
{
    match file {
        Input::Ship => Text::of(b"TooLarge ship\n"),
        Input::Stow => Text::of(b"TooLarge stow\n"),
        Input::Plan => Text::of(b"TooLarge plan\n"),
        Input::Tree => Text::of(b"TooLarge tree\n"),
        Input::Own => Text::of(b"TooLarge own\n"),
        Input::Log => Text::of(b"TooLarge log\n"),
        Input::Arrival => Text::of(b"TooLarge arrival\n"),
        Input::Departure => Text::of(b"TooLarge departure\n"),
        Input::Past => Text::of(b"TooLarge past\n"),
    }
}

/// What is printed for a refusal.
fn refusal_text(why: Refusal) -> Text<512>
    ensures { result ≡ refusal_text why }
{
    match why {
        Refusal::Usage => Text::of(USAGE),
        Refusal::ReadFault(file) => unread_line(file),
        Refusal::TooLarge(file) => large_line(file),
        Refusal::BadShip(fault) => ship_fault_line(fault),
        Refusal::BadStow(fault) => stow_fault_line(fault),
        Refusal::BadPlan(fault) => plan_fault_line(fault),
        Refusal::BadTree(fault) => tree_fault_line(fault),
        Refusal::BadLog(fault) => log_fault_line(fault),
        Refusal::BadBayPlan(which, fault) => bay_plan_fault_line(which, fault),
        Refusal::BadPast(fault) => past_fault_line(fault),
    }
}

fn refusal_status(why: Refusal) -> Status
    ensures { result ≡ refusal_status why }
{
    match why {
        Refusal::Usage => Status::Usage,
        Refusal::ReadFault(_) => Status::ReadFault,
        Refusal::TooLarge(_) => Status::TooLarge,
        Refusal::BadShip(_) => Status::BadShip,
        Refusal::BadStow(_) => Status::BadStow,
        Refusal::BadPlan(_) => Status::BadPlan,
        Refusal::BadTree(_) => Status::BadTree,
        Refusal::BadLog(_) => Status::BadLog,
        Refusal::BadBayPlan(_, _) => Status::BadBayPlan,
        Refusal::BadPast(_) => Status::BadPast,
    }
}

/// What is printed where a command stops.
pub(crate) fn stop_text(why: Stop) -> Text<512>
    ensures { result ≡ stop_text why }
{
    match why {
        Stop::Refused(why) => refusal_text(why),
        Stop::OutOfMemory => Text::of(b"OutOfMemory\n"),
    }
}

/// The status of a command that stops.
pub(crate) fn stop_status(why: Stop) -> Status
    ensures { result ≡ stop_status why }
{
    match why {
        Stop::Refused(why) => refusal_status(why),
        Stop::OutOfMemory => Status::OutOfMemory,
    }
}
