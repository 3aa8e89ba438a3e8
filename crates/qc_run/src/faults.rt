//! The lines of faults in a ship file, in a stowage list, in a plan's file, in a tree's file, in a log, in a bay plan
//! and in a file of past tasks.
ghost use Rattle.std.specs.Prelude.{◌≡◌, ◌≤◌, length};
ghost use Rattle.qc_run.specs.Texts.{bad_bay_plan_text, which_text, bad_log_text, bad_past_text, bad_ship_text, fault_text, place_line, bad_plan_text, bad_stow_text, bad_tree_text};

use crate::refusal::LogFault;
use qc_bayplan::{BayPlanFault, Which};
use qc_gantt::PlanFault;
use qc_num::Text;
use qc_past::PastFault;
use qc_ship::{ShipFault, ShipKind};
use qc_stow::StowFault;
use qc_tree::TreeFault;

/// The line of a fault of the ship file with its place: the key and the number of its element.
fn place_line(fault: ShipFault) -> Text<512>
    ensures { result ≡ place_line fault.kind fault }
{
    let mut line = Text::of(b"BadShip ");
    line.push(fault.kind.text().as_bytes());
    line.push(b" ");
    line.push(fault.key.text().as_bytes());
    line.push(b" ");
    line.push_number(u64::from(fault.number));
    line.push(b"\n");
    line
}

/// The line of a fault in the ship file; a text that is no TOML has no place.
pub(crate) fn ship_fault_line(fault: ShipFault) -> Text<512>
    ensures { result ≡ bad_ship_text fault.kind fault }
{
    match fault.kind {
        ShipKind::NotToml => Text::of(b"BadShip NotToml\n"),
        _ => place_line(fault),
    }
}

/// The line of a fault with its place: what is bad, how, and the number of its record or line.
fn fault_line(title: &[u8], kind: &str, number: u32) -> Text<512>
    requires title { length title.now ≤ 8 }
    requires kind { length kind.now ≤ 14 }
    ensures { result ≡ fault_text title.now kind.now number }
{
    let mut line = Text::of(title);
    line.push(kind.as_bytes());
    line.push(b" ");
    line.push_number(u64::from(number));
    line.push(b"\n");
    line
}

/// The line of a fault in the stowage list.
pub(crate) fn stow_fault_line(fault: StowFault) -> Text<512>
    ensures { result ≡ bad_stow_text fault }
{
    fault_line(b"BadStow ", fault.kind.text(), fault.number)
}

/// The line of a fault in the plan's file.
pub(crate) fn plan_fault_line(fault: PlanFault) -> Text<512>
    ensures { result ≡ bad_plan_text fault }
{
    fault_line(b"BadPlan ", fault.kind.text(), fault.number)
}

/// The line of a fault in a tree's file.
pub(crate) fn tree_fault_line(fault: TreeFault) -> Text<512>
    ensures { result ≡ bad_tree_text fault }
{
    fault_line(b"BadTree ", fault.kind.text(), fault.line)
}

/// The line of a fault in a log.
pub(crate) fn log_fault_line(fault: LogFault) -> Text<512>
    ensures { result ≡ bad_log_text fault }
{
    match fault {
        LogFault::Watch(fault) => fault_line(b"BadLog ", fault.kind.text(), fault.line),
        LogFault::Dispatch(fault) => fault_line(b"BadLog ", fault.kind.text(), fault.line),
    }
}

/// The line of a fault in a file of past tasks.
pub(crate) fn past_fault_line(fault: PastFault) -> Text<512>
    ensures { result ≡ bad_past_text fault }
{
    fault_line(b"BadPast ", fault.kind.text(), fault.number)
}

/// The word for a bay plan in a report.
fn which_text(which: Which) -> &'static str
    ensures text { result.now ≡ which_text which }
    ensures short { length result.now ≤ 9 }
{
    match which {
        Which::Arrival => "arrival",
        Which::Departure => "departure",
    }
}

/// The line of a fault in a bay plan.
pub(crate) fn bay_plan_fault_line(which: Which, fault: BayPlanFault) -> Text<512>
    ensures { result ≡ bad_bay_plan_text which fault }
{
    let mut line = Text::of(b"BadBayPlan ");
    line.push(fault.kind.text().as_bytes());
    line.push(b" ");
    line.push(which_text(which).as_bytes());
    line.push(b" ");
    line.push_number(u64::from(fault.number));
    line.push(b"\n");
    line
}
