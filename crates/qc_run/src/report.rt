//! Reports, and the status of a run once its report is written.
ghost use Rattle.std.specs.Prelude.{◌≡◌, ◌≤◌, length};
ghost use Rattle.qc_run.specs.Ended.{cause_of};
ghost use Rattle.qc_run.specs.Reports.{Prints, PrintsPart, Reports};
ghost use Rattle.qc_run.specs.Texts.{direction_text, stop_status, stop_text};

use crate::ended::{Ended, cause_of};
use crate::refusal::{Stop, stop_status, stop_text};
use crate::status::Status;
use qc_io::{Sink, WriteFault, put_all};
use qc_model::Direction;

/// Prints the text, which is the report of a run that ends with this status. Where the sink fails on the way
/// the status is `WriteFault`.
pub fn report_text<K: Sink>(status: Status, text: &[u8], out: &mut K) -> Ended
    ensures { Reports (Prints text.now) (PrintsPart text.now) status (K.view out.old) (K.view out.new) result.status }
{
    match put_all(out, text) {
        Ok(()) => Ended::of(status),
        Err(WriteFault) => Ended::of(Status::WriteFault),
    }
}

/// Prints why a command stopped, and hands its refusal on.
pub fn report_stop<K: Sink>(why: Stop, out: &mut K) -> Ended
    ensures report { Reports (Prints (stop_text why)) (PrintsPart (stop_text why)) (stop_status why)
        (K.view out.old) (K.view out.new) result.status }
    ensures cause { result.cause ≡ cause_of why }
{
    let status = report_text(stop_status(why), stop_text(why).as_bytes(), out).status;
    Ended {
        status,
        cause: cause_of(why),
    }
}

/// The word for a direction.
pub fn direction_text(direction: Direction) -> &'static [u8]
    ensures text { result.now ≡ direction_text direction }
    ensures short { length result.now ≤ 4 }
{
    match direction {
        Direction::Up => b"up",
        Direction::Down => b"down",
    }
}
