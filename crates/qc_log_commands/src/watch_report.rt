//! The report of a log that was judged.
ghost use Rattle.std.specs.Prelude.{◌≡◌};
ghost use Rattle.qc_run.specs.Reports.{Prints, PrintsPart, Reports};
ghost use Rattle.qc_log_commands.specs.WatchTexts.{near_text, safe_text, watching_status, watching_text};

use crate::watching::{BreachReport, Watching};
use qc_io::Sink;
use qc_num::Text;
use qc_run::{Ended, Status, report_text};

/// What is told of reports at which all cranes kept their margin.
fn safe_text(count: u32) -> Text<64>
    ensures { result ≡ safe_text count }
{
    let mut text = Text::of(b"Safe ");
    text.push_number(u64::from(count));
    text.push(b"\n");
    text
}

/// What is told of two cranes that were too near.
fn near_text(told: &BreachReport) -> Text<64>
    ensures { result ≡ near_text told.now }
{
    let mut text = Text::of(b"Breach ");
    text.push_number(told.at);
    text.push(b" ");
    text.push(told.first.as_bytes());
    text.push(b" ");
    text.push(told.second.as_bytes());
    text.push(b"\n");
    text
}

/// Prints what a log came to.
pub(crate) fn report<K: Sink>(answer: Watching, out: &mut K) -> Ended
    ensures { Reports (Prints (watching_text answer)) (PrintsPart (watching_text answer)) (watching_status answer)
        (K.view out.old) (K.view out.new) result.status }
{
    match answer {
        Watching::Safe(count) => report_text(Status::Done, safe_text(count).as_bytes(), out),
        Watching::Breach(told) => report_text(Status::Breach, near_text(&told).as_bytes(), out),
    }
}
