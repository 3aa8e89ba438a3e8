//! The reports of a plan that was judged.
ghost use Rattle.std.specs.Prelude.{◌≡◌, ◌≤◌, nat_le, length};
ghost use Rattle.qc_run.specs.Reports.{Prints, PrintsPart, Reports};
ghost use Rattle.qc_judge_commands.specs.Texts.{compared_status, compared_text, compared_word, judged_status, judged_text};

use crate::answer::{Compared, Judged};
use qc_io::Sink;
use qc_num::{Bound, Text};
use qc_run::{Ended, Status, report_broken, report_text};

/// Whether no schedule that cranes may follow ends before the plan.
fn is_best(told: Compared) -> bool
    ensures { result ≡ nat_le told.end told.bound }
{
    Bound::Least(told.bound).reaches(told.end)
}

fn compared_status(told: Compared) -> Status
    ensures { result ≡ compared_status told }
{
    if is_best(told) {
        Status::Optimal
    } else {
        Status::Weaker
    }
}

fn compared_word(told: Compared) -> &'static [u8]
    ensures text { result.now ≡ compared_word told }
    ensures short { length result.now ≤ 7 }
{
    if is_best(told) { b"Optimal" } else { b"Weaker" }
}

/// What is told of a plan that holds.
fn compared_text(told: Compared) -> Text<64>
    ensures { result ≡ compared_text told }
{
    let mut text = Text::new();
    text.push(compared_word(told));
    text.push(b"\nend ");
    text.push_number(told.end);
    text.push(b"\nbound ");
    text.push_number(told.bound);
    text.push(b"\n");
    text
}

/// Prints what a check of a plan came to.
pub(crate) fn report<K: Sink>(answer: Judged, out: &mut K) -> Ended
    ensures { Reports (Prints (judged_text answer)) (PrintsPart (judged_text answer)) (judged_status answer)
        (K.view out.old) (K.view out.new) result.status }
{
    match answer {
        Judged::Broken(told) => report_broken(told, out),
        Judged::Compared(told) => report_text(
            compared_status(told),
            compared_text(told).as_bytes(),
            out,
        ),
    }
}
