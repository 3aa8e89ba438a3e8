//! The report of a list of moves.
ghost use Rattle.std.specs.Prelude.{◌≡◌};
ghost use Rattle.qc_run.specs.Reports.{Prints, PrintsPart, Reports};
ghost use Rattle.qc_moves_command.specs.Figures.{figures_text, moves_status, moves_text};

use crate::answer::{Figures, MovesAnswer};
use qc_io::Sink;
use qc_num::Text;
use qc_run::{Ended, Status, report_text};

/// What is printed for a list of moves.
fn figures_text(told: &Figures) -> Text<512>
    ensures { result ≡ figures_text told.now }
{
    let mut text = Text::of(b"moves ");
    text.push_number(told.moves);
    text.push(b"\ndischarged ");
    text.push_number(told.discharged);
    text.push(b"\nloaded ");
    text.push_number(told.loaded);
    text.push(b"\nrestowed ");
    text.push_number(told.restowed);
    text.push(b"\nlifted ");
    text.push_number(told.lifted);
    text.push(b"\nstaying ");
    text.push_number(told.staying);
    text.push(b"\nunnamed ");
    text.push_number(told.unnamed);
    text.push(b"\nbundled ");
    text.push_number(told.bundled);
    text.push(b"\nother ");
    text.push_number(told.other);
    text.push(b"\n");
    text
}

/// Prints what a list of moves came to.
pub(crate) fn report<K: Sink>(answer: MovesAnswer, out: &mut K) -> Ended
    ensures { Reports (Prints (moves_text answer)) (PrintsPart (moves_text answer)) (moves_status answer)
        (K.view out.old) (K.view out.new) result.status }
{
    match answer {
        MovesAnswer::WriteFault => report_text(Status::WriteFault, b"WriteFault\n", out),
        MovesAnswer::Listed(told) => report_text(Status::Done, figures_text(&told).as_bytes(), out),
    }
}
