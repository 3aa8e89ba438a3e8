//! What is told where the rest of a plan can't be planned.
ghost use Rattle.std.specs.Prelude.{◌≡◌, ◌≤◌, Some, length};
ghost use Rattle.qc_run.specs.declared.ended.Cause.TheVariants as cause;
ghost use Rattle.qc_run.specs.declared.status.Status.TheVariants as status;
ghost use Rattle.qc_run.specs.NoRest.{no_rest_kind_text, no_rest_text};
ghost use Rattle.qc_run.specs.Reports.{Prints, PrintsPart, Reports};

use crate::ended::{Cause, Ended};
use crate::report::report_text;
use crate::status::Status;
use qc_io::Sink;
use qc_model::TaskText;
use qc_num::Text;

/// Why the rest of a plan can't be planned: the first of these that applies.
#[derive(Clone, Copy, PartialEq, Eq)]
pub enum NoRestKind {
    /// A task runs and needs no tick more: that it is done isn't reported yet, or what it still needs.
    Over,
    /// A crane isn't ready within the ticks that a ship file may say.
    Ready,
    /// A crane would stand where no ship file may put it.
    Bay,
}

impl NoRestKind {
    /// The kind as reports print it.
    pub fn text(self) -> &'static str
        ensures text { result.now ≡ no_rest_kind_text self }
        ensures short { length result.now ≤ 5 }
    {
        match self {
            NoRestKind::Over => "Over",
            NoRestKind::Ready => "Ready",
            NoRestKind::Bay => "Bay",
        }
    }
}

/// What is told where the rest of a plan can't be planned.
#[derive(Drop)]
pub struct NoRest {
    pub kind: NoRestKind,
    /// The name of the lowest task that is over, or of the lowest crane.
    pub name: Text<12>,
    /// The names of all tasks that are over, where there was memory for them.
    pub over: Vec<TaskText>,
}

/// What is printed where the rest of a plan can't be planned.
fn no_rest_text(told: &NoRest) -> Text<64>
    ensures { result ≡ no_rest_text told.now }
{
    let mut text = Text::of(b"NoRest ");
    text.push(told.kind.text().as_bytes());
    text.push(b" ");
    text.push(told.name.as_bytes());
    text.push(b"\n");
    text
}

/// Prints why the rest of a plan can't be planned, and hands it on.
pub fn report_no_rest<K: Sink>(told: NoRest, out: &mut K) -> Ended
    ensures report { Reports (Prints (no_rest_text told)) (PrintsPart (no_rest_text told)) status.NoRest
        (K.view out.old) (K.view out.new) result.status }
    ensures cause { result.cause ≡ Some (cause.NoRest told) }
{
    let status = report_text(Status::NoRest, no_rest_text(&told).as_bytes(), out).status;
    Ended {
        status,
        cause: Some(Cause::NoRest(told)),
    }
}
