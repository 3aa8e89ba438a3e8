//! The report of a ship and a list that were made, planned and checked.
ghost use Rattle.std.specs.Prelude.{◌≡◌, ◌≤◌, length};
ghost use Rattle.qc_trial.specs.Texts.{bound_word, end_word, found_text, made_text, size_text, verdict_word};

use crate::made::{Made, Verdict};
use qc_num::{Bound, Text, Tick};
use qc_search::kind_word;

fn verdict_word(verdict: Verdict) -> &'static [u8]
    ensures text { result.now ≡ verdict_word verdict }
    ensures short { length result.now ≤ 10 }
{
    match verdict {
        Verdict::Optimal => b"Optimal",
        Verdict::Weaker => b"Weaker",
        Verdict::Bound => b"Bound",
        Verdict::Infeasible => b"Infeasible",
        Verdict::Broken => b"Broken",
    }
}

fn end_word(end: Option<Tick>) -> Text<32>
    ensures text { result ≡ end_word end }
    ensures short { length result ≤ 20 }
{
    match end {
        Some(end) => {
            let mut text = Text::new();
            text.push_number(end);
            text
        }
        None => Text::of(b"none"),
    }
}

fn bound_word(bound: Bound) -> Text<32>
    ensures text { result ≡ bound_word bound }
    ensures short { length result ≤ 20 }
{
    match bound {
        Bound::Least(tick) => end_word(Some(tick)),
        Bound::Never => end_word(None),
    }
}

/// The lines of what was made.
fn size_text(told: &Made) -> Text<160>
    ensures { result ≡ size_text told.now }
{
    let mut text = Text::of(b"make ");
    text.push_number(u64::from(told.number));
    text.push(b" ");
    text.push_number(u64::from(told.hatches));
    text.push(b" ");
    text.push_number(u64::from(told.cranes));
    text.push(b"\nrows ");
    text.push_number(told.rows);
    text.push(b"\ntasks ");
    text.push_number(told.tasks);
    text.push(b"\nwork ");
    text.push_number(told.work);
    text.push(b"\n");
    text
}

/// The lines of what the search and the check came to.
fn found_text(told: &Made) -> Text<96>
    ensures { result ≡ found_text told.now }
{
    let mut text = Text::of(b"plan ");
    text.push(kind_word(told.kind));
    text.push(b"\nend ");
    text.push(end_word(told.end).as_bytes());
    text.push(b"\nbound ");
    text.push(bound_word(told.bound).as_bytes());
    text.push(b"\ncheck ");
    text.push(verdict_word(told.verdict));
    text.push(b"\n");
    text
}

/// The summary.
pub(crate) fn made_text(told: &Made) -> Text<256>
    ensures { result ≡ made_text told.now }
{
    let mut text = Text::of(size_text(told).as_bytes());
    text.push(found_text(told).as_bytes());
    text
}
