//! The runs of a case, and what they come to.

use crate::case::{Case, Outcome, Store};
use crate::difference::difference;
use crate::run::{Ran, Trial, run};
use qc_num::OutOfMemory;
use std::alloc::Global;

/// A sweep has fewer runs than this.
const MOST_RUNS: u64 = 10_000;

/// What a case came to: nothing where it held, else what came in place of what was wanted.
type Verdict = Result<Option<String>, OutOfMemory>;

fn failed(alloc: Global, why: &str) -> Verdict {
    Ok(Some(String::from_str(alloc, why)?))
}

/// The numbers of the outcomes to which the run came.
fn met(alloc: Global, case: &Case, trial: Trial<'_>, ran: &Ran) -> Result<Vec<usize>, OutOfMemory> {
    let mut met = Vec::new(alloc);
    for (number, outcome) in case.outcomes.iter().enumerate() {
        if difference(alloc, case, trial, outcome, ran)?.is_empty() {
            met.push(number)?;
        }
    }
    Ok(met)
}

/// The outcome with which a run is compared that came to none: of those from this number on the first of its
/// status, else the first.
fn nearest<'a>(outcomes: &'a [Outcome], from: usize, ran: &Ran) -> Option<&'a Outcome> {
    let mut left = outcomes.iter().skip(from);
    let same = left.find(|outcome| outcome.status == ran.status);
    same.or(outcomes.get(from))
}

/// The verdict on a run that came to no outcome.
fn missed(alloc: Global, case: &Case, trial: Trial<'_>, from: usize, ran: &Ran) -> Verdict {
    let Some(outcome) = nearest(case.outcomes.as_slice(), from, ran) else {
        return failed(alloc, "no outcome");
    };
    let what = difference(alloc, case, trial, outcome, ran)?;
    Ok(Some(match trial {
        Trial::Plain => what,
        Trial::Failing(_, call) => format!(in alloc; "call {call} failing: {what}")?,
        Trial::Cut(_, length) => format!(in alloc; "cut to {length} bytes: {what}")?,
    }))
}

/// Runs a case without a sweep and a cut.
fn play_once(alloc: Global, case: &Case) -> Verdict {
    let ran = run(alloc, case, Trial::Plain)?;
    if met(alloc, case, Trial::Plain, &ran)?.is_empty() {
        return missed(alloc, case, Trial::Plain, 0, &ran);
    }
    Ok(None)
}

/// The verdict on a run of a sweep that came to an outcome whose turn it wasn't.
fn untimely(alloc: Global, call: u64, ran: &Ran) -> Verdict {
    let status = ran.status;
    let what = format!(in alloc;
        "call {call} failing: status {status} in place of the outcome whose turn it is"
    )?;
    Ok(Some(what))
}

/// How many outcomes may have come up to a run that met a failure and came to those of `met`: as many as up
/// to the one before, or one more. The last outcome comes in the run without a failure.
fn next_reached(
    alloc: Global,
    reached: &[usize],
    met: &[usize],
    last: usize,
) -> Result<Vec<usize>, OutOfMemory> {
    let mut next = Vec::new(alloc);
    for number in met {
        let count = number.saturating_add(1);
        if *number < last && (reached.contains(&count) || reached.contains(number)) {
            next.push(count)?;
        }
    }
    Ok(next)
}

/// Runs a case in which the calls of a store fail one after the other, up to the first run that meets no
/// failure.
fn play_sweep(alloc: Global, case: &Case, store: Store) -> Verdict {
    let last = case.outcomes.len().saturating_sub(1);
    let mut reached = Vec::from_slice(alloc, &[0])?;
    for call in 1..MOST_RUNS {
        let trial = Trial::Failing(store, call);
        let ran = run(alloc, case, trial)?;
        let met = met(alloc, case, trial, &ran)?;
        if met.is_empty() {
            let turn = reached.last().copied().unwrap_or(0);
            return missed(alloc, case, trial, turn.min(last), &ran);
        }
        if ran.calls(store) < call {
            let is_last = met.contains(&last) && reached.contains(&last);
            return if is_last {
                Ok(None)
            } else {
                untimely(alloc, call, &ran)
            };
        }
        reached = next_reached(alloc, reached.as_slice(), met.as_slice(), last)?;
        if reached.is_empty() {
            return untimely(alloc, call, &ran);
        }
    }
    failed(alloc, "too many calls")
}

/// How many bytes the given file has.
fn length_of(case: &Case, name: &str) -> Option<usize> {
    let file = case.files.iter().find(|file| file.name.as_str() == name)?;
    Some(file.bytes.len())
}

/// Runs a case in which a file is cut at every byte.
fn play_cut(alloc: Global, case: &Case, name: &str) -> Verdict {
    let Some(count) = length_of(case, name) else {
        return failed(alloc, "no file to cut");
    };
    let mut came = Vec::new(alloc);
    for length in 0..count {
        let trial = Trial::Cut(name, length);
        let ran = run(alloc, case, trial)?;
        let met = met(alloc, case, trial, &ran)?;
        if met.is_empty() {
            return missed(alloc, case, trial, 0, &ran);
        }
        came.extend_from_slice(met.as_slice())?;
    }
    if (0..case.outcomes.len()).all(|number| came.contains(&number)) {
        return Ok(None);
    }
    failed(alloc, "an outcome that came in no run")
}

/// Runs the case.
pub fn play(alloc: Global, case: &Case) -> Verdict {
    match (&case.cut, case.sweep) {
        (Some(name), _) => play_cut(alloc, case, name.as_str()),
        (None, Some(store)) => play_sweep(alloc, case, store),
        (None, None) => play_once(alloc, case),
    }
}
