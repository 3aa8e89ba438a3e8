//! Which tasks may not run at the same time.
ghost use Rattle.std.specs.Prelude.{◌≡◌, ◌≤◌, ◌<◌, ◌++◌, length, IfOk, OnOk};
ghost use Rattle.qc_model.specs.Numbers.{most_tasks};
ghost use Rattle.qc_tasks.specs.InstanceOf.{apart_of, is_apart, names_both, pairs_from};

use qc_model::{Pair, Task};
use qc_num::OutOfMemory;
use qc_ship::HatchPair;
use std::alloc::Global;

/// Whether an entry names the hatches of both tasks, the lower one that of the first.
fn names_both(first: &Task, second: &Task, entry: &HatchPair) -> bool
    ensures { result ≡ names_both first.now second.now entry.now }
{
    first.hatch == entry.a.min(entry.b) && second.hatch == entry.a.max(entry.b)
}

/// Whether an entry names the hatches of both tasks.
fn is_apart(entries: &[HatchPair], tasks: &[Task], first: usize, second: usize) -> bool
    requires first { first < length tasks.now }
    requires second { second < length tasks.now }
    ensures { result ≡ is_apart entries.now tasks.now first second }
{
    let (first, second) = (&tasks[first], &tasks[second]);
    entries.iter().any(|entry| names_both(first, second, entry))
}

/// Adds the pairs of a task and those apart from it that have a higher number.
fn push_apart(
    pairs: &mut Vec<Pair>,
    entries: &[HatchPair],
    tasks: &[Task],
    first: usize,
) -> Result<(), OutOfMemory>
    requires count { length tasks.now ≤ most_tasks }
    requires first { first < length tasks.now }
    ensures { OnOk result (pairs.new.items ≡ pairs.old.items
        ++ pairs_from (length tasks.now) (is_apart entries.now tasks.now) first) }
{
    for second in 0..tasks.len() {
        if is_apart(entries, tasks, first, second) {
            pairs.push(Pair {
                first: first as u16,
                second: second as u16,
            })?;
        }
    }
    Ok(())
}

/// The pairs that may not run at the same time, the lower number first.
pub(crate) fn pairs_apart(
    alloc: Global,
    entries: &[HatchPair],
    tasks: &[Task],
) -> Result<Vec<Pair>, OutOfMemory>
    requires { length tasks.now ≤ most_tasks }
    ensures { IfOk result (λ v. v.items ≡ apart_of entries.now tasks.now) }
{
    let mut pairs = Vec::new(alloc);
    for first in 0..tasks.len() {
        push_apart(&mut pairs, entries, tasks, first)?;
    }
    Ok(pairs)
}
