//! Whether the order of tasks has a ring.
ghost use Rattle.std.specs.Prelude.{◌≡◌, ◌≤◌, ◌<◌, length, true, false};
ghost use Rattle.qc_model.specs.Numbers.{most_tasks};
ghost use Rattle.qc_tasks.specs.Marks.{AreAll, AreBelow, AreReached, is_new, unmarked};
ghost use Rattle.qc_tasks.specs.Rings.{has_ring, leads};

use qc_model::{MOST_TASKS, Pair};

/// Whether a pair leads on, from the start or from a marked task, to one that isn't marked.
fn is_new(marks: &[bool], from: usize, pair: &Pair) -> bool
    requires first { pair.now.first < length marks.now }
    requires second { pair.now.second < length marks.now }
    ensures { result ≡ is_new marks.now from pair.now }
{
    let (first, second) = (usize::from(pair.first), usize::from(pair.second));
    (first == from || marks[first]) && !marks[second]
}

/// Marks each task to which a pair leads on; whether it marked one.
fn spread(marks: &mut [bool], pairs: &[Pair], from: usize) -> bool
    requires { AreBelow (length marks.old) pairs.now }
    ensures reached { AreReached pairs.now from marks.old → AreReached pairs.now from marks.new }
    ensures all { result ≡ false → AreAll pairs.now from marks.new }
    ensures fewer { result ≡ true → unmarked marks.new < unmarked marks.old }
{
    let mut more = false;
    for pair in pairs {
        if is_new(marks, from, pair) {
            marks[usize::from(pair.second)] = true;
            more = true;
        }
    }
    more
}

/// Whether one comes from a task back to it by pairs.
fn comes_back(pairs: &[Pair], task: usize) -> bool
    requires pairs { AreBelow most_tasks pairs.now }
    requires task { task < most_tasks }
    ensures { result ≡ leads pairs.now task task }
{
    let mut marks = [false; MOST_TASKS as usize];
    while spread(&mut marks, pairs, task) {}
    marks[task]
}

/// Whether one of so many tasks would have to end before it starts.
pub(crate) fn has_ring(pairs: &[Pair], count: usize) -> bool
    requires pairs { AreBelow most_tasks pairs.now }
    requires count { count ≤ most_tasks }
    ensures { result ≡ has_ring count pairs.now }
{
    for task in 0..count {
        if comes_back(pairs, task) {
            return true;
        }
    }
    false
}
