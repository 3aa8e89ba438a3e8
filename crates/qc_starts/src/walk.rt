//! The way back from a task by what raised each, to a task that nothing raised or around a ring. A ring is rare, so
//! only its walk looks at each task for whether it was met before.

ghost use Rattle.std.specs.Prelude.{◌≡◌, ◌*◌, ◌<◌, ◌≤◌, ◌∷◌, length};
ghost use Rattle.qc_model.specs.declared.limits.TheConstants.{MOST_TASKS};
ghost use Rattle.qc_starts.specs.Found.{why_in};
ghost use Rattle.qc_starts.specs.Ways.{AreBacked, IsBackTo, IsEndless, IsPlace, IsRing, IsRising};

use crate::noted::Noted;
use qc_num::Path;

/// Where a task stands in a path.
fn place_of(path: &[u16], task: u16) -> Option<usize>
    ensures { IsPlace path.now task result }
{
    for (place, other) in path.iter().enumerate() {
        if *other == task {
            return Some(place);
        }
    }
    None
}

/// Puts a task before a path that has room.
fn prepend(path: &mut Path, task: u16)
    requires { length path.old.items < path.old.capacity }
    ensures items { path.new.items ≡ task ∷ path.old.items }
    ensures room { path.new.capacity ≡ path.old.capacity }
{
    let _ = path.insert(0, task);
}

/// The way to a task from one that nothing raised, where each task starts after the one before it.
pub(crate) fn chain_to(values: &Noted, count: u16, last: u16, path: &mut Path)
    requires cells { length values.now.cells ≡ 2 * count }
    requires few { count ≤ MOST_TASKS }
    requires backed { AreBacked (why_in count values.now.cells) }
    requires rising { IsRising (why_in count values.now.cells) }
    requires task { last < count }
    requires room { count ≤ path.old.capacity }
    ensures chain { IsBackTo (why_in count values.now.cells) last path.new.items }
    ensures room { path.new.capacity ≡ path.old.capacity }
{
    path.clear();
    let mut task = last;
    while let Some(raiser) = values.raiser(count, task) {
        path.push_reserved(task);
        task = raiser;
    }
    path.push_reserved(task);
    path.as_mut_slice().reverse();
}

/// A ring, on the way back from a task where each task on it was raised by another.
pub(crate) fn ring_behind(values: &Noted, count: u16, root: u16, path: &mut Path)
    requires cells { length values.now.cells ≡ 2 * count }
    requires few { count ≤ MOST_TASKS }
    requires backed { AreBacked (why_in count values.now.cells) }
    requires task { root < count }
    requires endless { IsEndless (why_in count values.now.cells) root }
    requires room { count ≤ path.old.capacity }
    ensures ring { IsRing (why_in count values.now.cells) path.new.items }
    ensures room { path.new.capacity ≡ path.old.capacity }
{
    path.clear();
    let mut task = root;
    while let Some(raiser) = values.raiser(count, task) {
        prepend(path, task);
        if let Some(place) = place_of(path.as_slice(), raiser) {
            path.truncate(place + 1);
            return;
        }
        task = raiser;
    }
    unreachable!();
}
