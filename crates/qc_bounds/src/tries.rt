//! Packed tasks that show when a node ends at the soonest: which lists are tried.

ghost use Rattle.std.specs.Prelude.{◌≡◌, ◌+◌, ◌≤◌, IfSome, IsSome, length};
ghost use Rattle.qc_close.specs.Crews.{IsCrewOf};
ghost use Rattle.qc_close.specs.Model.{MOST_START, early};
ghost use Rattle.qc_num.specs.Paths.{HasRoom};
ghost use Rattle.qc_bounds.specs.Packed.{IsPackedFrom};

use crate::falling::late_falling;
use crate::lists::{List, Window, begins_bay};
use crate::packed::{early, judge, least_ticks, most_travel};
use qc_close::Crew;
use qc_num::{Path, Tick};
use qc_starts::Starts;

/// What is looked for: a list that shows this end or a later one, and whose tasks take so many ticks at
/// the least.
#[derive(Clone, Copy)]
struct Wanted {
    end: Tick,
    ticks: Tick,
}

/// Tries a list: the end that it shows, where that is wanted.
fn try_list(node: &Starts, crew: &Crew, list: List, wanted: Wanted, path: &mut Path) -> Option<Tick>
    requires known { IsSome (early node.now.inst node.now.decisions) }
    requires crew { IsCrewOf crew.now node.now.inst node.now.decisions }
    requires room { HasRoom (length node.now.inst.tasks) path.old }
    requires count { length path.old.items ≤ length node.now.inst.tasks }
    ensures shows { IfSome result
        (IsPackedFrom node.now.inst node.now.decisions wanted.end path.new.items) }
    ensures count { length path.new.items ≤ length node.now.inst.tasks }
    ensures room { path.new.capacity ≡ path.old.capacity }
{
    if list.ticks < wanted.ticks {
        return None;
    }
    list.write(crew, path);
    judge(node, crew, list.ticks, wanted.end, path.as_slice())
}

/// Tries the lists of a window: with the tasks beside it, and alone.
fn try_window(
    node: &Starts,
    crew: &Crew,
    window: &Window,
    first: u16,
    wanted: Wanted,
    path: &mut Path,
) -> Option<Tick>
    requires known { IsSome (early node.now.inst node.now.decisions) }
    requires crew { IsCrewOf crew.now node.now.inst node.now.decisions }
    requires room { HasRoom (length node.now.inst.tasks) path.old }
    requires count { length path.old.items ≤ length node.now.inst.tasks }
    ensures shows { IfSome result
        (IsPackedFrom node.now.inst node.now.decisions wanted.end path.new.items) }
    ensures count { length path.new.items ≤ length node.now.inst.tasks }
    ensures room { path.new.capacity ≡ path.old.capacity }
{
    if window.most_ticks() < wanted.ticks {
        return None;
    }
    let (long, short) = window.lists(first);
    if let Some(end) = try_list(node, crew, long, wanted, path) {
        return Some(end);
    }
    try_list(node, crew, short?, wanted, path)
}

/// Looks in windows along the ship for packed tasks that show this end or a later one.
fn late_window(node: &Starts, crew: &Crew, end: Tick, path: &mut Path) -> Option<Tick>
    requires known { IsSome (early node.now.inst node.now.decisions) }
    requires crew { IsCrewOf crew.now node.now.inst node.now.decisions }
    requires room { HasRoom (length node.now.inst.tasks) path.old }
    ensures shows { IfSome result (IsPackedFrom node.now.inst node.now.decisions end path.new.items) }
    ensures count { length path.new.items ≤ length node.now.inst.tasks }
    ensures room { path.new.capacity ≡ path.old.capacity }
{
    path.clear();
    let inst = node.instance();
    let travel = most_travel(inst);
    let mut window = Window::before_all(crew);
    for first in 0..inst.task_count() {
        if begins_bay(inst, first) {
            window.reach(crew, first);
            let ticks = least_ticks(end, early(node, first), travel);
            let wanted = Wanted { end, ticks };
            if let Some(end) = try_window(node, crew, &window, first, wanted, path) {
                return Some(end);
            }
        }
        window.leave(crew, first);
    }
    None
}

/// Looks for packed tasks that show this end or a later one.
pub(crate) fn late_tasks(node: &Starts, crew: &Crew, end: Tick, path: &mut Path) -> Option<Tick>
    requires known { IsSome (early node.now.inst node.now.decisions) }
    requires crew { IsCrewOf crew.now node.now.inst node.now.decisions }
    requires room { HasRoom (length node.now.inst.tasks) path.old }
    ensures shows { IfSome result (IsPackedFrom node.now.inst node.now.decisions end path.new.items) }
    ensures count { length path.new.items ≤ length node.now.inst.tasks }
    ensures room { path.new.capacity ≡ path.old.capacity }
{
    if let Some(found) = late_window(node, crew, end, path) {
        return Some(found);
    }
    late_falling(node, crew, end, path)
}

/// Looks for the packed tasks that show the latest end, where that is this one or a later one.
pub(crate) fn latest_tasks(node: &Starts, crew: &Crew, end: Tick, path: &mut Path) -> Option<Tick>
    requires known { IsSome (early node.now.inst node.now.decisions) }
    requires crew { IsCrewOf crew.now node.now.inst node.now.decisions }
    requires room { HasRoom (length node.now.inst.tasks) path.old }
    requires soon { end ≤ MOST_START + 1 }
    ensures shows { IfSome result (IsPackedFrom node.now.inst node.now.decisions end path.new.items) }
    ensures count { length path.new.items ≤ length node.now.inst.tasks }
    ensures room { path.new.capacity ≡ path.old.capacity }
{
    let mut next = end;
    for _ in 0..3 * node.instance().task_count() {
        let Some(found) = late_tasks(node, crew, next, path) else {
            break;
        };
        next = found + 1;
    }
    if next == end {
        path.clear();
        return None;
    }
    late_tasks(node, crew, next - 1, path)
}
