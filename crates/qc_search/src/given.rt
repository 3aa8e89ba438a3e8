//! What a search begins with: nothing, or the tight form of a schedule that it was offered. This has the same
//! cranes and the same order of apart tasks, or of all tasks that conflict where cranes go as they like, and
//! the earliest starts with these.
ghost use Rattle.std.specs.Prelude.{◌≡◌, ℕ, ◌<◌, ◌≤◌, [], ◌∷◌, None, length, slice_index_or};
ghost use Rattle.qc_close.specs.Model.{Assign, GoesBy, IsApart, Valid, pair_of, IsJudgeable, Agrees, Conflicts, IsSettled, assigned, most_start, crane_of, start_of, seen_schedule};
ghost use Rattle.qc_num.specs.Bounds.{lesser};
ghost use Rattle.qc_starts.specs.Seen.{AreAssigned};
ghost use Rattle.qc_starts.specs.Tight.{IsSeenSo, order_in};
ghost use Rattle.qc_search.specs.Progress.{AreOrdered, IsBegun, IsBegunWith, IsTightened, known_best};
ghost use Rattle.qc_search.specs.Run.{IsOffered, best_end};

use crate::best::{improves, keep};
use crate::progress::Progress;
use crate::roots::Roots;
use qc_model::{Decision, Direction, Instance, Pair, Schedule, ends};
use qc_num::{Bound, Tick};
use qc_starts::Starts;

/// Puts a task on its crane of the schedule.
fn assign_as(starts: &mut Starts, sched: &Schedule, task: u16)
    requires goes { GoesBy starts.old.inst.turn starts.old.inst sched.now }
    requires agrees { Agrees starts.old.inst starts.old.decisions sched.now }
    requires task { task < length starts.old.inst.tasks }
    requires none { assigned starts.old.decisions task ≡ None }
    ensures inst { starts.new.inst ≡ starts.old.inst }
    ensures decisions { starts.new.decisions ≡ Assign task (crane_of sched.now task) ∷ starts.old.decisions }
{
    let crane = sched.slots()[task as usize].crane;
    starts.go(Decision::Assign(task, crane));
}

/// Puts each task on its crane of the schedule.
fn assign_all(starts: &mut Starts, sched: &Schedule)
    requires root { starts.old.decisions ≡ [] }
    requires goes { GoesBy starts.old.inst.turn starts.old.inst sched.now }
    ensures inst { starts.new.inst ≡ starts.old.inst }
    ensures agrees { Agrees starts.old.inst starts.new.decisions sched.now }
    ensures assigned { AreAssigned starts.old.inst starts.new.decisions }
{
    for task in 0..starts.instance().task_count() {
        assign_as(starts, sched, task);
    }
}

/// The order in which the schedule has two tasks.
fn order_of(inst: &Instance, sched: &Schedule, pair: Pair) -> Decision
    requires first { pair.first < length inst.now.tasks }
    requires second { pair.second < length inst.now.tasks }
    requires count { length sched.now ≡ length inst.now.tasks }
    requires soon { start_of sched.now pair.first ≤ most_start }
    ensures { result ≡ order_in inst.now sched.now pair }
{
    let end = sched.slots()[pair.first as usize].start + inst.task(pair.first).ticks;
    if end <= sched.slots()[pair.second as usize].start {
        Decision::Order(pair.first, pair.second)
    } else {
        Decision::Order(pair.second, pair.first)
    }
}

/// An apart pair by its number.
pub(crate) fn apart_at(starts: &Starts, number: usize) -> Pair
    requires { number < length starts.now.inst.apart }
    ensures is { result ≡ slice_index_or starts.now.inst.apart number (pair_of 0 0) }
    ensures apart { IsApart starts.now.inst result.first result.second }
    ensures first { result.first < length starts.now.inst.tasks }
    ensures second { result.second < length starts.now.inst.tasks }
    ensures valid { Valid starts.now.inst }
{
    starts.instance().apart()[number]
}

/// Orders two tasks that conflict as the schedule has them, where neither is forced after the other yet.
fn order_as(starts: &mut Starts, sched: &Schedule, pair: Pair)
    requires goes { GoesBy starts.old.inst.turn starts.old.inst sched.now }
    requires soon { (j : ℕ) → j < length starts.old.inst.tasks → start_of sched.now j ≤ most_start }
    requires agrees { Agrees starts.old.inst starts.old.decisions sched.now }
    requires first { pair.first < length starts.old.inst.tasks }
    requires second { pair.second < length starts.old.inst.tasks }
    requires conflict { Conflicts starts.old.inst starts.old.decisions pair.first pair.second }
    ensures inst { starts.new.inst ≡ starts.old.inst }
    ensures agrees { Agrees starts.old.inst starts.new.decisions sched.now }
    ensures cranes { (j : ℕ) → assigned starts.new.decisions j ≡ assigned starts.old.decisions j }
    ensures settled { IsSettled starts.old.inst starts.new.decisions pair.first pair.second }
    ensures stays { (i j : ℕ) → IsSettled starts.old.inst starts.old.decisions i j
        → IsSettled starts.old.inst starts.new.decisions i j }
{
    if starts.settled(pair.first, pair.second) {
        return;
    }
    let order = order_of(starts.instance(), sched, pair);
    starts.go(order);
}

/// Orders a task and each lower one that conflicts with it as the schedule has them.
fn order_below(starts: &mut Starts, sched: &Schedule, task: u16)
    requires goes { GoesBy starts.old.inst.turn starts.old.inst sched.now }
    requires soon { (j : ℕ) → j < length starts.old.inst.tasks → start_of sched.now j ≤ most_start }
    requires agrees { Agrees starts.old.inst starts.old.decisions sched.now }
    requires task { task < length starts.old.inst.tasks }
    ensures inst { starts.new.inst ≡ starts.old.inst }
    ensures agrees { Agrees starts.old.inst starts.new.decisions sched.now }
    ensures cranes { (j : ℕ) → assigned starts.new.decisions j ≡ assigned starts.old.decisions j }
    ensures settled { (i : ℕ) → i < task → Conflicts starts.old.inst starts.old.decisions i task
        → IsSettled starts.old.inst starts.new.decisions i task }
    ensures stays { (i j : ℕ) → IsSettled starts.old.inst starts.old.decisions i j
        → IsSettled starts.old.inst starts.new.decisions i j }
{
    for other in 0..task {
        if starts.conflict(other, task) {
            let pair = Pair {
                first: other,
                second: task,
            };
            order_as(starts, sched, pair);
        }
    }
}

/// Orders each two tasks that conflict as the schedule has them.
fn order_all(starts: &mut Starts, sched: &Schedule)
    requires goes { GoesBy starts.old.inst.turn starts.old.inst sched.now }
    requires soon { (j : ℕ) → j < length starts.old.inst.tasks → start_of sched.now j ≤ most_start }
    requires agrees { Agrees starts.old.inst starts.old.decisions sched.now }
    requires assigned { AreAssigned starts.old.inst starts.old.decisions }
    ensures inst { starts.new.inst ≡ starts.old.inst }
    ensures agrees { Agrees starts.old.inst starts.new.decisions sched.now }
    ensures assigned { AreAssigned starts.old.inst starts.new.decisions }
    ensures valid { Valid starts.old.inst }
    ensures ordered { AreOrdered starts.old.inst starts.new.decisions sched.now }
{
    for task in 0..starts.instance().task_count() {
        order_below(starts, sched, task);
    }
}

/// Makes the starts of a schedule that cranes may follow as it is the earliest with its cranes and its order of tasks,
/// and answers when it then ends.
pub(crate) fn tighten(starts: &mut Starts, sched: &mut Schedule) -> Tick
    requires root { starts.old.decisions ≡ [] }
    requires goes { GoesBy starts.old.inst.turn starts.old.inst sched.old }
    requires soon { (j : ℕ) → j < length starts.old.inst.tasks → start_of sched.old j ≤ most_start }
    ensures inst { starts.new.inst ≡ starts.old.inst }
    ensures root { starts.new.decisions ≡ [] }
    ensures tightened { IsTightened starts.old.inst sched.old sched.new result }
{
    assign_all(starts, sched);
    order_all(starts, sched);
    let stuck = starts.stuck();
    prove!(!stuck);
    keep(starts, sched);
    let end = starts.ends();
    starts.retract(0);
    end
}

/// Writes the slots of a schedule of so many tasks over those of another.
fn copy_slots(from: &Schedule, tasks: u16, to: &mut Schedule)
    requires from { length from.now ≡ tasks }
    requires to { length to.old ≡ tasks }
    ensures { to.new ≡ from.now }
{
    for task in 0..tasks {
        to.set(task, from.slots()[task as usize]);
    }
}

/// Turns a schedule so that it is as it is seen that way.
fn see(inst: &Instance, way: Direction, sched: &mut Schedule)
    requires { IsJudgeable inst.now sched.old }
    ensures { sched.new ≡ seen_schedule inst.now sched.old way }
{
    match way {
        Direction::Up => {}
        Direction::Down => sched.flip(inst.crane_count()),
    }
}

/// Makes the tight form of a schedule that cranes may follow the incumbent, as it is seen that way, and aims at its end.
fn begin_with(given: &Schedule, way: Direction, roots: &mut Roots, progress: &mut Progress)
    requires judgeable { IsJudgeable roots.old given.now }
    requires seen { IsSeenSo roots.old.turn roots.old given.now way }
    requires count { length progress.old.incumbent ≡ length roots.old.tasks }
    ensures stays { roots.new ≡ roots.old }
    ensures valid { Valid roots.old }
    ensures begins { IsBegunWith roots.old given.now way progress.old progress.new }
{
    let tasks = roots.instance().task_count();
    copy_slots(given, tasks, &mut progress.incumbent);
    see(roots.instance(), way, &mut progress.incumbent);
    let end = roots.tighten(way, &mut progress.incumbent);
    progress.aim = Bound::Least(end);
    progress.incumbent_end = Bound::Least(end);
    progress.way = way;
}

/// Begins with the tight form of a schedule that cranes may follow, as it is seen that way, where the schedule ends
/// before the incumbent. What it aims at is the incumbent's end.
pub(crate) fn offer(given: &Schedule, way: Direction, roots: &mut Roots, progress: &mut Progress)
    requires judgeable { IsJudgeable roots.old given.now }
    requires seen { IsSeenSo roots.old.turn roots.old given.now way }
    requires begun { IsBegun roots.old progress.old }
    ensures stays { roots.new ≡ roots.old }
    ensures limit { progress.new.limit ≡ progress.old.limit }
    ensures aim { progress.new.aim ≡ best_end roots.old (known_best roots.old progress.new) }
    ensures begun { IsBegun roots.old progress.new }
    ensures offered { IsOffered roots.old given.now (known_best roots.old progress.old)
        (known_best roots.old progress.new) }
{
    let end = ends(roots.instance(), given);
    if improves(end, progress.incumbent_end) {
        begin_with(given, way, roots, progress);
    } else {
        progress.aim = progress.incumbent_end;
    }
}

/// Aims at an end where that comes before what is aimed at.
pub(crate) fn aim_at(aim: Bound, _roots: &Roots, progress: &mut Progress)
    requires { IsBegun _roots.now progress.old }
    ensures is { progress.new ≡ record progress.old { aim = lesser progress.old.aim aim } }
    ensures begun { IsBegun _roots.now progress.new }
{
    let lower = progress.aim.min(aim);
    progress.aim = lower;
}
