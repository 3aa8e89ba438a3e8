//! What holds of the rest of a plan, whatever is planned for it.

ghost use Rattle.std.specs.Prelude.{◌+◌, ◌*◌, ◌<◌, ◌≤◌, ◌↔◌, ℕ, ℤ, pos, ◌+ℤ◌, ◌≤ℤ◌, List, length};
ghost use Rattle.qc_dispatch.specs.Course.{Course};
ghost use Rattle.qc_dispatch.specs.Journal.{Journal};
ghost use Rattle.qc_dispatch.specs.Promises.{Keeps};
ghost use Rattle.qc_dispatch.specs.Worked.{with_tasks};
ghost use Rattle.qc_model.specs.declared.schedule.Slot.{Slot};
ghost use Rattle.qc_model.specs.declared.task.Task.{Task};
ghost use Rattle.qc_model.specs.Instance.{HasPlaceLimits, InstanceView, Valid, crane};
ghost use Rattle.qc_model.specs.OneWay.{GoesUp};
ghost use Rattle.qc_model.specs.Rules.{Feasible, end_of, ends, start_of};
ghost use Rattle.qc_rest.specs.declared.stand.Stand.{Stand};
ghost use Rattle.qc_rest.specs.Fit.{IsBerth, IsReadySoon};
ghost use Rattle.qc_rest.specs.GoneOn.{AreGoneOn};
ghost use Rattle.qc_rest.specs.Joined.{IsJoined};
ghost use Rattle.qc_rest.specs.OldOrder.{IsOldOrder};
ghost use Rattle.qc_rest.specs.Places.{ArePlaces, Outlook};
ghost use Rattle.qc_rest.specs.Progress.{AreOver, HasBegun, IsLeft, number_of};
ghost use Rattle.qc_rest.specs.Remaining.{NoneIsDue, over_at};
ghost use Rattle.qc_rest.specs.Rest.{IsExactRest, IsRest};
ghost use Rattle.qc_rest.specs.RestOf.{rest_of};
ghost use Rattle.qc_rest.specs.Stands.{AreStands, CanBeAt, stand_of};

/// Whoever plans the rest plans the whole: a feasible schedule of what is left, begun now, and the starts that were made
/// before it are together a feasible schedule of all tasks, with the lengths that they took or still take. That holds of
/// a rest that asks for more than it must, of cranes at any places that they can have reached by now, and where tasks that
/// run are over sooner than is known.
fn every_plan_of_the_rest_keeps_the_rules()
    ensures { (c : Course) (over : ℕ → ℕ) (stands : List Stand) (rest : InstanceView) (new : List Slot) (tasks : List Task)
        (sched : List Slot) → Valid c.inst → Feasible c.inst c.plan → Keeps c → AreOver c over → IsRest c over stands rest
        → Feasible rest new → IsJoined c over new tasks sched → Feasible (with_tasks c.inst tasks) sched }
{}

/// The whole is over by a moment exactly where all that has begun is, and the rest, counted from now.
fn the_whole_ends_with_the_rest()
    ensures { (c : Course) (over : ℕ → ℕ) (stands : List Stand) (rest : InstanceView) (new : List Slot) (tasks : List Task)
        (sched : List Slot) → Keeps c → IsRest c over stands rest → Feasible rest new → IsJoined c over new tasks sched
        → (moment : ℕ) → (ends (with_tasks c.inst tasks) sched ≤ moment)
        ↔ (((j : ℕ) → j < length c.inst.tasks → HasBegun c j → end_of (with_tasks c.inst tasks) sched j ≤ moment)
        × ((j : ℕ) → IsLeft c j → c.clock + ends rest new ≤ moment)) }
{}

/// Each crane can be at its place by now, and neighbours are the gap apart there.
fn cranes_can_be_at_their_places()
    ensures can_be { (o : Outlook) → Valid o.course.inst → Feasible o.course.inst o.course.plan → Keeps o.course
        → AreOver o.course o.over → AreStands o.course o.over o.stands → AreGoneOn o.course o.over o.goes
        → (tops places : ℕ → ℤ) → ArePlaces o tops places → (k : ℕ) → k < length o.course.inst.cranes
        → CanBeAt o.course.inst o.course.clock (stand_of o.stands k) (places k) }
    ensures in_order { (o : Outlook) → Valid o.course.inst → Feasible o.course.inst o.course.plan → Keeps o.course
        → AreOver o.course o.over → AreStands o.course o.over o.stands → AreGoneOn o.course o.over o.goes
        → (tops places : ℕ → ℤ) → ArePlaces o tops places → (k : ℕ) → k + 1 < length o.course.inst.cranes
        → (places k +ℤ pos o.course.inst.gap) ≤ℤ places (k + 1) }
{}

/// The instance that is made of what is left asks for all that it must, and for no more.
fn the_rest_is_what_is_left()
    ensures { (c : Course) (over : ℕ → ℕ) (stands : List Stand) (places : ℕ → ℤ) → Valid c.inst → Keeps c
        → AreStands c over stands
        → ((k : ℕ) → k < length c.inst.cranes → CanBeAt c.inst c.clock (stand_of stands k) (places k))
        → IsExactRest c over stands places (rest_of c over stands places) }
{}

/// It is an instance where no crane must wait longer than one may, and where, if places are given in decimetres, each
/// crane begins at a place that may be written. Else places are within the limits by themselves.
fn the_rest_is_an_instance()
    ensures { (o : Outlook) → Valid o.course.inst → Feasible o.course.inst o.course.plan → Keeps o.course
        → AreOver o.course o.over → AreStands o.course o.over o.stands → AreGoneOn o.course o.over o.goes
        → (tops places : ℕ → ℤ) → ArePlaces o tops places
        → ((k : ℕ) → k < length o.course.inst.cranes → IsReadySoon o k)
        → (HasPlaceLimits o.course.inst → (k : ℕ) → k < length o.course.inst.cranes → IsBerth (places k))
        → Valid (rest_of o.course o.over o.stands places) }
{}

/// No crane begins further up the rail than the last bay, with room for the cranes below it, or than its start bay; nor
/// further down than the first bay, with room for those above it, or than its start bay.
fn cranes_begin_near_the_ship()
    ensures up { (o : Outlook) → Valid o.course.inst → AreStands o.course o.over o.stands → (tops places : ℕ → ℤ)
        → ArePlaces o tops places → (k : ℕ) (high : ℤ) → k < length o.course.inst.cranes
        → (pos o.course.inst.bays +ℤ pos (o.course.inst.gap * k)) ≤ℤ high → (crane o.course.inst k).bay ≤ℤ high
        → places k ≤ℤ high }
    ensures down { (o : Outlook) → Valid o.course.inst → AreStands o.course o.over o.stands → (tops places : ℕ → ℤ)
        → ArePlaces o tops places → (k above : ℕ) (low : ℤ) → k + above < length o.course.inst.cranes
        → length o.course.inst.cranes ≤ k + above + 1 → (low +ℤ pos (o.course.inst.gap * above)) ≤ℤ pos 1
        → low ≤ℤ (crane o.course.inst k).bay → low ≤ℤ places k }
{}

/// The old order is a feasible schedule of the rest. No task starts sooner than it does where the old order goes on, and
/// each less than the travel of one bay later.
fn the_old_order_is_late_by_less_than_a_bay()
    ensures feasible { (c : Course) (over : ℕ → ℕ) (stands : List Stand) (places : ℕ → ℤ) (rest : InstanceView)
        (sched : List Slot) → Valid c.inst → Feasible c.inst c.plan → Keeps c → IsExactRest c over stands places rest
        → IsOldOrder c rest sched → Feasible rest sched }
    ensures no_sooner { (o : Outlook) → Valid o.course.inst → Feasible o.course.inst o.course.plan → Keeps o.course
        → AreOver o.course o.over → AreStands o.course o.over o.stands → AreGoneOn o.course o.over o.goes
        → (tops places : ℕ → ℤ) → ArePlaces o tops places → (rest : InstanceView)
        → IsExactRest o.course o.over o.stands places rest → (sched : List Slot) → IsOldOrder o.course rest sched
        → (j : ℕ) → IsLeft o.course j → o.goes j ≤ o.course.clock + start_of sched (number_of o.course j) }
    ensures soon { (o : Outlook) → Valid o.course.inst → Feasible o.course.inst o.course.plan → Keeps o.course
        → AreOver o.course o.over → AreStands o.course o.over o.stands → AreGoneOn o.course o.over o.goes
        → (tops places : ℕ → ℤ) → ArePlaces o tops places → (rest : InstanceView)
        → IsExactRest o.course o.over o.stands places rest → (sched : List Slot) → IsOldOrder o.course rest sched
        → (j : ℕ) → IsLeft o.course j
        → o.course.clock + start_of sched (number_of o.course j) < o.goes j + o.course.inst.travel }
{}

/// The old order goes up in the rest where the plan goes up in the whole.
fn the_old_order_goes_up_where_the_plan_does()
    ensures { (c : Course) (over : ℕ → ℕ) (stands : List Stand) (places : ℕ → ℤ) (rest : InstanceView)
        (sched : List Slot) → Valid c.inst → GoesUp c.inst c.plan → Keeps c → IsExactRest c over stands places rest
        → IsOldOrder c rest sched → GoesUp rest sched }
{}

/// A log tells when each task that has begun is over, where none that runs is due.
fn logs_tell_when_tasks_are_over()
    ensures { (journal : Journal) → NoneIsDue journal → AreOver journal.course (over_at journal) }
{}
