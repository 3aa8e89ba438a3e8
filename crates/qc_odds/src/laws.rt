//! What holds of a plan that is worked with other lengths.

ghost use Rattle.std.specs.Prelude.{◌≡◌, ℕ, ◌+◌, ◌<◌, ◌≤◌, ◌↔◌, Bool, IsTrue, List, length, map, slice_index};
ghost use Rattle.std.specs.List.Sorted.{IsPermutation, IsSorted};
ghost use Rattle.std.specs.Ordering.{nat_cmp};
ghost use Rattle.qc_dispatch.specs.Calls.{Call, Reaches, opening};
ghost use Rattle.qc_dispatch.specs.Course.{Course as Dispatched, left, running};
ghost use Rattle.qc_dispatch.specs.Worked.{slots_taken, tasks_taken};
ghost use Rattle.qc_model.specs.declared.schedule.Slot.{Slot};
ghost use Rattle.qc_model.specs.Instance.{InstanceView, Valid, ticks_of};
ghost use Rattle.qc_model.specs.Rules.{Feasible, start_of};
ghost use Rattle.qc_odds.specs.Course.{AreStarts, IsLastEnd, with_lengths, with_starts};
ghost use Rattle.qc_odds.specs.Critical.{AreMarked, is_marked, with_tick_more};
ghost use Rattle.qc_odds.specs.Tally.{IsDoneBy, done_at, share};
ghost use Rattle.qc_odds.specs.Runs.{over, without_over};

/// Worked with any lengths, a feasible plan gives a feasible schedule of the tasks with these lengths, on the cranes
/// of the plan.
fn courses_are_feasible()
    ensures { (inst : InstanceView) (plan : List Slot) (lengths starts : List ℕ) → Valid inst → Feasible inst plan
        → length lengths ≡ length inst.tasks → AreStarts inst plan lengths starts
        → Feasible (with_lengths inst lengths) (with_starts plan starts) }
{}

/// With longer tasks no task starts sooner; so with the same lengths there is only one list of starts.
fn longer_tasks_start_no_sooner()
    ensures { (inst : InstanceView) (plan : List Slot) (lengths starts others later : List ℕ)
        → AreStarts inst plan lengths starts → AreStarts inst plan others later
        → ((j : ℕ) → j < length inst.tasks → slice_index lengths j ≤ slice_index others j)
        → (j : ℕ) → j < length inst.tasks → slice_index starts j ≤ slice_index later j }
{}

/// Whatever calls a dispatcher gets: once no task is left and none runs, each was granted when it starts in the course
/// with the lengths that they took, from their granted starts to their reported ends.
fn courses_are_the_dispatchers()
    ensures { (inst : InstanceView) (plan : List Slot) (calls : List Call) (after : Dispatched) → Valid inst
        → Feasible inst plan → Reaches (opening inst plan) calls after → left after ≡ 0 → running after ≡ 0
        → AreStarts after.inst after.plan (map (λ t. t.ticks) (tasks_taken after))
        (map (λ s. s.start) (slots_taken after)) }
{}

/// With tasks that are no longer than planned none starts later than planned.
fn shorter_tasks_start_by_the_plan()
    ensures { (inst : InstanceView) (plan : List Slot) → Valid inst → Feasible inst plan → (lengths starts : List ℕ)
        → AreStarts inst plan lengths starts
        → ((j : ℕ) → j < length inst.tasks → slice_index lengths j ≤ ticks_of inst j)
        → (j : ℕ) → j < length inst.tasks → slice_index starts j ≤ start_of plan j }
{}

/// The marked tasks are the critical ones: with a tick more of one the last end comes later, and of no other.
fn marked_tasks_are_critical()
    ensures { (inst : InstanceView) (plan : List Slot) (lengths starts : List ℕ) (last : ℕ) (marked : List Bool)
        → length lengths ≡ length inst.tasks → AreStarts inst plan lengths starts → IsLastEnd lengths starts last
        → AreMarked inst plan lengths starts last marked → (j : ℕ) → j < length inst.tasks
        → (later : List ℕ) (after : ℕ) → AreStarts inst plan (with_tick_more lengths j) later
        → IsLastEnd (with_tick_more lengths j) later after → IsTrue (is_marked marked j) ↔ (last < after) }
{}

/// With a tick more of one task a run ends a tick later at most.
fn a_tick_more_ends_a_tick_later()
    ensures { (inst : InstanceView) (plan : List Slot) (lengths starts : List ℕ) (last : ℕ)
        → length lengths ≡ length inst.tasks → AreStarts inst plan lengths starts → IsLastEnd lengths starts last
        → (j : ℕ) → j < length inst.tasks → (later : List ℕ) (after : ℕ)
        → AreStarts inst plan (with_tick_more lengths j) later → IsLastEnd (with_tick_more lengths j) later after
        → after ≤ last + 1 }
{}

/// Had a task not taken longer than planned, all else as it was, a run would end sooner by no more than what is told of
/// it: by how much it took longer where it is critical, and else not at all.
fn no_run_ends_sooner_than_by_what_is_over()
    ensures { (inst : InstanceView) (plan : List Slot) (lengths starts : List ℕ) (last : ℕ) (marked : List Bool)
        → length lengths ≡ length inst.tasks → AreStarts inst plan lengths starts → IsLastEnd lengths starts last
        → AreMarked inst plan lengths starts last marked → (j : ℕ) → j < length inst.tasks → (sooner : List ℕ) (first : ℕ)
        → AreStarts inst plan (without_over inst lengths j) sooner → IsLastEnd (without_over inst lengths j) sooner first
        → last ≤ first + over inst lengths marked j }
{}

/// Whatever calls a dispatcher gets: once no task is left and none runs, and tasks took these lengths, each was granted
/// when it starts in the course with them.
fn dispatchers_grant_the_starts_of_the_course()
    ensures { (inst : InstanceView) (plan : List Slot) (lengths starts : List ℕ) → Valid inst → Feasible inst plan
        → AreStarts inst plan lengths starts → (calls : List Call) (after : Dispatched)
        → Reaches (opening inst plan) calls after → left after ≡ 0 → running after ≡ 0
        → map (λ t. t.ticks) (tasks_taken after) ≡ lengths → map (λ s. s.start) (slots_taken after) ≡ starts }
{}

/// Of sorted ends the one that is told is the first tick by which so many hundredths of the runs are over.
fn the_end_that_is_told_is_the_first()
    ensures { (ends sorted : List ℕ) → IsPermutation ends sorted → IsSorted nat_cmp sorted → (percent : ℕ) → 1 ≤ percent
        → percent ≤ 100 → 1 ≤ length sorted → IsDoneBy ends (share percent (length sorted)) (done_at sorted percent) }
{}
