//! Laws of lower bounds: what packed tasks and closed ends show of every schedule that follows an
//! assignment, whatever is decided of the order of its tasks. No program calls them.
//!
//! Such a schedule ends no earlier than its packed tasks allow (`packs_are_bounds`), and not before an
//! end at which the assignment is closed (`closed_ends_are_bounds`), so neither do those that agree
//! with a node (`nodes_end_no_earlier`). An assignment is closed at each end before one at which it is
//! (`closed_ends_go_down`), and at none that is late (`closed_ends_are_soon`).
#![tactic(auto)]

ghost use Rattle.std.specs.Prelude.{◌≡◌, ◌≤◌, ℕ, List, Option, Some, true};
ghost use Rattle.qc_close.specs.Model.{Decision, Slot, InstanceView, Valid, GoesBy, packed_end, Agrees, ends, Turn, AreInRange, cranes_of, IsClosedBound, is_closed, IsPackBound, pack, MOST_START};

/// Packed tasks take no fewer ticks than this in any feasible schedule that follows the assignment, from when the
/// first of them can start to the end.
fn packs_are_bounds()
    ensures { (inst : InstanceView) (cranes : List (Option ℕ)) (tasks : List ℕ) (ticks : ℕ)
        → pack inst cranes tasks ≡ Some ticks → IsPackBound inst cranes tasks ticks }
{}

/// No schedule that follows an assignment ends before an end at which it is closed: of those that go up where
/// cranes go one way, and of all that are feasible where they go to and fro.
fn closed_ends_are_bounds()
    ensures { (inst : InstanceView) (turn : Turn) (cranes : List (Option ℕ)) (end : ℕ) → Valid inst
        → is_closed inst turn cranes end ≡ true → IsClosedBound inst turn cranes end }
{}

/// An assignment that is closed at an end is so at each earlier one.
fn closed_ends_go_down()
    ensures { (inst : InstanceView) (turn : Turn) (cranes : List (Option ℕ)) (sooner end : ℕ) → Valid inst
        → sooner ≤ end → is_closed inst turn cranes end ≡ true → is_closed inst turn cranes sooner ≡ true }
{}

/// No assignment is closed at an end of more than twelve digits: by then one crane alone has the time for
/// all that is left.
fn closed_ends_are_soon()
    ensures { (inst : InstanceView) (turn : Turn) (cranes : List (Option ℕ)) (end : ℕ) → Valid inst
        → AreInRange inst cranes → is_closed inst turn cranes end ≡ true → end ≤ MOST_START }
{}

/// No schedule that agrees with a node, of those that go up where cranes go one way and of all feasible ones
/// where they go as they like, ends before its packed tasks allow, begun when the first of them can, nor
/// before an end at which the node's assignment is closed.
fn nodes_end_no_earlier()
    ensures packed { (inst : InstanceView) (ds : List Decision) (sched : List Slot)
        → GoesBy inst.turn inst sched → Agrees inst ds sched → (tasks : List ℕ) (end : ℕ)
        → packed_end inst ds tasks ≡ Some end → end ≤ ends inst sched }
    ensures closed { (inst : InstanceView) (ds : List Decision) (sched : List Slot)
        → GoesBy inst.turn inst sched → Agrees inst ds sched → Valid inst → (end : ℕ)
        → is_closed inst inst.turn (cranes_of inst ds) end ≡ true → end ≤ ends inst sched }
{}
