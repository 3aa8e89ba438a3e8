//! A law of the list of moves, which no program calls.

ghost use Rattle.std.specs.Prelude.{◌≡◌, ℕ, true, List, map, Ok};
ghost use Rattle.qc_bayplan.specs.Plan.{AreContainers};
ghost use Rattle.qc_bayplan.specs.declared.plan.Container.{Container};
ghost use Rattle.qc_changes.specs.Changes.{AreChanges, ChangesView};
ghost use Rattle.qc_changes.specs.Classes.{stands};
ghost use Rattle.qc_changes.specs.States.{Leads};
ghost use Rattle.qc_model.specs.declared.schedule.Slot.{Slot};
ghost use Rattle.qc_model.specs.Rules.{Feasible};
ghost use Rattle.qc_sheet.specs.Order.{AreOrders, row_at};
ghost use Rattle.qc_ship.specs.Ship.{IsShip, ShipView};
ghost use Rattle.qc_stow.specs.Stow.{moves_in};
ghost use Rattle.qc_tasks.specs.InstanceOf.{instance_of, tasks_of};
ghost use Rattle.qc_moves_command.specs.Worked.{AreInTime, work_with};

/// Where restows are ordered, the moves of the list lead from the one bay plan to the other as the work sheet of any
/// feasible plan has them: in the order of the ticks at which they begin, those of one tick in any order.
fn sheets_lead_there()
    ensures { (first second : List Container) (c : ChangesView) → AreContainers first → AreContainers second
        → AreChanges first second c → (ship : ShipView) (text : List ℕ) → IsShip ship → ship.ordered ≡ true
        → moves_in ship text ≡ Ok c.rows → (sched : List Slot) (orders : List (List ℕ))
        → Feasible (instance_of ship c.rows) sched → AreOrders c.rows (tasks_of ship c.rows) orders
        → (told : List ℕ) → AreInTime (work_with ship c.rows sched orders) told
        → Leads (stands first) (map (row_at c.rows) told) (stands second) }
{}
