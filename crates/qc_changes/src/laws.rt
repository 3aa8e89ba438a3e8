//! Laws of what is lifted and of the list, which no program calls.

ghost use Rattle.std.specs.Prelude.{◌≡◌, ◌||◌, ℕ, false, All, List, Some, is_some};
ghost use Rattle.qc_ship.specs.Cells.{CellView};
ghost use Rattle.qc_stow.specs.declared.row.Row.{Row};
ghost use Rattle.qc_bayplan.specs.Plan.{AreContainers};
ghost use Rattle.qc_bayplan.specs.declared.plan.Container.{Container};
ghost use Rattle.qc_changes.specs.declared.class.Class.TheVariants.{Staying};
ghost use Rattle.qc_changes.specs.Classes.{AreLifted, class_of, stands};
ghost use Rattle.qc_changes.specs.MoveList.{IsMoveList};
ghost use Rattle.qc_changes.specs.Orders.{IsOrderOf};
ghost use Rattle.qc_changes.specs.Over.{is_over};
ghost use Rattle.qc_changes.specs.States.{Leads};

/// Between any two plans exactly one set of containers must be lifted.
fn one_set_is_lifted()
    ensures some { (first second : List Container) → AreContainers first
        → (lifted : List Container) × AreLifted first second lifted }
    ensures one { (first second lifted others : List Container) → AreLifted first second lifted
        → AreLifted first second others → lifted ≡ others }
{}

/// No container that stays is over the cell of a move of the list.
fn moves_leave_what_stays()
    ensures { (first second lifted : List Container) (rows : List Row) → AreContainers first
        → AreContainers second → AreLifted first second lifted → IsMoveList first second lifted rows
        → (id : List ℕ) (cell : CellView) → class_of first second lifted id ≡ Some Staying
        → stands first id ≡ Some cell → All (λ row. is_over cell row.cell ≡ false) rows }
{}

/// An id has a class exactly where one of the plans has it.
fn each_id_has_a_class()
    ensures { (first second lifted : List Container) (id : List ℕ)
        → is_some (class_of first second lifted id) ≡ (is_some (stands first id) || is_some (stands second id)) }
{}

/// The moves of the list lead from the first plan to the second in every order in which each stands behind those that must be
/// made ahead of it.
fn other_orders_lead_there()
    ensures { (first second lifted : List Container) (rows told : List Row) → AreContainers first
        → AreContainers second → AreLifted first second lifted → IsMoveList first second lifted rows
        → IsOrderOf rows told → Leads (stands first) told (stands second) }
{}
