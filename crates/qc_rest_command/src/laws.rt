//! What holds of the files of what is left, which no program calls.

ghost use Rattle.std.specs.Prelude.{◌≡◌, ℕ, ℤ, List};
ghost use Rattle.qc_dispatch.specs.Course.{Course};
ghost use Rattle.qc_dispatch.specs.Promises.{Keeps};
ghost use Rattle.qc_model.specs.Instance.{Valid};
ghost use Rattle.qc_rest.specs.declared.stand.Stand.{Stand};
ghost use Rattle.qc_rest.specs.RestOf.{rest_of};
ghost use Rattle.qc_rest_files.specs.LeftRows.{left_rows};
ghost use Rattle.qc_rest_files.specs.RestShip.{rest_ship};
ghost use Rattle.qc_ship.specs.Ship.{IsShip, ShipView};
ghost use Rattle.qc_stow.specs.declared.row.Row.{Row};
ghost use Rattle.qc_tasks.specs.InstanceOf.{instance_of};

/// The ship of what is left and the moves of what is left come to the instance of what is left: as many ticks for each
/// task, its release, and each pair that was before or apart.
fn the_files_give_the_rest()
    ensures { (ship : ShipView) (rows : List Row) (c : Course) (over : ℕ → ℕ) (stands : List Stand) (places : ℕ → ℤ)
        → IsShip ship → Valid c.inst → Keeps c → c.inst ≡ instance_of ship rows
        → instance_of (rest_ship ship (rest_of c over stands places))
        (left_rows (rest_of c over stands places).tasks rows) ≡ rest_of c over stands places }
{}
