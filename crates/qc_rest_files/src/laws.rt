//! What holds of the ship of what is left, which no program calls.

ghost use Rattle.qc_model.specs.Instance.{InstanceView, Valid};
ghost use Rattle.qc_rest_files.specs.Aboard.{IsAboard};
ghost use Rattle.qc_rest_files.specs.RestShip.{rest_ship};
ghost use Rattle.qc_ship.specs.Ship.{IsShip, ShipView};

/// The ship of what is left keeps the limits of ships, where what is left fits the ship.
fn the_rest_has_a_ship()
    ensures { (ship : ShipView) (rest : InstanceView) → IsShip ship → Valid rest → IsAboard ship rest
        → IsShip (rest_ship ship rest) }
{}
