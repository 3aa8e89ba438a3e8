//! The first report at which two cranes are too near.

ghost use Rattle.std.specs.Prelude.{◌≡◌, ◌↔◌, length, IfSome, IsNone};
ghost use Rattle.qc_watch.specs.Breach.{IsFirstBreach, IsSafe};

use crate::cursors::Cursors;
use crate::pairs::near_pair;
use crate::reports::Reports;
use qc_num::Tick;
use qc_ship::Ship;

/// Two cranes that are too near at the time of a report.
#[derive(Clone, Copy, PartialEq, Eq)]
pub struct Breach {
    pub at: Tick,
    /// The lower crane, counted from 0.
    pub first: u16,
    /// The higher one.
    pub second: u16,
}

/// The first time of a report, of whichever crane, at which two cranes are nearer than the gap for each crane
/// from the one to the other, with the first such pair. `None` comes exactly where every two cranes keep it at
/// every moment at which both are known, fractions of a tick included. Takes no memory.
pub fn first_breach(ship: &Ship, reports: &Reports) -> Option<Breach>
    requires { length reports.now ≡ length ship.now.cranes }
    ensures safe { IsNone result ↔ IsSafe ship.now reports.now }
    ensures first { IfSome result (IsFirstBreach ship.now reports.now) }
{
    let mut cursors = Cursors::start(reports);
    while let Some(at) = cursors.soonest(reports) {
        let places = cursors.places(reports, at);
        if let Some((first, second)) = near_pair(ship, &places) {
            return Some(Breach { at, first, second });
        }
        cursors = cursors.passed(reports, at);
    }
    None
}
