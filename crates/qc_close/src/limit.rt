//! The last end of all at which an assignment is closed.

ghost use Rattle.std.specs.Prelude.{◌≡◌, ◌+◌, ◌*◌, ◌<◌, ◌≤◌, false, true};
ghost use Rattle.qc_close.specs.Lasts.{IsLatest};
ghost use Rattle.qc_close.specs.Model.{MOST_START, is_closed};

use crate::crew::Crew;
use qc_model::MOST_START;
use qc_num::Tick;

impl Crew {
    /// Whether the assignment is closed at an end, however late that is.
    fn is_closed_at(&self, end: Tick) -> bool
        requires { 0 < end }
        ensures is { result ≡ is_closed self.now.inst self.now.turn self.now.cranes end }
        ensures soon { result ≡ true → end ≤ MOST_START }
    {
        let _inst = self.instance(); // for what it ensures
        end <= MOST_START && self.closed(end)
    }

    /// An end behind this one at which the assignment isn't closed, found by steps that double.
    fn open_end(&self, closed: Tick) -> Tick
        requires { closed ≤ MOST_START }
        ensures behind { closed < result }
        ensures soon { result ≤ 2 * MOST_START + 1 }
        ensures open { is_closed self.now.inst self.now.turn self.now.cranes result ≡ false }
    {
        let mut end = closed + 1;
        let mut step = 1;
        'doubling: while self.is_closed_at(end) {
            end += step;
            step += step;
        }
        end
    }

    /// The last end at which the assignment is closed, in ticks; 0 where there is none.
    pub fn latest_closed(&self) -> Tick
        ensures latest { IsLatest (is_closed self.now.inst self.now.turn self.now.cranes) result }
        ensures soon { result ≤ MOST_START }
    {
        let _inst = self.instance(); // for what it ensures
        let mut low = self.bare_end();
        let mut high = self.open_end(low);
        'halving: while low + 1 < high {
            let middle = low + (high - low) / 2;
            if self.is_closed_at(middle) {
                low = middle;
            } else {
                high = middle;
            }
        }
        low
    }
}
