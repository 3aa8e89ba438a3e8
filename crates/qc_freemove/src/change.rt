//! How long a crane goes on as it goes.

ghost use Rattle.std.specs.Prelude.{◌≡◌, ◌+◌, ◌*◌, ◌≤◌, ◌<◌, ◌≤ℤ◌, ◌-ℤ◌};
ghost use Rattle.qc_model.specs.Numbers.{most_end};
ghost use Rattle.qc_freemove.specs.FreeSweep.{IsEven, IsHeldPlace, IsNearHold, IsOutside, IsSteady};
ghost use Rattle.qc_freemove.specs.FreeSweep.{IsSmall, IsUnpassed, held};

use crate::hold::Hold;
use crate::sweep::Sweep;

/// Where a crane is, or has to be, at a half tick and at the next.
#[derive(Clone, Copy)]
struct Step {
    here: i64,
    ahead: i64,
}

/// By how much something comes nearer to the crane from below in the half tick.
fn gain(crane: Step, other: Step) -> i64
    requires near { IsHeldPlace crane.here × IsHeldPlace crane.ahead }
    requires other_near { IsHeldPlace other.here × IsHeldPlace other.ahead }
    ensures gain { result ≡ ((other.ahead -ℤ other.here) -ℤ (crane.ahead -ℤ crane.here)) }
    ensures small { IsSmall result }
{
    (other.ahead - other.here) - (crane.ahead - crane.here)
}

/// The half tick up to which what now lies no higher than the crane, and goes on as it goes, doesn't come past
/// it; at most `end`.
fn passing(crane: Step, other: Step, at: u64, end: u64) -> u64
    requires at { at < end }
    requires end { end ≤ 2 * most_end }
    requires near { IsHeldPlace crane.here × IsHeldPlace crane.ahead }
    requires other_near { IsHeldPlace other.here × IsHeldPlace other.ahead }
    requires below { (other.here ≤ℤ crane.here) × (other.ahead ≤ℤ crane.ahead) }
    ensures onward { at < result }
    ensures within { result ≤ end }
    ensures below { IsUnpassed at crane.here crane.ahead other.here other.ahead result }
{
    let below = crane.here.abs_diff(other.here);
    let gain = gain(crane, other);
    if gain == 1 {
        end.min(at + below)
    } else if gain == 2 {
        end.min(at + below / 2)
    } else {
        end
    }
}

/// A moment that is still to come, where it is before `end`.
fn event(moment: u64, at: u64, end: u64) -> u64
    requires { at < end }
    ensures onward { at < result }
    ensures within { result ≤ end }
    ensures outside { IsOutside at result moment }
{
    if at < moment { end.min(moment) } else { end }
}

/// The half tick up to which a hold neither starts, ends nor comes past the crane; at most `end`.
fn hold_change(hold: Hold, crane: Step, at: u64, end: u64) -> u64
    requires hold { IsNearHold hold }
    requires at { at < end }
    requires end { end ≤ 2 * most_end }
    requires near { IsHeldPlace crane.here × IsHeldPlace crane.ahead }
    requires below { (held hold at ≤ℤ crane.here) × (held hold (at + 1) ≤ℤ crane.ahead) }
    ensures onward { at < result }
    ensures within { result ≤ end }
    ensures steady { IsSteady hold at crane.here crane.ahead result }
{
    let first = event(hold.until, at, event(hold.from, at, end));
    let step = Step {
        here: hold.at(at),
        ahead: hold.at(at + 1),
    };
    passing(crane, step, at, first)
}

impl Sweep<'_> {
    /// A half tick up to which the crane goes on as it goes from another on; at most `end`.
    pub(crate) fn next_change(&self, at: u64, end: u64) -> u64
        requires at { at < end }
        requires end { end ≤ 2 * most_end }
        ensures { IsEven self.now at result end }
    {
        let crane = Step {
            here: self.place(at),
            ahead: self.place(at + 1),
        };
        let floor = self.floor_place();
        let level = Step {
            here: floor,
            ahead: floor,
        };
        let mut next = passing(crane, level, at, end);
        for number in 0..self.holds() {
            next = hold_change(self.hold(number), crane, at, next);
        }
        next
    }
}
