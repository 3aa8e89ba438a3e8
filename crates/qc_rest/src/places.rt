//! Where the cranes of the rest begin.

ghost use Rattle.std.specs.Prelude.{◌≡◌, ℕ, ◌+◌, ◌-◌, ◌/◌, ◌<◌, ◌≤◌, ◌↔◌, ℤ, pos, ◌+ℤ◌, ◌≤ℤ◌, ◌⊎◌, IfSome, IsTrue, length};
ghost use Rattle.std.specs.Int.{div_ceil};
ghost use Rattle.qc_model.specs.Instance.{IsOnRail};
ghost use Rattle.qc_rest.specs.Known.{AreKnown};
ghost use Rattle.qc_rest.specs.Limits.{AreLimited, AreTops, IsLower, IsOff, IsPlace, IsPlaced, IsReady, IsUpper, outlook_of, place_at, view_of};
ghost use Rattle.qc_rest.specs.Passed.{most_base};
ghost use Rattle.qc_rest.specs.Places.{ArePlaces, IsNextOf, IsTop};

use crate::remains::is_left;
use crate::stand::Stand;
use qc_dispatch::Followed;
use qc_model::Slot;
use qc_num::{Bay, Tick};

/// The lower of two places.
fn lower_of(one: i64, other: i64) -> i64
    ensures over { (z : ℤ) → (z ≤ℤ result) ↔ ((z ≤ℤ one) × (z ≤ℤ other)) }
    ensures under { (z : ℤ) → (result ≤ℤ z) ↔ ((one ≤ℤ z) ⊎ (other ≤ℤ z)) }
{
    if other < one { other } else { one }
}

/// The higher of two places.
fn higher_of(one: i64, other: i64) -> i64
    ensures { (z : ℤ) → (result ≤ℤ z) ↔ ((one ≤ℤ z) × (other ≤ℤ z)) }
{
    if one < other { other } else { one }
}

/// How many bays a crane can have gone by now.
fn far(now: Tick, until: Tick, travel: Tick) -> Tick
    requires { 1 ≤ travel }
    ensures bays { result ≡ (now - until) / travel }
    ensures bound { result ≤ now }
{
    now.saturating_sub(until) / travel
}

/// How many bays there are still to go until then, rounded up.
fn bays_until(goes: Tick, now: Tick, travel: Tick) -> Tick
    requires { 1 ≤ travel }
    ensures bays { result ≡ div_ceil (goes - now) travel }
    ensures bound { result ≤ goes }
{
    goes.saturating_sub(now).div_ceil(travel)
}

/// The lower of a place and of the highest one that is near enough to a task at this bay, if there are so many bays to go.
fn lowered(upper: i64, bay: Bay, off: Option<Tick>) -> i64
    requires rail { IsOnRail bay }
    requires off { IfSome off (λ off. off ≤ most_base) }
    ensures { (z : ℤ) → (z ≤ℤ result) ↔ ((z ≤ℤ upper) × IfSome off (λ off. z ≤ℤ (bay +ℤ pos off))) }
{
    match off {
        None => upper,
        Some(off) => lower_of(upper, i64::from(bay) + off as i64),
    }
}

/// The higher of a place and of the lowest one that is near enough to a task at this bay, if there are so many bays to go.
fn raised(lower: i64, bay: Bay, off: Option<Tick>) -> i64
    requires rail { IsOnRail bay }
    requires off { IfSome off (λ off. off ≤ most_base) }
    ensures { (z : ℤ) → (result ≤ℤ z) ↔ ((lower ≤ℤ z) × IfSome off (λ off. bay ≤ℤ (z +ℤ pos off))) }
{
    match off {
        None => lower,
        Some(off) => higher_of(lower, i64::from(bay) - off as i64),
    }
}

/// What is known of the work: the plan and the log, where each crane stands, and when each task that is left starts, if
/// the old order goes on.
#[derive(Clone, Copy)]
struct Outlook<'a> {
    slots: &'a [Slot],
    journal: &'a Followed,
    stands: &'a [Stand],
    goes: &'a [Tick],
}

impl Outlook<'_> {
    /// Whether a task is left to a crane that need not stay.
    fn is_next(&self, k: u16, j: u16) -> bool
        requires known { IsReady self.now }
        requires crane { k < length self.now.journal.now.dispatch.inst.cranes }
        requires task { j < length self.now.journal.now.dispatch.inst.tasks }
        ensures { IsTrue result ↔ IsNextOf (view_of self.now) k j }
    {
        let now = self.journal.dispatch.now();
        if now < self.stands[k as usize].until || self.slots[j as usize].crane != k {
            return false;
        }
        is_left(&self.journal.dispatch, j)
    }

    /// How many bays there are still to go for a task, where it is left to a crane that need not stay.
    fn off(&self, k: u16, j: u16) -> Option<Tick>
        requires known { IsReady self.now }
        requires crane { k < length self.now.journal.now.dispatch.inst.cranes }
        requires task { j < length self.now.journal.now.dispatch.inst.tasks }
        ensures off { IsOff (view_of self.now) k j result }
        ensures bound { IfSome result (λ off. off ≤ most_base) }
    {
        if !self.is_next(k, j) {
            return None;
        }
        let now = self.journal.dispatch.now();
        let travel = self.journal.dispatch.instance().travel();
        Some(bays_until(self.goes[j as usize], now, travel))
    }

    /// The highest place at which a crane can be by now and is near enough to its tasks.
    fn upper(&self, k: u16) -> i64
        requires known { IsReady self.now }
        requires crane { k < length self.now.journal.now.dispatch.inst.cranes }
        ensures { IsUpper (view_of self.now) k result }
    {
        let inst = self.journal.dispatch.instance();
        let now = self.journal.dispatch.now();
        let stand = self.stands[k as usize];
        let mut upper = i64::from(stand.bay) + far(now, stand.until, inst.travel()) as i64;
        for j in 0..inst.task_count() {
            let off = self.off(k, j);
            upper = lowered(upper, inst.task(j).bay, off);
        }
        upper
    }

    /// The highest place at which a crane leaves itself and those above it room, by the one of the next crane.
    fn top(&self, tops: &[i64], k: u16) -> i64
        requires known { IsReady self.now }
        requires crane { k < length self.now.journal.now.dispatch.inst.cranes }
        requires tops { AreTops (view_of self.now) (k + 1) tops.now }
        ensures { IsTop (view_of self.now) k result }
    {
        let inst = self.journal.dispatch.instance();
        let own = self.upper(k);
        if k + 1 == inst.crane_count() {
            return own;
        }
        lower_of(own, tops[k as usize + 1] - i64::from(inst.gap()))
    }

    /// The highest place at which each crane leaves itself and those above it room.
    fn tops(&self) -> [i64; 8]
        requires { IsReady self.now }
        ensures { AreTops (view_of self.now) 0 result }
    {
        let mut tops = [0; 8];
        let mut k = self.journal.dispatch.instance().crane_count();
        while 0 < k {
            k -= 1;
            tops[k as usize] = self.top(&tops, k);
        }
        tops
    }

    /// The lowest place at which a crane hasn't gone down but to leave room, and is near enough to its tasks.
    fn lower(&self, tops: &[i64], k: u16) -> i64
        requires known { IsReady self.now }
        requires crane { k < length self.now.journal.now.dispatch.inst.cranes }
        requires tops { AreTops (view_of self.now) 0 tops.now }
        ensures lower { IsLower (view_of self.now) (place_at tops.now) k result }
        ensures near { IsPlace 0 result }
    {
        let inst = self.journal.dispatch.instance();
        let stand = i64::from(self.stands[k as usize].bay);
        let mut lower = lower_of(stand, tops[k as usize]);
        for j in 0..inst.task_count() {
            let off = self.off(k, j);
            lower = raised(lower, inst.task(j).bay, off);
        }
        lower
    }

    /// The lowest place that is high enough for a crane, by that of the one below it.
    fn place(&self, tops: &[i64], places: &[i64], k: u16) -> i64
        requires known { IsReady self.now }
        requires crane { k < length self.now.journal.now.dispatch.inst.cranes }
        requires tops { AreTops (view_of self.now) 0 tops.now }
        requires count { length places.now ≡ 8 }
        requires below { (v : ℕ) → v < k → IsPlace v (place_at places.now v) }
        ensures { IsPlaced (view_of self.now) (place_at tops.now) (place_at places.now) k result }
    {
        let own = self.lower(tops, k);
        if k == 0 {
            return own;
        }
        let gap = i64::from(self.journal.dispatch.instance().gap());
        higher_of(own, places[k as usize - 1] + gap)
    }
}

/// Where each crane begins.
pub(crate) fn places_of(
    slots: &[Slot],
    journal: &Followed,
    stands: &[Stand],
    goes: &[Tick],
) -> [i64; 8]
    requires known { AreKnown journal.now }
    requires plan { slots.now ≡ journal.now.dispatch.plan }
    requires count { length stands.now ≡ length journal.now.dispatch.inst.cranes }
    requires goes { length goes.now ≡ length journal.now.dispatch.inst.tasks }
    requires limited { AreLimited stands.now goes.now }
    ensures places { (tops : ℕ → ℤ) × ArePlaces (outlook_of journal.now stands.now goes.now) tops (place_at result) }
    ensures near { (k : ℕ) → k < length journal.now.dispatch.inst.cranes → IsPlace k (place_at result k) }
{
    let outlook = Outlook {
        slots,
        journal,
        stands,
        goes,
    };
    let tops = outlook.tops();
    let mut places = [0; 8];
    for k in 0..journal.dispatch.instance().crane_count() {
        places[k as usize] = outlook.place(&tops, &places, k);
    }
    places
}
