//! How far along the rail cranes stand, in ticks of travel.

ghost use Rattle.std.specs.Prelude.{◌+◌, ◌<◌, ◌≤◌, length};
ghost use Rattle.qc_model.specs.Instance.{Valid};
ghost use Rattle.qc_model.specs.declared.limits.TheConstants.{MOST_DISTANCE, MOST_READY};

use qc_model::{Instance, MOST_CRANES, bays_up, travel_over};
use qc_num::Tick;

/// How many bays neighbouring cranes are apart at least.
fn gap_bays(inst: &Instance) -> Tick
    ensures bound { result ≤ 2000 }
    ensures valid { Valid inst.now }
{
    bays_up(0, inst.gap())
}

/// By how many bays the rail of a crane is shifted: a gap for itself and each crane place above it.
fn shift_bays(inst: &Instance, crane: u16) -> Tick
    requires { crane < length inst.now.cranes }
    ensures { result ≤ 16000 }
{
    let gap = gap_bays(inst);
    gap * Tick::from(MOST_CRANES - crane)
}

/// The same in ticks of travel.
pub(crate) fn shift(inst: &Instance, crane: u16) -> i64
    requires { crane < length inst.now.cranes }
{
    travel_over(inst, shift_bays(inst, crane)) as i64
}

/// How far along the rail a crane stands until it is ready; 0 bays where it stands ahead of the ship.
fn stand(inst: &Instance, crane: u16) -> Tick
    requires { crane < length inst.now.cranes }
    ensures { result ≤ MOST_DISTANCE }
{
    travel_over(
        inst,
        bays_up(0, inst.post(crane).bay) + shift_bays(inst, crane),
    )
}

/// When a crane is ready, and comes to the ship where it stands ahead of it.
fn entry(inst: &Instance, crane: u16) -> Tick
    requires { crane < length inst.now.cranes }
    ensures { result ≤ MOST_READY + MOST_DISTANCE }
{
    let post = inst.post(crane);
    post.ready + travel_over(inst, bays_up(post.bay, 0))
}

/// The front of a crane that has done nothing: when it is ready, less how far along the rail it stands.
pub(crate) fn first_front(inst: &Instance, crane: u16) -> i64
    requires { crane < length inst.now.cranes }
{
    entry(inst, crane) as i64 - stand(inst, crane) as i64
}

/// When a crane is ready, and how far along the ship it stands then, both together in ticks.
fn berth(inst: &Instance, crane: u16) -> i64
    requires { crane < length inst.now.cranes }
{
    let post = inst.post(crane);
    let behind = travel_over(inst, bays_up(post.bay, 0));
    let ahead = travel_over(inst, bays_up(0, post.bay));
    (post.ready + ahead) as i64 - behind as i64
}

/// Where the cranes of an instance stand, crane by crane, and the gap between neighbours, in ticks of travel.
#[derive(Clone, Copy)]
pub(crate) struct Stands {
    pub(crate) shifts: [i64; MOST_CRANES as usize],
    pub(crate) berths: [i64; MOST_CRANES as usize],
    pub(crate) gap: i64,
}

/// Where the cranes of this instance stand.
pub(crate) fn stands_of(inst: &Instance) -> Stands {
    let mut stands = Stands {
        shifts: [0; MOST_CRANES as usize],
        berths: [0; MOST_CRANES as usize],
        gap: travel_over(inst, gap_bays(inst)) as i64,
    };
    for crane in 0..inst.crane_count() {
        stands.shifts[crane as usize] = shift(inst, crane);
        stands.berths[crane as usize] = berth(inst, crane);
    }
    stands
}
