//! Tasks that may bar the way of cranes next to theirs.

ghost use Rattle.std.specs.Prelude.{◌≡◌, ◌+◌, ◌-◌, ◌*◌, ◌<◌, ◌≤◌, ◌^◌, List, Option, ℕ, IfOk, filter, length, replicate, slice_index, slice_set};
ghost use Rattle.qc_close.specs.Model.{no_cranes, task_numbers};
ghost use Rattle.qc_close.specs.Bars.{AreSmall, AreSums, Changes, Everywhere, From, IsTable, UpTo, bars_of, joined, no_bars, own_in, row_at, sum_before, sum_from};
ghost use Rattle.qc_close.specs.Spots.{AreSoonest, AreSpots};

use crate::frames::Own;
use crate::spots::Spots;
use qc_model::{Instance, Task};
use qc_num::{Bay, OutOfMemory, Tick};
use std::alloc::Global;

/// Some tasks: their ticks, when the first of them can start at the least, and the bays of the lowest and
/// the highest of them.
#[derive(Clone, Copy)]
pub(crate) struct Bars {
    pub(crate) ticks: Tick,
    pub(crate) soonest: Tick,
    pub(crate) low: Bay,
    pub(crate) high: Bay,
}

/// The least start of no tasks: later than any.
pub(crate) const NEVER: Tick = 1_000_000_000_000;

/// No tasks: their lowest bay lies above any, and their highest below.
const NOTHING: Bars = Bars {
    ticks: 0,
    soonest: NEVER,
    low: 1_000_000,
    high: -1_000_000,
};

/// What the tasks of each crane come to: ten rows, of which the first and the last are those of no crane.
#[derive(Drop)]
pub(crate) struct Table {
    /// Those at each spot: 240 for a row.
    pub(crate) grid: Vec<Bars>,
    /// Those before each spot: 241 for a row.
    pub(crate) before: Vec<Bars>,
    /// Those from each spot on: 241 for a row.
    pub(crate) from: Vec<Bars>,
}

/// These tasks and those.
pub(crate) fn joined(one: Bars, other: Bars) -> Bars
    requires one { one.ticks < 2 ^ 60 }
    requires other { other.ticks < 2 ^ 60 }
    ensures { result ≡ joined one other }
{
    Bars {
        ticks: one.ticks + other.ticks,
        soonest: one.soonest.min(other.soonest),
        low: one.low.min(other.low),
        high: one.high.max(other.high),
    }
}

/// They as a crane's own, if there are any.
pub(crate) fn own_in(bars: Bars) -> Option<Own>
    ensures { result ≡ own_in bars }
{
    if bars.ticks == 0 {
        None
    } else {
        Some(Own {
            ticks: bars.ticks,
            low: bars.low,
            high: bars.high,
        })
    }
}

/// So many entries for no tasks.
fn nothings(alloc: Global, count: usize) -> Result<Vec<Bars>, OutOfMemory>
    requires { count < 2 ^ 16 }
    ensures { IfOk result (λ bars. bars.items ≡ replicate count no_bars) }
{
    Ok(vec![in alloc; NOTHING; count]?)
}

/// A table without rows.
pub(crate) fn no_table(alloc: Global) -> Table {
    Table {
        grid: Vec::new(alloc),
        before: Vec::new(alloc),
        from: Vec::new(alloc),
    }
}

/// The table of an instance of which no task has a crane.
pub(crate) fn table_of(alloc: Global, inst: &Instance, spots: &Spots) -> Result<Table, OutOfMemory>
    requires { AreSpots inst.now spots.now }
    ensures { IfOk result (λ table. IsTable inst.now (no_cranes inst.now) spots.now table) }
{
    let _tasks = inst.task_count(); // for what it ensures
    Ok(Table {
        grid: nothings(alloc, 2400)?,
        before: nothings(alloc, 2410)?,
        from: nothings(alloc, 2410)?,
    })
}

/// Whether a task is one of a row at a spot.
fn is_at(cranes: &[Option<u16>], spots: &[u16], task: u16, row: usize, spot: usize) -> bool
    requires crane { task < length cranes.now }
    requires spot { task < length spots.now }
    ensures { result ≡ row_at cranes.now spots.now row spot task }
{
    match cranes[task as usize] {
        None => false,
        Some(crane) => crane as usize + 1 == row && spots[task as usize] as usize == spot,
    }
}

/// One task, that can start at the least then.
fn one_bars(task: Task, soonest: Tick) -> Bars
    ensures ticks { result.ticks ≡ task.ticks }
    ensures soonest { result.soonest ≡ soonest }
    ensures low { result.low ≡ task.bay }
    ensures high { result.high ≡ task.bay }
{
    Bars {
        ticks: task.ticks,
        soonest,
        low: task.bay,
        high: task.bay,
    }
}

/// What the tasks of a row at a spot come to, which all lie from one number to before another.
fn bars_at(
    inst: &Instance,
    cranes: &[Option<u16>],
    spots: &[u16],
    soonest: &[Tick],
    row: usize,
    spot: usize,
    first: u16,
    behind: u16,
) -> Bars
    requires count { length cranes.now ≡ length inst.now.tasks }
    requires spots { length spots.now ≡ length inst.now.tasks }
    requires soonest { AreSoonest inst.now cranes.now soonest.now }
    requires row { 0 < row }
    requires within { (j : ℕ) → j < length spots.now → slice_index spots.now j ≡ spot
        → (first ≤ j) × (j < behind) }
    requires behind { behind ≤ length inst.now.tasks }
    requires few { behind ≤ 240 }
    ensures bars { result ≡ bars_of inst.now cranes.now
        (filter (row_at cranes.now spots.now row spot) (task_numbers inst.now)) }
    ensures small { result.ticks < 2 ^ 38 }
{
    let mut bars = NOTHING;
    for done in 0..behind.saturating_sub(first) {
        let task = behind - 1 - done;
        if is_at(cranes, spots, task, row, spot) {
            let one = one_bars(inst.task(task), soonest[task as usize]);
            bars = joined(one, bars);
        }
    }
    bars
}

/// Sums up a row again, behind a spot, before each spot.
fn sum_behind(grid: &[Bars], row: usize, spot: usize, count: usize, before: &mut [Bars])
    requires row { row < 10 }
    requires spot { spot ≤ count }
    requires count { count ≤ 240 }
    requires many { length grid.now ≡ 2400 }
    requires small { AreSmall grid.now }
    requires known { AreSums (UpTo row spot) (sum_before grid.now) count before.old }
    ensures { AreSums Everywhere (sum_before grid.now) count before.new }
{
    let mut sum = before[241 * row + spot];
    for k in spot..count {
        sum = joined(sum, grid[240 * row + k]);
        before[241 * row + k + 1] = sum;
    }
}

/// Sums up a row again, up to a spot, from each spot on.
fn sum_up_to(grid: &[Bars], row: usize, spot: usize, count: usize, from: &mut [Bars])
    requires row { row < 10 }
    requires spot { spot < count }
    requires count { count ≤ 240 }
    requires many { length grid.now ≡ 2400 }
    requires small { AreSmall grid.now }
    requires known { AreSums (From row (spot + 1)) (λ r k. sum_from grid.now r k (count - k)) count from.old }
    ensures { AreSums Everywhere (λ r k. sum_from grid.now r k (count - k)) count from.new }
{
    let mut sum = from[241 * row + spot + 1];
    for done in 0..spot + 1 {
        let k = spot - done;
        sum = joined(grid[240 * row + k], sum);
        from[241 * row + k] = sum;
    }
}

/// Puts what tasks come to into the table.
fn put_bars(table: &mut Table, row: usize, spot: usize, count: usize, bars: Bars)
    requires row { row < 10 }
    requires spot { spot < count }
    requires count { count ≤ 240 }
    requires bars { bars.ticks < 2 ^ 38 }
    requires many { length table.old.grid.items ≡ 2400 }
    requires small { AreSmall table.old.grid.items }
    requires before { AreSums Everywhere (sum_before table.old.grid.items) count table.old.before.items }
    requires from { AreSums Everywhere
        (λ r k. sum_from table.old.grid.items r k (count - k)) count table.old.from.items }
    ensures grid { table.new.grid.items ≡ slice_set table.old.grid.items (240 * row + spot) bars }
    ensures small { AreSmall table.new.grid.items }
    ensures before { AreSums Everywhere (sum_before table.new.grid.items) count table.new.before.items }
    ensures from { AreSums Everywhere
        (λ r k. sum_from table.new.grid.items r k (count - k)) count table.new.from.items }
{
    table.grid[240 * row + spot] = bars;
    sum_behind(
        table.grid.as_slice(),
        row,
        spot,
        count,
        table.before.as_mut_slice(),
    );
    sum_up_to(
        table.grid.as_slice(),
        row,
        spot,
        count,
        table.from.as_mut_slice(),
    );
}

/// Keeps a table where a task has got this crane, or has lost it.
pub(crate) fn keep_table(
    table: &mut Table,
    inst: &Instance,
    cranes: &[Option<u16>],
    spots: &Spots,
    soonest: &[Tick],
    task: u16,
    crane: u16,
)
    requires count { length cranes.now ≡ length inst.now.tasks }
    requires spots { AreSpots inst.now spots.now }
    requires soonest { AreSoonest inst.now cranes.now soonest.now }
    requires task { task < length inst.now.tasks }
    requires crane { crane < length inst.now.cranes }
    requires was { (olds : List (Option ℕ)) × IsTable inst.now olds spots.now table.old
        × Changes olds cranes.now task crane }
    ensures { (olds : List (Option ℕ)) → IsTable inst.now olds spots.now table.old
        → Changes olds cranes.now task crane → IsTable inst.now cranes.now spots.now table.new }
{
    let _cranes = inst.crane_count(); // for what it ensures
    let row = crane as usize + 1;
    let spot = spots.of_task[task as usize] as usize;
    let bars = bars_at(
        inst,
        cranes,
        spots.of_task.as_slice(),
        soonest,
        row,
        spot,
        spots.first_task[spot],
        spots.behind_task[spot].min(inst.task_count()),
    );
    put_bars(table, row, spot, spots.bays.len(), bars);
}
