//! What is printed of the cranes and the tasks of many runs.
ghost use Rattle.std.specs.Prelude.{◌≡◌, ◌<◌, ◌≤◌, length};
ghost use Rattle.std.specs.List.{flat_map, range_with_len};
ghost use Rattle.qc_io.specs.Writes.{Writes};
ghost use Rattle.qc_model.specs.Judge.{IsJudgeable};
ghost use Rattle.qc_odds.specs.Small.{IsSmallCrane, IsSmallTask};
ghost use Rattle.qc_odds_command.specs.Counted.{CanBeCounted, CanBeSummed};
ghost use Rattle.qc_odds_command.specs.Texts.{crane_line, crane_sum_line, sums_text, task_line, task_sum_line};

use qc_io::{Sink, WriteFault, put_all};
use qc_model::{Instance, Name, Schedule, TaskText};
use qc_num::Text;
use qc_odds::{CraneSum, Odds, TaskSum};

/// A crane: when it is through, for how long it waits, and the chance that it is through last.
fn crane_sum_line(name: &Name, runs: u16, sum: CraneSum) -> Text<128>
    requires some { 1 ≤ runs }
    requires small { IsSmallCrane runs sum }
    ensures { result ≡ crane_sum_line name.now runs sum }
{
    let mut line = Text::of(b"crane ");
    line.push(name.as_bytes());
    line.push(b" ");
    line.push_number(sum.mean_end(runs));
    line.push(b" ");
    line.push_number(sum.mean_held(runs));
    line.push(b" ");
    line.push_number(u64::from(sum.last_chance(runs)));
    line.push(b"\n");
    line
}

/// A task: its crane, the chance that it is critical, and by how much it takes longer than planned where it is.
fn task_sum_line(name: &TaskText, crane: &Name, runs: u16, sum: TaskSum) -> Text<128>
    requires some { 1 ≤ runs }
    requires small { IsSmallTask runs sum }
    ensures { result ≡ task_sum_line name.now crane.now runs sum }
{
    let mut line = Text::of(b"critical ");
    line.push(name.as_bytes());
    line.push(b" ");
    line.push(crane.as_bytes());
    line.push(b" ");
    line.push_number(u64::from(sum.critical_chance(runs)));
    line.push(b" ");
    line.push_number(sum.mean_over(runs));
    line.push(b"\n");
    line
}

/// The line of a crane, by its number.
fn crane_line(inst: &Instance, odds: &Odds, crane: u16) -> Text<128>
    requires counted { CanBeCounted odds.now.tally.ends }
    requires summed { CanBeSummed inst.now odds.now }
    requires crane { crane < length inst.now.cranes }
    ensures { result ≡ crane_line inst.now (length odds.now.tally.ends) odds.now.cranes.items crane }
{
    crane_sum_line(
        &inst.crane(crane).name,
        odds.tally.runs(),
        odds.cranes[crane as usize],
    )
}

/// The line of a task, by its number.
fn task_line(inst: &Instance, plan: &Schedule, odds: &Odds, task: u16) -> Text<128>
    requires judgeable { IsJudgeable inst.now plan.now }
    requires counted { CanBeCounted odds.now.tally.ends }
    requires summed { CanBeSummed inst.now odds.now }
    requires task { task < length inst.now.tasks }
    ensures { result ≡ task_line inst.now plan.now (length odds.now.tally.ends) odds.now.tasks.items task }
{
    let crane = plan.slots()[task as usize].crane;
    task_sum_line(
        &inst.task(task).text(),
        &inst.crane(crane).name,
        odds.tally.runs(),
        odds.tasks[task as usize],
    )
}

/// Writes the lines of all cranes.
fn put_cranes<K: Sink>(inst: &Instance, odds: &Odds, sink: &mut K) -> Result<(), WriteFault>
    requires counted { CanBeCounted odds.now.tally.ends }
    requires summed { CanBeSummed inst.now odds.now }
    ensures { Writes (K.view sink.old) (K.view sink.new)
        (flat_map (crane_line inst.now (length odds.now.tally.ends) odds.now.cranes.items)
        (range_with_len 0 (length inst.now.cranes))) result }
{
    for crane in 0..inst.crane_count() {
        put_all(sink, crane_line(inst, odds, crane).as_bytes())?;
    }
    Ok(())
}

/// Writes the lines of the tasks to watch.
fn put_watched<K: Sink>(
    inst: &Instance,
    plan: &Schedule,
    odds: &Odds,
    sink: &mut K,
) -> Result<(), WriteFault>
    requires judgeable { IsJudgeable inst.now plan.now }
    requires counted { CanBeCounted odds.now.tally.ends }
    requires summed { CanBeSummed inst.now odds.now }
    ensures { Writes (K.view sink.old) (K.view sink.new)
        (flat_map (task_line inst.now plan.now (length odds.now.tally.ends) odds.now.tasks.items)
        odds.now.watched.items) result }
{
    for task in odds.watched.as_slice() {
        put_all(sink, task_line(inst, plan, odds, *task).as_bytes())?;
    }
    Ok(())
}

/// Writes what the runs come to for each crane, and for the tasks to watch.
#[tactic(auto, using(qc_io::proofs::WritesLemmas::writes_cut))]
pub(crate) fn put_sums<K: Sink>(
    inst: &Instance,
    plan: &Schedule,
    odds: &Odds,
    sink: &mut K,
) -> Result<(), WriteFault>
    requires judgeable { IsJudgeable inst.now plan.now }
    requires counted { CanBeCounted odds.now.tally.ends }
    requires summed { CanBeSummed inst.now odds.now }
    ensures { Writes (K.view sink.old) (K.view sink.new)
        (sums_text inst.now plan.now (length odds.now.tally.ends) odds.now) result }
{
    put_cranes(inst, odds, sink)?;
    put_watched(inst, plan, odds, sink)
}
