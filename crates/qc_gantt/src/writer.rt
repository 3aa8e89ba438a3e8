//! Writing a plan file.
ghost use Rattle.std.specs.Prelude.{◌≡◌, ◌+◌, ◌<◌, ◌^◌, ℕ, IsTrue, Ok, OnOk, length};
ghost use Rattle.qc_io.specs.Writes.{Writes};
ghost use Rattle.qc_model.specs.Instance.{Valid, crane, task};
ghost use Rattle.qc_model.specs.Judge.{IsJudgeable};
ghost use Rattle.qc_model.specs.Names.{is_name};
ghost use Rattle.qc_model.specs.Rules.{crane_of};
ghost use Rattle.qc_gantt.specs.Plan.{HasShortEnds, plan_in};
ghost use Rattle.qc_gantt.specs.PlanText.{plan_line, plan_text};
ghost use Rattle.std.specs.List.{flat_map, zip};

use qc_io::{Sink, WriteFault, put_all};
use qc_model::{Instance, Schedule, Slot, Task};
use qc_num::Text;

const HEADER: &[u8] = b"task,crane,start,end\n";

/// Writes the line of a task.
fn put_line<K: Sink>(
    inst: &Instance,
    task: &Task,
    slot: &Slot,
    sink: &mut K,
) -> Result<(), WriteFault>
    requires crane { slot.now.crane < length inst.now.cranes }
    requires end { slot.now.start + task.now.ticks < 2 ^ 64 }
    ensures writes { Writes (K.view sink.old) (K.view sink.new)
        (plan_line inst.now task.now slot.now) result }
    ensures hatch { task.now.hatch < 2 ^ 16 }
    ensures name { IsTrue (is_name (crane inst.now slot.now.crane).name) }
{
    prove!(task.hatch <= u16::MAX);
    let crane = &inst.cranes()[slot.crane as usize];
    let mut line: Text<64> = Text::of(task.text().as_bytes());
    line.push(b",");
    line.push(crane.name.as_bytes());
    line.push(b",");
    line.push_number(slot.start);
    line.push(b",");
    line.push_number(slot.start + task.ticks);
    line.push(b"\n");
    put_all(sink, line.as_bytes())
}

fn put_lines<K: Sink>(inst: &Instance, sched: &Schedule, sink: &mut K) -> Result<(), WriteFault>
    requires { IsJudgeable inst.now sched.now }
    ensures writes { Writes (K.view sink.old) (K.view sink.new)
        (flat_map (λ line. plan_line inst.now line.0 line.1) (zip inst.now.tasks sched.now)) result }
    ensures valid { Valid inst.now }
    ensures hatches { OnOk result
        ((j : ℕ) → j < length inst.now.tasks → (task inst.now j).hatch < 2 ^ 16) }
    ensures names { OnOk result ((j : ℕ) → j < length inst.now.tasks
        → IsTrue (is_name (crane inst.now (crane_of sched.now j)).name)) }
{
    for (task, slot) in inst.tasks().iter().zip(sched.slots()) {
        put_line(inst, task, slot, sink)?;
    }
    Ok(())
}

/// Writes the plan file of a schedule: the header, and for each task in task order its name, its
/// crane's name, its start and its end in ticks. `read_plan` reads it as this schedule, where all ends
/// have at most 12 digits.
#[tactic(auto, using(qc_io::proofs::WritesLemmas::writes_then, qc_io::proofs::WritesLemmas::writes_cut))]
pub fn write_plan<K: Sink>(
    inst: &Instance,
    sched: &Schedule,
    sink: &mut K,
) -> Result<(), WriteFault>
    requires { IsJudgeable inst.now sched.now }
    ensures writes { Writes (K.view sink.old) (K.view sink.new)
        (plan_text inst.now sched.now) result }
    ensures reread { OnOk result (HasShortEnds inst.now sched.now
        → plan_in inst.now (plan_text inst.now sched.now) ≡ Ok sched.now) }
{
    put_all(sink, HEADER)?;
    put_lines(inst, sched, sink)
}
