//! Writing the Gantt text of a schedule.
ghost use Rattle.std.specs.Prelude.{◌≡◌, ◌≤◌, ◌<◌, ◌+◌, ◌++◌, codes, length};
ghost use Rattle.std.specs.List.{flat_map, range_with_len};
ghost use Rattle.qc_io.specs.Writes.{Writes};
ghost use Rattle.qc_model.specs.declared.limits.TheConstants.{MOST_END};
ghost use Rattle.qc_model.specs.Judge.{IsJudgeable};
ghost use Rattle.qc_model.specs.Rules.{ends};
ghost use Rattle.qc_gantt.specs.GanttText.{gantt_line, gantt_text, gantt_title, in_places, is_at, letter, mark};

use qc_io::{Sink, WriteFault, put_all};
use qc_model::{Instance, Name, Phase, Schedule, Slot, Task, ends};
use qc_num::{Text, Tick};

/// How many characters a crane's line has between its bars.
const MARKS: u64 = 60;

/// The places that a crane's name takes.
const SPACES: &[u8; 12] = b"            ";

fn letter(phase: Phase) -> u8
    ensures { result ≡ letter phase }
{
    match phase {
        Phase::DeckOut => b'D',
        Phase::HoldOut => b'd',
        Phase::HoldIn => b'l',
        Phase::DeckIn => b'L',
    }
}

/// Whether the crane is at the task at the tick.
fn is_at(crane: u16, at: Tick, task: &Task, slot: &Slot) -> bool
    ensures { result ≡ is_at crane at task.now slot.now }
{
    slot.crane == crane && slot.start <= at && at - slot.start < task.ticks
}

/// What stands for a crane at a tick.
fn mark(inst: &Instance, sched: &Schedule, crane: u16, at: Tick) -> u8
    ensures { result ≡ mark inst.now sched.now crane at }
{
    for (task, slot) in inst.tasks().iter().zip(sched.slots()) {
        if is_at(crane, at, task, slot) {
            return letter(task.phase);
        }
    }
    b'.'
}

/// A crane's name in its places, and the first bar.
fn line_head(name: &Name) -> Text<96>
    ensures head { result ≡ in_places name.now ++ codes "|" }
    ensures length { length result ≡ 13 }
{
    let mut head: Text<96> = Text::of(name.as_bytes());
    head.push(&SPACES[..SPACES.len() - name.as_bytes().len()]);
    head.push(b"|");
    head
}

/// The line of a crane.
fn gantt_line(inst: &Instance, sched: &Schedule, crane: u16, end: Tick) -> Text<96>
    requires crane { crane < length inst.now.cranes }
    requires end { end ≡ ends inst.now sched.now }
    requires soon { end ≤ MOST_END }
    ensures { result ≡ gantt_line inst.now sched.now crane }
{
    let mut line = line_head(&inst.cranes()[crane as usize].name);
    for place in 0..MARKS {
        line.push(&[mark(inst, sched, crane, place * end / MARKS)]);
    }
    line.push(b"|\n");
    line
}

fn gantt_title(end: Tick) -> Text<32>
    ensures { result ≡ gantt_title end }
{
    let mut title: Text<32> = Text::of(b"gantt ");
    title.push_number(end);
    title.push(b"\n");
    title
}

fn put_lines<K: Sink>(
    inst: &Instance,
    sched: &Schedule,
    end: Tick,
    sink: &mut K,
) -> Result<(), WriteFault>
    requires end { end ≡ ends inst.now sched.now }
    requires soon { end ≤ MOST_END }
    ensures { Writes (K.view sink.old) (K.view sink.new)
        (flat_map (gantt_line inst.now sched.now) (range_with_len 0 (length inst.now.cranes))) result }
{
    for crane in 0..inst.cranes().len() as u16 {
        put_all(sink, gantt_line(inst, sched, crane, end).as_bytes())?;
    }
    Ok(())
}

/// Writes the Gantt text of a schedule: the line `gantt E` with its end in ticks, and for each crane
/// its name in 12 places and, between bars, 60 characters, of which the character c, from 0, stands
/// for the tick `c * E / 60`, rounded down: the letter of the task that the crane has at that tick
/// (`D` deck discharge, `d` hold discharge, `l` hold load, `L` deck load), or a dot.
#[tactic(auto, using(qc_io::proofs::WritesLemmas::writes_then, qc_io::proofs::WritesLemmas::writes_cut))]
pub fn write_gantt<K: Sink>(
    inst: &Instance,
    sched: &Schedule,
    sink: &mut K,
) -> Result<(), WriteFault>
    requires { IsJudgeable inst.now sched.now }
    ensures { Writes (K.view sink.old) (K.view sink.new)
        (gantt_text inst.now sched.now) result }
{
    let end = ends(inst, sched);
    put_all(sink, gantt_title(end).as_bytes())?;
    put_lines(inst, sched, end, sink)
}
