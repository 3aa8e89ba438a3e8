//! The report of an instance's tasks and of the rules between them.
ghost use Rattle.std.specs.Prelude.{◌≡◌, ◌≤◌, ◌<◌, ℕ, ◌++◌, codes, length, Contains};
ghost use Rattle.std.specs.List.{flat_map};
ghost use Rattle.qc_io.specs.Writes.{Writes};
ghost use Rattle.qc_model.specs.Instance.{pair_of};
ghost use Rattle.qc_tasks.specs.TasksText.{task_line, pair_line, release_line, total_line, tasks_text};

use qc_io::{Sink, WriteFault, put_all};
use qc_model::{Instance, Pair, Task};
use qc_num::Text;

/// The line of a task.
fn task_line(task: &Task) -> Text<64>
    ensures { result ≡ task_line task.now }
{
    let mut line = Text::of(b"task ");
    line.push(task.text().as_bytes());
    line.push(b" ");
    line.push_signed(i64::from(task.bay));
    line.push(b" ");
    line.push_number(task.ticks);
    line.push(b"\n");
    line
}

/// The line of a pair, with a title before the names.
fn pair_line(inst: &Instance, title: &[u8], pair: &Pair) -> Text<32>
    requires title { length title.now ≤ 8 }
    requires first { pair.now.first < length inst.now.tasks }
    requires second { pair.now.second < length inst.now.tasks }
    ensures { result ≡ pair_line inst.now title.now pair.now }
{
    let tasks = inst.tasks();
    let mut line = Text::of(title);
    line.push(tasks[pair.first as usize].text().as_bytes());
    line.push(b" ");
    line.push(tasks[pair.second as usize].text().as_bytes());
    line.push(b"\n");
    line
}

/// The line of the tick before which a task doesn't start; empty where it may start at any.
fn release_line(task: &Task) -> Text<64>
    ensures { result ≡ release_line task.now }
{
    if task.release == 0 {
        return Text::of(b"");
    }
    let mut line = Text::of(b"not_before ");
    line.push(task.text().as_bytes());
    line.push(b" ");
    line.push_number(task.release);
    line.push(b"\n");
    line
}

/// The line of the length of all tasks.
fn total_line(inst: &Instance) -> Text<32>
    ensures { result ≡ total_line inst.now }
{
    let mut line = Text::of(b"total ");
    line.push_number(inst.work());
    line.push(b"\n");
    line
}

/// Writes the lines of tasks.
fn put_tasks<K: Sink>(tasks: &[Task], sink: &mut K) -> Result<(), WriteFault>
    ensures { Writes (K.view sink.old) (K.view sink.new) (flat_map task_line tasks.now) result }
{
    for task in tasks {
        put_all(sink, task_line(task).as_bytes())?;
    }
    Ok(())
}

/// Writes the lines of the ticks before which tasks don't start.
fn put_releases<K: Sink>(tasks: &[Task], sink: &mut K) -> Result<(), WriteFault>
    ensures { Writes (K.view sink.old) (K.view sink.new) (flat_map release_line tasks.now) result }
{
    for task in tasks {
        put_all(sink, release_line(task).as_bytes())?;
    }
    Ok(())
}

/// Writes the lines of pairs, each with the title before it.
fn put_pairs<K: Sink>(
    inst: &Instance,
    title: &[u8],
    pairs: &[Pair],
    sink: &mut K,
) -> Result<(), WriteFault>
    requires title { length title.now ≤ 8 }
    requires tasks { (i j : ℕ) → Contains pairs.now (pair_of i j)
        → (i < length inst.now.tasks) × (j < length inst.now.tasks) }
    ensures { Writes (K.view sink.old) (K.view sink.new)
        (flat_map (pair_line inst.now title.now) pairs.now) result }
{
    for pair in pairs {
        put_all(sink, pair_line(inst, title, pair).as_bytes())?;
    }
    Ok(())
}

/// Writes the lines of what holds tasks back, and that of their length.
fn put_last<K: Sink>(inst: &Instance, sink: &mut K) -> Result<(), WriteFault>
    ensures { Writes (K.view sink.old) (K.view sink.new)
        (flat_map release_line inst.now.tasks ++ total_line inst.now) result }
{
    put_releases(inst.tasks(), sink)?;
    put_all(sink, total_line(inst).as_bytes())
}

/// Writes the lines of the rules between tasks, and those behind them.
fn put_rules<K: Sink>(inst: &Instance, sink: &mut K) -> Result<(), WriteFault>
    ensures { Writes (K.view sink.old) (K.view sink.new)
        (flat_map (pair_line inst.now (codes "before ")) inst.now.before
        ++ (flat_map (pair_line inst.now (codes "apart ")) inst.now.apart
        ++ (flat_map release_line inst.now.tasks ++ total_line inst.now))) result }
{
    put_pairs(inst, b"before ", inst.before(), sink)?;
    put_pairs(inst, b"apart ", inst.apart(), sink)?;
    put_last(inst, sink)
}

/// Writes the report of the tasks: each task's name, its crane bay and its length in ticks, each pair
/// of which the first task ends before the second starts, each pair that may not run at the same time,
/// each task that doesn't start before some tick, with it, and the length of all tasks together. It takes no memory. After `WriteFault` a part of the report
/// was written, from its front, that isn't the whole report.
pub fn write_tasks<K: Sink>(inst: &Instance, sink: &mut K) -> Result<(), WriteFault>
    ensures { Writes (K.view sink.old) (K.view sink.new) (tasks_text inst.now) result }
{
    put_tasks(inst.tasks(), sink)?;
    put_rules(inst, sink)
}
