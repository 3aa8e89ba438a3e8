//! What is told of a plan that breaks a rule.
ghost use Rattle.std.specs.Prelude.{◌≡◌, ◌<◌, ◌≤◌, ◌+◌, ◌++◌, Some, length};
ghost use Rattle.qc_model.specs.Instance.{task};
ghost use Rattle.qc_model.specs.Tasks.{task_text};
ghost use Rattle.qc_run.specs.declared.ended.Cause.TheVariants as cause;
ghost use Rattle.qc_run.specs.declared.status.Status.TheVariants as status;
ghost use Rattle.qc_run.specs.Broken.{broken_text, tasks_named};
ghost use Rattle.qc_run.specs.Reports.{Prints, PrintsPart, Reports};

use crate::ended::{Cause, Ended};
use crate::report::report_text;
use crate::status::Status;
use qc_io::Sink;
use qc_model::{Break, Instance, Rule, TaskText};
use qc_num::Text;

/// What is told of a plan that breaks a rule.
#[derive(Drop)]
pub struct Broken {
    pub rule: Rule,
    /// The name of the task, or of the lower one of the two.
    pub first: TaskText,
    /// The name of the higher task; the same name where the rule speaks of one task.
    pub second: TaskText,
}

/// What is told of a break.
pub fn broken_of(inst: &Instance, broken: Break) -> Broken
    requires first { broken.first < length inst.now.tasks }
    requires second { broken.second < length inst.now.tasks }
    ensures rule { result.rule ≡ broken.rule }
    ensures first { result.first ≡ task_text (task inst.now broken.first) }
    ensures second { result.second ≡ task_text (task inst.now broken.second) }
{
    let tasks = inst.tasks();
    Broken {
        rule: broken.rule,
        first: tasks[broken.first as usize].text(),
        second: tasks[broken.second as usize].text(),
    }
}

/// Puts the names of the task or of the two tasks at which the rule is broken behind the text.
fn push_tasks(told: &Broken, text: &mut Text<64>)
    requires { length text.old ≤ 32 }
    ensures text { text.new ≡ text.old ++ tasks_named told.now.rule told.now.first told.now.second }
    ensures length { length text.new ≤ length text.old + 17 }
{
    match told.rule {
        Rule::Reach | Rule::Ready | Rule::Berth => text.push(told.first.as_bytes()),
        Rule::Travel | Rule::Before | Rule::Apart | Rule::Margin | Rule::OneWay => {
            text.push(told.first.as_bytes());
            text.push(b" ");
            text.push(told.second.as_bytes());
        }
    }
}

/// What is told of a plan that breaks a rule.
fn broken_text(told: &Broken) -> Text<64>
    ensures { result ≡ broken_text told.now }
{
    let mut text = Text::of(b"Broken ");
    text.push(told.rule.text());
    text.push(b" ");
    push_tasks(told, &mut text);
    text.push(b"\n");
    text
}

/// Prints what is told of a plan that breaks a rule, and hands it on.
pub fn report_broken<K: Sink>(told: Broken, out: &mut K) -> Ended
    ensures report { Reports (Prints (broken_text told)) (PrintsPart (broken_text told)) status.Broken
        (K.view out.old) (K.view out.new) result.status }
    ensures cause { result.cause ≡ Some (cause.Broken told) }
{
    let status = report_text(Status::Broken, broken_text(&told).as_bytes(), out).status;
    Ended {
        status,
        cause: Some(Cause::Broken(told)),
    }
}
