//! The boxes of the tasks, and their words.

ghost use Rattle.std.specs.Prelude.{◌<◌, length};
ghost use Rattle.qc_figures.specs.Views.{IsReady, view_of};

use crate::elements::{Page, colour, ink};
use crate::paper::{Column, Paper};
use qc_model::{Name, Task};
use qc_num::Tick;

/// The box of a task on the paper.
#[derive(Clone, Copy)]
struct TaskBox<'a> {
    task: Task,
    crane: u16,
    name: &'a Name,
    start: Tick,
    end: Tick,
    column: Column,
    top: u64,
    high: u64,
}

impl<'a> Paper<'a> {
    fn task_box(&self, number: u16) -> TaskBox<'a>
        requires ready { IsReady (view_of self.now.drawn.plan) }
        requires task { number < length (view_of self.now.drawn.plan).inst.tasks }
    {
        let plan = self.drawn.plan;
        let task = plan.inst.task(number);
        let slot = plan.sched.slots()[number as usize];
        let end = slot.start.saturating_add(task.ticks);
        let top = self.down(slot.start);
        TaskBox {
            task,
            crane: slot.crane,
            name: &plan.inst.crane(slot.crane).name,
            start: slot.start,
            end,
            column: self.column(task.bay),
            top,
            high: self.down(end).saturating_sub(top),
        }
    }
}

impl TaskBox<'_> {
    /// Puts the name of the task, its crane, its start and its end behind the drawing.
    fn put_title(&self, page: &mut Page) {
        page.put(self.task.text().as_bytes());
        page.put(b" ");
        page.put(self.name.as_bytes());
        page.put(b" ");
        page.put_number(self.start);
        page.put(b" to ");
        page.put_number(self.end);
    }

    /// Puts the box behind the drawing, a little inside its hatch's column.
    fn put(&self, page: &mut Page) {
        let inset = (self.column.wide / 4).min(20);
        let from = self.column.from.saturating_add(inset);
        let wide = self.column.wide.saturating_sub(2 * inset);
        page.put_rect(from, self.top, wide, self.high, b"fill=\"");
        page.put(colour(self.task.phase));
        page.put(b"\" stroke=\"");
        page.put(ink(self.crane));
        page.put(b"\" stroke-width=\"16\"><title>");
        self.put_title(page);
        page.put(b"</title></rect>\n");
    }

    /// Puts the phase of the task behind the drawing where its box is high enough, and its length where that is wide.
    fn put_words(&self, page: &mut Page) {
        if self.high < 110 {
            return;
        }
        let style =
            b"font-size=\"130\" text-anchor=\"middle\" stroke=\"#ffffff\" stroke-width=\"30\" paint-order=\"stroke\"";
        let y = self.top.saturating_add(self.high / 2 + 45);
        page.begin_words(self.column.middle(), y, style);
        page.put(self.task.phase.text());
        if self.column.wide >= 800 {
            page.put(b" ");
            page.put_number(self.task.ticks);
        }
        page.end_words();
    }
}

impl Paper<'_> {
    /// Puts the boxes of all tasks behind the drawing.
    pub(crate) fn put_boxes(&self, page: &mut Page)
        requires { IsReady (view_of self.now.drawn.plan) }
    {
        for task in 0..self.drawn.plan.inst.task_count() {
            self.task_box(task).put(page);
        }
    }

    /// Puts the words of all boxes behind the drawing.
    pub(crate) fn put_words(&self, page: &mut Page)
        requires { IsReady (view_of self.now.drawn.plan) }
    {
        for task in 0..self.drawn.plan.inst.task_count() {
            self.task_box(task).put_words(page);
        }
    }
}
