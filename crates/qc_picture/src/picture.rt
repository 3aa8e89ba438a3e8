//! The whole drawing.

ghost use Rattle.qc_figures.specs.Views.{IsReady, view_of};

use crate::elements::Page;
use crate::paper::{Drawn, Paper};
use crate::table::table_head;
use qc_num::{Bytes, OutOfMemory};
use std::alloc::Global;

impl Paper<'_> {
    /// Puts all up to the boxes behind the drawing.
    fn put_under(&self, page: &mut Page)
        requires { IsReady (view_of self.now.drawn.plan) }
    {
        self.put_head(page);
        self.put_columns(page);
        self.put_ticks(page);
        self.put_bands(page);
        self.put_boxes(page);
        self.put_releases(page);
    }

    /// Puts all from the lines of the cranes on behind the drawing.
    fn put_over(&self, page: &mut Page)
        requires { IsReady (view_of self.now.drawn.plan) }
    {
        self.put_cranes(page);
        self.put_words(page);
        self.put_names(page);
        self.put_end_line(page);
        page.put(table_head());
        self.put_rows(page);
        page.put(b"</svg>\n");
    }
}

/// The drawing of a plan, an SVG: the hatches across with their bays, time down from tick 0 to the end, for
/// each crane a line through its waypoints in a band of half the gap to each side, a box for each task, a mark
/// where a release time makes a crane wait, and a table of the figures of each crane.
pub fn write_picture(alloc: Global, drawn: &Drawn<'_>) -> Result<Bytes, OutOfMemory>
    requires { IsReady (view_of drawn.now.plan) }
{
    let paper = drawn.paper();
    let mut page = Page::new(alloc);
    paper.put_under(&mut page);
    paper.put_over(&mut page);
    page.bytes()
}
