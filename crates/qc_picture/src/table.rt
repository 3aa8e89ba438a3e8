//! The table of the figures of all cranes.

ghost use Rattle.std.specs.Prelude.{◌<◌, length};
ghost use Rattle.qc_figures.specs.Views.{IsReady, view_of};

use crate::elements::Page;
use crate::paper::Paper;
use qc_figures::figures_of;

/// The header of the table.
pub(crate) fn table_head() -> &'static [u8] {
    br##"<text x="900" y="12190" fill="#666666">crane</text>
<text x="3300" y="12190" text-anchor="end" fill="#666666">tasks</text>
<text x="4800" y="12190" text-anchor="end" fill="#666666">moves</text>
<text x="6300" y="12190" text-anchor="end" fill="#666666">not ready</text>
<text x="7800" y="12190" text-anchor="end" fill="#666666">work</text>
<text x="9300" y="12190" text-anchor="end" fill="#666666">moving</text>
<text x="10800" y="12190" text-anchor="end" fill="#666666">waiting</text>
<text x="12300" y="12190" text-anchor="end" fill="#666666">idle</text>
<text x="13800" y="12190" text-anchor="end" fill="#666666">end</text>
<text x="15300" y="12190" text-anchor="end" fill="#666666">share, 0.1 %</text>
"##
}

impl Paper<'_> {
    /// Puts the row of a crane behind the drawing.
    fn put_row(&self, crane: u16, page: &mut Page)
        requires ready { IsReady (view_of self.now.drawn.plan) }
        requires crane { crane < length (view_of self.now.drawn.plan).inst.cranes }
    {
        let figures = figures_of(&self.drawn.plan, crane);
        let y = 12_390 + 200 * u64::from(crane);
        page.put_name(
            900,
            y,
            b"font-weight=\"bold\"",
            crane,
            &self.drawn.plan.inst.crane(crane).name,
        );
        let mut x: u64 = 3_300;
        for figure in figures.list() {
            page.put_figure(x, y, b"text-anchor=\"end\"", figure);
            x = x.saturating_add(1_500);
        }
    }

    /// Puts the rows of all cranes behind the drawing.
    pub(crate) fn put_rows(&self, page: &mut Page)
        requires { IsReady (view_of self.now.drawn.plan) }
    {
        for crane in 0..self.drawn.plan.inst.crane_count() {
            self.put_row(crane, page);
        }
    }
}
