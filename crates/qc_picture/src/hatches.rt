//! The ground of a drawing: its head and legend, and the columns of the hatches.

use crate::elements::Page;
use crate::paper::Paper;
use qc_model::Direction;
use qc_num::Bay;

/// The colours, lines and bands that stand for something, the ends of the ship, and what stands in the rows.
fn legend() -> &'static [u8] {
    br##"<rect x="900" y="560" width="180" height="180" fill="#9ecae1" stroke="#333333" stroke-width="16"/>
<text x="1140" y="705" fill="#000000">DD deck discharge</text>
<rect x="2700" y="560" width="180" height="180" fill="#3182bd" stroke="#333333" stroke-width="16"/>
<text x="2940" y="705" fill="#000000">DH hold discharge</text>
<rect x="4500" y="560" width="180" height="180" fill="#e6550d" stroke="#333333" stroke-width="16"/>
<text x="4740" y="705" fill="#000000">LH hold load</text>
<rect x="5950" y="560" width="180" height="180" fill="#fdbe85" stroke="#333333" stroke-width="16"/>
<text x="6190" y="705" fill="#000000">LD deck load</text>
<line x1="7400" y1="650" x2="7800" y2="650" stroke="#333333" stroke-width="24"/>
<text x="7880" y="705" fill="#000000">a crane</text>
<line x1="8600" y1="650" x2="9000" y2="650" stroke="#333333" stroke-width="24" stroke-dasharray="70 70"/>
<text x="9080" y="705" fill="#000000">not ready</text>
<rect x="9900" y="560" width="400" height="180" fill="#c6d2f2"/>
<text x="10380" y="705" fill="#000000">half the gap to each side: bands may touch</text>
<text x="900" y="960" font-weight="bold">bow</text>
<text x="15300" y="960" font-weight="bold" text-anchor="end">stern</text>
<text x="840" y="1130" text-anchor="end" fill="#666666">hatch</text>
<text x="840" y="11500" text-anchor="end" fill="#666666">hatch</text>
<text x="840" y="11680" text-anchor="end" fill="#666666">place</text>
"##
}

/// Puts the way in which a plan goes, where it goes one.
fn put_way(way: Option<Direction>, page: &mut Page) {
    let style = b"font-size=\"260\"";
    match way {
        Some(Direction::Up) => page.put_words(4_300, 330, style, b"direction up"),
        Some(Direction::Down) => page.put_words(4_300, 330, style, b"direction down"),
        None => {}
    }
}

/// How the number of a hatch is written over and under a column so wide.
fn hatch_style(wide: u64) -> &'static [u8] {
    if wide >= 500 {
        b"font-size=\"150\" text-anchor=\"middle\""
    } else {
        b"font-size=\"90\" text-anchor=\"middle\""
    }
}

/// How its bay is written under that.
fn bay_style(wide: u64) -> &'static [u8] {
    if wide >= 500 {
        b"font-size=\"120\" fill=\"#666666\" text-anchor=\"middle\""
    } else {
        b"font-size=\"80\" fill=\"#666666\" text-anchor=\"middle\""
    }
}

/// Columns are shaded by turns.
fn shade(number: usize) -> &'static [u8] {
    if number % 2 == 0 {
        b"fill=\"#efefef\"/>\n"
    } else {
        b"fill=\"#f7f7f7\"/>\n"
    }
}

impl Paper<'_> {
    /// Puts the head, the ground, the end, the way and the legend behind the drawing. The table has a row for each
    /// crane under its header.
    pub(crate) fn put_head(&self, page: &mut Page) {
        let height = 12_250 + 200 * u64::from(self.drawn.plan.inst.crane_count());
        page.put(b"<svg xmlns=\"http://www.w3.org/2000/svg\" viewBox=\"0 0 16200 ");
        page.put_number(height);
        page.put(b"\" font-family=\"sans-serif\" font-size=\"150\">\n");
        page.put_rect(0, 0, 16_200, height, b"fill=\"#ffffff\"/>\n");
        page.begin_words(900, 330, b"font-size=\"260\"");
        page.put(b"end ");
        page.put_number(self.end);
        page.end_words();
        put_way(self.drawn.plan.way, page);
        page.put(legend());
    }

    /// Puts the column of a hatch at a bay behind the drawing, with its number above and below, and its bay under that.
    fn put_column(&self, shade: &[u8], hatch: u16, bay: u16, page: &mut Page) {
        let column = self.column(Bay::from(bay));
        let middle = column.middle();
        let style = hatch_style(column.wide);
        page.put_rect(column.from, 1_500, column.wide, 9_600, shade);
        page.put_figure(middle, 1_130, style, u64::from(hatch));
        page.put_figure(middle, 11_500, style, u64::from(hatch));
        page.put_figure(middle, 11_680, bay_style(column.wide), u64::from(bay));
    }

    /// Puts the columns of all hatches behind the drawing.
    pub(crate) fn put_columns(&self, page: &mut Page) {
        let hatches = self.drawn.hatches.iter().zip(self.drawn.places);
        for (number, (hatch, bay)) in hatches.enumerate() {
            self.put_column(shade(number), *hatch, *bay, page);
        }
    }
}
