//! The lines of time.

ghost use Rattle.std.specs.Prelude.{◌≤◌};

use crate::elements::Page;
use crate::paper::Paper;
use qc_num::Tick;

/// The steps of time.
const STEPS: [Tick; 33] = [
    1,
    2,
    5,
    10,
    20,
    50,
    100,
    200,
    500,
    1_000,
    2_000,
    5_000,
    10_000,
    20_000,
    50_000,
    100_000,
    200_000,
    500_000,
    1_000_000,
    2_000_000,
    5_000_000,
    10_000_000,
    20_000_000,
    50_000_000,
    100_000_000,
    200_000_000,
    500_000_000,
    1_000_000_000,
    2_000_000_000,
    5_000_000_000,
    10_000_000_000,
    20_000_000_000,
    50_000_000_000,
];

/// The least step that fits at most twelve times into so many ticks.
fn time_step(end: Tick) -> Tick
    ensures { 1 ≤ result }
{
    for step in STEPS {
        if end / 13 < step {
            return step;
        }
    }
    100_000_000_000
}

impl Paper<'_> {
    /// Puts a line across at a tick behind the drawing.
    fn put_line_at(&self, at: Tick, style: &[u8], page: &mut Page) {
        let y = self.down(at);
        page.put_line((900, y), (15_300, y), style);
    }

    /// Puts the line of a tick behind the drawing, with its number.
    fn put_tick(&self, at: Tick, page: &mut Page) {
        self.put_line_at(at, b"stroke=\"#c4c4c4\" stroke-width=\"8\"", page);
        let y = self.down(at).saturating_add(50);
        page.put_figure(840, y, b"text-anchor=\"end\"", at);
    }

    /// Puts the lines of time behind the drawing.
    pub(crate) fn put_ticks(&self, page: &mut Page) {
        let step = time_step(self.end);
        for number in 0..=self.end / step {
            self.put_tick(step.saturating_mul(number), page);
        }
    }

    /// Puts the line of the end behind the drawing.
    pub(crate) fn put_end_line(&self, page: &mut Page) {
        self.put_line_at(self.end, b"stroke=\"#000000\" stroke-width=\"20\"", page);
    }
}
