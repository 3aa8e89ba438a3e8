//! Writing the line of a crane.

ghost use Rattle.std.specs.Prelude.{◌≡◌, ◌++◌, List, ℕ, codes};
ghost use Rattle.std.specs.List.{flat_map};
ghost use Rattle.qc_io.specs.Writes.{Writes};
ghost use Rattle.qc_motion.specs.CraneLines.{crane_line, waypoint_text};

use crate::Waypoint;
use qc_io::{Sink, WriteFault, put_all};
use qc_model::Name;
use qc_num::Text;

/// Where a crane stands at a moment, as its line tells it.
pub trait Point {
    // The bytes of its text.
    ghost text_of: { Self → List ℕ };

    /// A space, the tick, `:` and the place.
    fn text(&self) -> Text<64>
        ensures { result ≡ text_of self.now };
}

impl Point for Waypoint {
    ghost text_of = { λ point. waypoint_text point };

    fn text(&self) -> Text<64> {
        let mut text: Text<64> = Text::of(b" ");
        text.push_number(self.at);
        text.push(b":");
        text.push_signed(self.place);
        text
    }
}

#[tactic(auto, using(qc_io::proofs::WritesLemmas::items_more))]
fn put_points<P: Point, K: Sink>(points: &[P], sink: &mut K) -> Result<(), WriteFault>
    ensures { Writes (K.view sink.old) (K.view sink.new) (flat_map P.text_of points.now) result }
{
    for point in points {
        put_all(sink, point.text().as_bytes())?;
    }
    Ok(())
}

fn put_head<K: Sink>(name: &Name, sink: &mut K) -> Result<(), WriteFault>
    ensures { Writes (K.view sink.old) (K.view sink.new) (codes "crane " ++ name.now) result }
{
    let mut head: Text<24> = Text::of(b"crane ");
    head.push(name.as_bytes());
    put_all(sink, head.as_bytes())
}

/// Writes the line of a crane: `crane NAME` and its points. It takes no memory. After `WriteFault` a part of
/// the line was written, from its front.
pub fn put_crane<P: Point, K: Sink>(
    name: &Name,
    points: &[P],
    sink: &mut K,
) -> Result<(), WriteFault>
    ensures { Writes (K.view sink.old) (K.view sink.new)
        (crane_line P.text_of name.now points.now) result }
{
    put_head(name, sink)?;
    put_points(points, sink)?;
    put_all(sink, b"\n")
}
