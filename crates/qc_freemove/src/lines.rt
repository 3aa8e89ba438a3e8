//! Writing the crane lines of a schedule.

ghost use Rattle.std.specs.Prelude.{◌≡◌, ◌≤◌, length};
ghost use Rattle.qc_model.specs.Judge.{IsJudgeable};
ghost use Rattle.qc_model.specs.Rules.{Feasible};
ghost use Rattle.qc_freemove.specs.FreeTracksText.{WritesFreeTracks, half_text, halved_text};
ghost use Rattle.qc_freemove.specs.FreeTracksText.{point_text, sign_text};

use crate::{FreeTrack, HalfPoint, free_waypoints};
use qc_io::{Sink, WriteFault};
use qc_model::{Instance, Schedule};
use qc_motion::{Point, put_crane};
use qc_num::Text;

fn half_text(number: u64) -> &'static [u8]
    ensures { result.now ≡ half_text number }
{
    if number % 2 == 1 { b".5" } else { b"" }
}

/// The half of a number.
fn halved_text(number: u64) -> Text<24>
    ensures { result ≡ halved_text number }
{
    let mut text: Text<24> = Text::new();
    text.push_number(number / 2);
    text.push(half_text(number));
    text
}

fn sign_text(number: i64) -> &'static [u8]
    ensures { result.now ≡ sign_text number }
{
    if number < 0 { b"-" } else { b"" }
}

impl Point for HalfPoint {
    ghost text_of = { λ point. point_text point };

    fn text(&self) -> Text<64> {
        let mut text: Text<64> = Text::of(b" ");
        text.push(halved_text(self.at).as_bytes());
        text.push(b":");
        text.push(sign_text(self.place));
        text.push(halved_text(self.place.unsigned_abs()).as_bytes());
        text
    }
}

/// Writes for each crane in order the line `crane NAME` with its points, each as a space, the tick, `:` and the
/// place in bays times `travel`: a whole number, or one and `.5`. It takes no memory: the track, made for as
/// many tasks, is written over by each crane. After `WriteFault` a part of these lines was written, from their
/// front.
pub fn write_free_tracks<K: Sink>(
    inst: &Instance,
    sched: &Schedule,
    track: &mut FreeTrack,
    sink: &mut K,
) -> Result<(), WriteFault>
    requires judgeable { IsJudgeable inst.now sched.now }
    requires feasible { Feasible inst.now sched.now }
    requires room { length inst.now.tasks ≤ track.old.tasks }
    ensures writes { WritesFreeTracks (K.view sink.old) (K.view sink.new) inst.now sched.now result }
    ensures room { track.new.tasks ≡ track.old.tasks }
{
    for (number, crane) in inst.cranes().iter().enumerate() {
        free_waypoints(inst, sched, number as u16, track);
        put_crane(&crane.name, track.points(), sink)?;
    }
    Ok(())
}
