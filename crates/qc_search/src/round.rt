//! One round of a search.
ghost use Rattle.std.specs.Prelude.{◌≡◌, IfOk};
ghost use Rattle.qc_io.specs.Outside.{beside};
ghost use Rattle.qc_io.specs.Writes.{Counts};
ghost use Rattle.qc_close.specs.Model.{Valid};
ghost use Rattle.qc_num.specs.Bounds.{lesser};
ghost use Rattle.qc_num.specs.declared.bound.Bound.TheVariants.{Never};
ghost use Rattle.qc_search.specs.Course.{RunsRound};
ghost use Rattle.qc_search.specs.Progress.{IsBegun};

use crate::progress::Progress;
use crate::roots::Roots;
use qc_io::{Sink, WriteFault};
use qc_num::Bound;

/// What is told of a round.
#[derive(Clone, Copy)]
pub(crate) struct Told {
    /// What its tree shows.
    pub(crate) bound: Bound,
    /// How many branchings it has.
    pub(crate) branched: u32,
}

/// Makes a progress that of a round that may begin: with so many branchings, and at this aim where that comes before
/// the incumbent's end.
pub(crate) fn begin_round(limit: u32, aim: Bound, progress: &mut Progress)
    ensures { progress.new ≡ record progress.old {
      limit = limit;
      aim = lesser progress.old.incumbent_end aim;
    } }
{
    progress.limit = limit;
    progress.aim = progress.incumbent_end.min(aim);
}

/// Makes the progress of a round that has ended that of one that may begin: the incumbent is what it begins with.
fn begin_anew(progress: &mut Progress)
    ensures { progress.new ≡ record progress.old {
      branched = 0;
      bound = Never;
      aim = progress.old.incumbent_end;
    } }
{
    progress.branched = 0;
    progress.bound = Bound::Never;
    progress.aim = progress.incumbent_end;
}

/// Runs a round, and writes its tree. Another one may begin then with what is known.
pub(crate) fn run_round<K: Sink>(
    roots: &mut Roots,
    progress: &mut Progress,
    sink: &mut K,
) -> Result<Told, WriteFault>
    requires valid { Valid roots.old }
    requires begun { IsBegun roots.old progress.old }
    ensures stays { roots.new ≡ roots.old }
    ensures ran { IfOk result (RunsRound roots.old progress.old progress.new
        (K.view sink.old).written (K.view sink.new).written) }
    ensures counts { Counts (K.view sink.old).faults (K.view sink.new).faults result }
    ensures beside_stays { beside (K.view sink.new) ≡ beside (K.view sink.old) }
{
    roots.write(progress, sink)?;
    let told = Told {
        bound: progress.bound,
        branched: progress.branched,
    };
    begin_anew(progress);
    Ok(told)
}
