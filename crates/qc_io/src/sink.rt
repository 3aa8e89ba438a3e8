//! What takes bytes, one piece after another.
ghost use Rattle.std.specs.Prelude.{◌≡◌, ◌≤◌, ◌<◌, length, take, OnErr, IfOk};
ghost use Rattle.std.specs.Io.KnownBytes.{append_known};
ghost use Rattle.qc_io.specs.Outside.{View, beside, next_count};
ghost use Rattle.qc_io.specs.Writes.{Counts};

/// A call on the outside failed.
#[derive(Clone, Copy, Debug, PartialEq, Eq)]
pub struct Failed;

/// Counts a fault.
pub fn fault(count: &mut u64) -> Failed
    ensures counted { count.new ≡ next_count count.old }
    ensures never_falls { count.old ≤ count.new }
{
    *count = count.saturating_add(1);
    Failed
}

/// Takes bytes, one piece after another.
pub trait Sink {
    // What contracts see of it.
    ghost view: { Self → View };

    /// Takes at least the first byte of a piece that isn't empty, and answers how many bytes it took.
    fn write(&mut self, piece: &[u8]) -> Result<usize, Failed>
        ensures at_least { IfOk result (λ count. 0 < length piece.now → 0 < count) }
        ensures at_most { IfOk result (λ count. count ≤ length piece.now) }
        ensures appended { IfOk result (λ count.
            (view self.new).written ≡ append_known (view self.old).written (take count piece.now)) }
        ensures err_written { OnErr result ((view self.new).written ≡ (view self.old).written) }
        ensures counts { Counts (view self.old).faults (view self.new).faults result }
        ensures beside_stays { beside (view self.new) ≡ beside (view self.old) };
}
