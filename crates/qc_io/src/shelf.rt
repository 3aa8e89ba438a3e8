//! What holds named files.
ghost use Rattle.std.specs.Prelude.{◌≡◌, ◌≤◌, ◌<◌, ◌↔◌, ◌⊎◌, true, false, None, Some, [], length, take, is_some, IsErr, IsOk, OnOk, OnErr, IfOk, IfSome};
ghost use Rattle.std.specs.Io.KnownBytes.{prepend_known};
ghost use Rattle.qc_io.specs.Outside.{Rose, IsMissing, ReadCause, begun, file_at, finished};
ghost use Rattle.qc_io.specs.Reads.{Reads};
ghost use Rattle.qc_io.specs.Writes.{Counts};

use crate::outlook::Outlook;
use crate::sink::{Failed, Sink};

/// Holds named files. One is read and one is made at a time: `create` begins a file, `write` appends to it,
/// and `finish` puts it in the place of the one of its name. Before the first `create`, and after `finish`,
/// a write goes nowhere.
pub trait Shelf: Sink {
    /// Is told what is known before a search. It changes nothing that contracts see.
    fn tell(&mut self, _outlook: Outlook)
        ensures { Self.view self.new ≡ Self.view self.old }
    {}

    /// Is told that so many of so many runs are done. It changes nothing that contracts see.
    fn tell_runs(&mut self, _done: u32, _runs: u32)
        ensures { Self.view self.new ≡ Self.view self.old }
    {}

    /// Whether the file that is being made takes its place only when it is finished, after which it can be made again.
    /// Where not, as of a pipe, its bytes go out as they are written.
    fn replaces(&self) -> bool {
        true
    }

    /// Opens the file for reading, from its first byte. After `Failed` no file is open.
    fn open(&mut self, name: &str) -> Result<(), Failed>
        ensures ok_reading { OnOk result ((Self.view self.new).reading ≡ true) }
        ensures ok_rest { OnOk result
            ((Self.view self.new).rest ≡ file_at (Self.view self.old).files name.now) }
        ensures missing { IsMissing (Self.view self.old).files name.now → IsErr result }
        ensures err_closed { OnErr result ((Self.view self.new).reading ≡ false) }
        ensures err_cause { OnErr result
            (ReadCause (Self.view self.old) (Self.view self.new) name.now) }
        ensures reads { Reads (Self.view self.old) (Self.view self.new) (IsOk result) };

    /// Moves bytes from the front of what is left into the front of `buf`, and answers how many.
    fn read(&mut self, buf: &mut [u8]) -> Result<usize, Failed>
        requires open { (Self.view self.old).reading ≡ true }
        requires room { 0 < length buf.old }
        ensures at_most { IfOk result (λ count. count ≤ length buf.new) }
        ensures moved { IfOk result (λ count. (Self.view self.old).rest
            ≡ prepend_known (take count buf.new) (Self.view self.new).rest) }
        ensures ended { IfOk result (λ count.
            IfSome (Self.view self.old).rest (λ bytes. (count ≡ 0) ↔ (bytes ≡ []))) }
        ensures err_rest { OnErr result ((Self.view self.new).rest ≡ (Self.view self.old).rest) }
        ensures err_rose { OnErr result
            (Rose (Self.view self.old).read_faults (Self.view self.new).read_faults) }
        ensures reading_stays { (Self.view self.new).reading ≡ true }
        ensures reads { Reads (Self.view self.old) (Self.view self.new) (IsOk result) };

    /// Begins a new file, to which writes go from then on. It changes no file; one that was begun before and
    /// isn't finished is forgotten. After `Failed` no file is being made.
    fn create(&mut self, name: &str) -> Result<(), Failed>
        ensures ok_made { OnOk result ((Self.view self.new).made ≡ Some name.now) }
        ensures ok_begun { OnOk result ((Self.view self.new).written ≡ begun (Self.view self.old).files) }
        ensures err_unmade { OnErr result ((Self.view self.new).made ≡ None) }
        ensures files_stay { (Self.view self.new).files ≡ (Self.view self.old).files }
        ensures counts { Counts (Self.view self.old).faults (Self.view self.new).faults result }
        ensures rest_stays { (Self.view self.new).rest ≡ (Self.view self.old).rest }
        ensures reading_stays { (Self.view self.new).reading ≡ (Self.view self.old).reading }
        ensures read_faults_stay { (Self.view self.new).read_faults ≡ (Self.view self.old).read_faults };

    /// Makes the name hold exactly what was written since `create`. After `Failed` it holds what it held or
    /// what was written. No file is being made any more. Where none was, nothing changes but the count.
    fn finish(&mut self) -> Result<(), Failed>
        ensures ok_files { OnOk result ((Self.view self.new).files ≡ finished (Self.view self.old).files
            (Self.view self.old).made (Self.view self.old).written) }
        ensures err_files { OnErr result (((Self.view self.new).files ≡ (Self.view self.old).files)
            ⊎ ((Self.view self.new).files ≡ finished (Self.view self.old).files
            (Self.view self.old).made (Self.view self.old).written)) }
        ensures unmade { (Self.view self.new).made ≡ None }
        ensures counts { Counts (Self.view self.old).faults (Self.view self.new).faults result }
        ensures rest_stays { (Self.view self.new).rest ≡ (Self.view self.old).rest }
        ensures reading_stays { (Self.view self.new).reading ≡ (Self.view self.old).reading }
        ensures read_faults_stay { (Self.view self.new).read_faults ≡ (Self.view self.old).read_faults };

    // What is left of the file being read is told where the files are.
    ghost rest_told: { (shelf : Self) → is_some (Self.view shelf).rest ≡ is_some (Self.view shelf).files };

    // A shelf tells its files always or never.
    ghost tells_alike: { (before after : Self) →
        is_some (Self.view after).files ≡ is_some (Self.view before).files };
}
