//! A shelf that tells how far a search has come whose tree is written to it, and how many runs are done.
ghost use Rattle.std.specs.Prelude.{◌≡◌};

use crate::runs::RunsLine;
use crate::sight::ProgressLine;
use qc_io::{Failed, Outlook, Shelf, Sink};

/// A shelf that sees the lines of the tree that a search writes to it, and tells on standard error how far the search
/// has come, in a line that is written over; and so how many runs are done of those that it is told of. To whoever reads
/// from it or writes to it, it is the shelf that it wraps.
#[derive(Drop)]
pub struct Progress<'a, S, R> {
    shelf: S,
    rt: &'a R,
    /// Whether anybody looks.
    is_shown: bool,
    /// What is known of the search that runs; none where none does, or nobody looks.
    sight: Option<ProgressLine>,
    /// Whether a line stands that is to be cleared.
    stands: bool,
}

impl<'a, S: Shelf, R: Eprint> Progress<'a, S, R> {
    /// No search runs. Nothing is told where nobody looks.
    pub fn new(shelf: S, rt: &'a R, is_shown: bool) -> Self
        ensures { result.shelf ≡ shelf }
    {
        Progress {
            shelf,
            rt,
            is_shown,
            sight: None,
            stands: false,
        }
    }

    /// The shelf. The line is cleared where it still stands.
    pub fn into_shelf(mut self) -> S
        ensures { result ≡ self.entry.shelf }
    {
        self.clear();
        let Progress {
            shelf,
            rt: _,
            is_shown: _,
            sight: _,
            stands: _,
        } = self;
        shelf
    }

    /// Tells what is known, over what was told before.
    fn show(&mut self, sight: ProgressLine)
        ensures { self.new.shelf ≡ self.old.shelf }
    {
        self.sight = Some(sight);
        self.stands = true;
        let _ = self.rt.eprint(format_args!("\r{sight}\x1b[K"));
    }

    /// Tells how many runs are done where it is worth it, and clears the line with the last.
    fn show_runs(&mut self, told: RunsLine)
        ensures { self.new.shelf ≡ self.old.shelf }
    {
        if told.is_worth() {
            self.stands = true;
            let _ = self.rt.eprint(format_args!("\r{told}\x1b[K"));
        } else if told.is_last() {
            self.clear();
        }
    }

    /// Sees a line that is written, and tells it where it is worth it.
    fn see(&mut self, line: &[u8])
        ensures { self.new.shelf ≡ self.old.shelf }
    {
        let Some(mut sight) = self.sight else {
            return;
        };
        if sight.sees(line) {
            self.show(sight);
        } else {
            self.sight = Some(sight);
        }
    }

    /// Clears the line: neither a search nor a run goes on.
    fn clear(&mut self)
        ensures { self.new.shelf ≡ self.old.shelf }
    {
        self.sight = None;
        if self.stands {
            self.stands = false;
            let _ = self.rt.eprint("\r\x1b[K");
        }
    }
}

impl<S: Shelf, R: Eprint> Sink for Progress<'_, S, R> {
    ghost view = { λ progress. S.Sink.view progress.shelf };

    fn write(&mut self, piece: &[u8]) -> Result<usize, Failed> {
        self.see(piece);
        let taken = self.shelf.write(piece);
        if taken.is_err() {
            self.clear();
        }
        taken
    }
}

impl<S: Shelf, R: Eprint> Shelf for Progress<'_, S, R> {
    ghost rest_told = { λ progress. S.rest_told progress.shelf };

    ghost tells_alike = { λ before after. S.tells_alike before.shelf after.shelf };

    fn open(&mut self, name: &str) -> Result<(), Failed> {
        self.shelf.open(name)
    }

    fn read(&mut self, buf: &mut [u8]) -> Result<usize, Failed> {
        self.shelf.read(buf)
    }

    fn create(&mut self, name: &str) -> Result<(), Failed> {
        let begun = self.shelf.create(name);
        if begun.is_err() {
            self.clear();
        }
        begun
    }

    fn finish(&mut self) -> Result<(), Failed> {
        self.clear();
        self.shelf.finish()
    }

    fn tell(&mut self, outlook: Outlook) {
        if self.is_shown {
            self.show(ProgressLine::new(outlook));
        }
        self.shelf.tell(outlook);
    }

    fn tell_runs(&mut self, done: u32, runs: u32) {
        if self.is_shown {
            self.show_runs(RunsLine { done, runs });
        }
        self.shelf.tell_runs(done, runs);
    }

    fn replaces(&self) -> bool {
        self.shelf.replaces()
    }
}
