//! A search of the parts of a tree, and the storing of it in rounds.
ghost use Rattle.std.specs.Prelude.{◌≡◌, ◌-◌, ◌<◌, ◌≤◌, ℕ, All, None, OnErr, IfOk, IfSome, option_map};
ghost use Rattle.qc_io.specs.Outside.{beside};
ghost use Rattle.qc_io.specs.Writes.{Counts};
ghost use Rattle.qc_close.specs.Model.{IsJudgeable, most_branchings, ends};
ghost use Rattle.qc_num.specs.declared.bound.Bound.TheVariants.{Least};
ghost use Rattle.qc_num.specs.Bounds.{lesser};
ghost use Rattle.qc_search.specs.Progress.{bound_end, shown_best};
ghost use Rattle.qc_search.specs.Run.{outcome, SearchView, IsCutOff, IsOffered, IsSearched, IsSound, search_from};
ghost use Rattle.qc_search.specs.Fields.{AreOpened, search_of};
ghost use Rattle.qc_search.specs.Stored.{IsTreeLeft, IsTreeStored};
ghost use Rattle.qc_starts.specs.Tight.{IsSeenSo};
ghost use Rattle.qc_tree.specs.Trees.{NoneEarlier};

use crate::best::shown_best;
use crate::done::Done;
use crate::given::{aim_at, offer};
use crate::outcome::{end_of, outcome};
use crate::progress::{Progress, first_progress};
use crate::roots::Roots;
use crate::rounds::{Course, run_rounds};
use qc_io::{Outlook, Shelf, Sink, WriteFault};
use qc_model::{Direction, Instance, MOST_TASKS, Schedule};
use qc_num::{Bound, OutOfMemory, Path};
use std::alloc::Global;
use std::marker::Model;

/// A search that isn't run yet. It keeps its own copies of the instance and, where cranes go one way, of its mirror,
/// and all memory that the run needs.
pub struct Search {
    roots: Roots,
    progress: Progress,
}

impl Model for Search {
    ghost Value = { SearchView };

    ghost view = { search_of };

    ghost invariant = { AreOpened };
}

// By hand, so that it is let go by one call wherever it is held.
impl Drop for Search {
    fn drop(self) {
        let Search {
            roots: _,
            progress: _,
        } = self;
    }
}

/// What a search came to that began with this end, for an instance with so many cranes.
fn done_of(progress: Progress, first: Bound, cranes: u16) -> Done
    requires { (end : ℕ) → progress.incumbent_end ≡ Least end
        → All (λ slot. slot.crane < cranes) progress.incumbent }
    ensures { result ≡ record {
      kind = outcome progress.bound progress.incumbent_end;
      bound = progress.bound;
      branched = progress.branched;
      given = bound_end first;
      best = shown_best cranes progress.incumbent_end progress.way progress.incumbent;
      way = progress.way;
    } }
{
    Done {
        kind: outcome(progress.bound, progress.incumbent_end),
        bound: progress.bound,
        branched: progress.branched,
        given: end_of(first),
        way: progress.way,
        best: shown_best(progress, cranes),
    }
}

/// What the rounds of a search came to that began with this end and so many branchings, for an instance with so many cranes.
fn ran_done(progress: Progress, course: Course, nodes: u32, first: Bound, cranes: u16) -> Done
    requires left { course.left ≤ nodes }
    requires cranes { (end : ℕ) → progress.incumbent_end ≡ Least end
        → All (λ slot. slot.crane < cranes) progress.incumbent }
    ensures { result ≡ record {
      kind = outcome course.shown progress.incumbent_end;
      bound = course.shown;
      branched = nodes - course.left;
      given = bound_end first;
      best = shown_best cranes progress.incumbent_end progress.way progress.incumbent;
      way = progress.way;
    } }
{
    let mut progress = progress;
    progress.bound = course.shown;
    progress.branched = nodes - course.left;
    done_of(progress, first, cranes)
}

impl Search {
    /// A search for the instance with at most so many branchings. All memory is taken here.
    pub fn open(alloc: Global, inst: &Instance, limit: u32) -> Result<Search, OutOfMemory>
        requires few { limit ≤ most_branchings }
        ensures { IfOk result (λ search. search ≡ search_from inst.now limit None) }
    {
        let incumbent = Schedule::new(alloc, inst.task_count())?;
        let path = Path::with_capacity(alloc, MOST_TASKS as usize)?;
        let roots = Roots::open(alloc, inst)?;
        Ok(Search {
            roots,
            progress: first_progress(incumbent, path, limit),
        })
    }

    /// Offers a schedule that cranes may follow, as it is seen that way. Where it ends before what the search
    /// begins with, the search begins with its tight form: with its cranes, its order of tasks and its way no
    /// task starts earlier. It aims at the end of what it begins with.
    pub fn offer(&mut self, given: &Schedule, way: Direction)
        requires judgeable { IsJudgeable self.old.inst given.now }
        requires seen { IsSeenSo self.old.inst.turn self.old.inst given.now way }
        ensures stays { self.new ≡ search_from self.old.inst self.old.nodes self.new.first }
        ensures offered { IsOffered self.old.inst given.now self.old.first self.new.first }
    {
        offer(given, way, &mut self.roots, &mut self.progress);
    }

    /// Aims at an end where that comes before what it aims at: nodes that can't end before it are closed, so that few
    /// branchings may show it.
    pub fn aim_at(&mut self, aim: Bound)
        ensures { self.new ≡ record self.old { aim = lesser self.old.aim aim } }
    {
        aim_at(aim, &self.roots, &mut self.progress);
    }

    /// What is known before the search: its limit, when what it begins with ends, and an end that no schedule comes
    /// before, by its work alone.
    pub fn outlook(&self) -> Outlook
        ensures end { result.end ≡ option_map (ends self.now.inst) self.now.first }
        ensures bound { IfSome result.bound (λ bound. NoneEarlier self.now.inst (Least bound)) }
    {
        Outlook {
            limit: self.progress.limit,
            end: end_of(self.progress.incumbent_end),
            bound: Some(self.roots.bound()),
        }
    }

    /// Searches, and writes the tree to the sink, each line when its node is met and by a `put_all` of
    /// its own. No answer ends later than what the search begins with. After `WriteFault` a part of a tree's text was
    /// written, from its front.
    pub fn run<K: Sink>(self, sink: &mut K) -> Result<Done, WriteFault>
        ensures searched { IfOk result (IsSearched self (K.view sink.old).written (K.view sink.new).written) }

        // What holds whether the sink tells its bytes or not.
        ensures sound { IfOk result (IsSound self) }

        ensures cut { OnErr result
            (IsCutOff self.inst (K.view sink.old).written (K.view sink.new).written) }
        ensures counts { Counts (K.view sink.old).faults (K.view sink.new).faults result }
        ensures beside_stays { beside (K.view sink.new) ≡ beside (K.view sink.old) }
    {
        let Search {
            mut roots,
            mut progress,
        } = self;
        let cranes = roots.instance().crane_count();
        let first = progress.incumbent_end;
        let written = roots.write(&mut progress, sink);
        drop(roots); // by name: proved faster
        let Ok(()) = written else {
            drop(progress);
            return Err(WriteFault);
        };
        Ok(done_of(progress, first, cranes))
    }

    /// Runs the search in rounds, and makes the tree's file of what they write. Where an end is known, the file may be begun once
    /// more when it returns.
    pub fn store_tree<S: Shelf>(self, name: &str, shelf: &mut S) -> Result<Done, WriteFault>
        ensures ok { IfOk result (λ done. IfSome (S.Sink.view shelf.old).files (λ held.
            IsTreeStored self name.now held (S.Sink.view shelf.new).files done)) }
        ensures err { OnErr result (IfSome (S.Sink.view shelf.old).files (λ held.
            IsTreeLeft self name.now held (S.Sink.view shelf.new).files)) }
        ensures sound { IfOk result (IsSound self) }
        ensures unmade { IfOk result (λ done. done.best ≡ None → (S.Sink.view shelf.new).made ≡ None) }
        ensures counts { Counts (S.Sink.view shelf.old).faults (S.Sink.view shelf.new).faults result }
        ensures read_faults { (S.Sink.view shelf.new).read_faults ≡ (S.Sink.view shelf.old).read_faults }
    {
        let Search {
            mut roots,
            mut progress,
        } = self;
        let cranes = roots.instance().crane_count();
        let (nodes, first) = (progress.limit, progress.incumbent_end);
        let ran = run_rounds(&mut roots, &mut progress, name, shelf);
        drop(roots); // by name: proved faster
        let Ok(course) = ran else {
            drop(progress);
            return Err(WriteFault);
        };
        Ok(ran_done(progress, course, nodes, first, cranes))
    }
}
