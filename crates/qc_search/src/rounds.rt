//! A search in rounds: first one at the end of what it begins with, with most of all branchings; then some that aim at ends
//! between what is shown and the best end that is known; and last one at that end with what is left. Each begins with the best
//! schedule that is known, and writes its tree, which stands where it shows more than the one that stood.
ghost use Rattle.std.specs.Prelude.{◌≡◌, ◌<◌, ◌≤◌, ◌+◌, ◌*◌, ◌⊎◌, Option, None, IfOk, IfSome, IsTrue, OnErr, OnOk};
ghost use Rattle.qc_io.specs.Outside.{Files, finished};
ghost use Rattle.qc_io.specs.Writes.{Counts};
ghost use Rattle.qc_close.specs.Model.{Valid, most_branchings};
ghost use Rattle.qc_num.specs.declared.bound.Bound.TheVariants.{Never};
ghost use Rattle.qc_num.specs.Bounds.{IsAtMost, lesser};
ghost use Rattle.qc_search.specs.declared.done.Kind.TheVariants.{Budget};
ghost use Rattle.qc_search.specs.declared.progress.Progress.{Progress};
ghost use Rattle.qc_search.specs.Course.{IsCourse, IsHalted, Outdoes};
ghost use Rattle.qc_search.specs.Progress.{IsBegun};
ghost use Rattle.qc_search.specs.Run.{outcome};

use crate::aims::Gap;
use crate::done::Kind;
use crate::outcome::{is_more, outcome};
use crate::progress::Progress;
use crate::roots::Roots;
use crate::round::{begin_round, run_round};
use qc_io::{Shelf, WriteFault};
use qc_num::Bound;

/// Up to so many tasks the branchings may be enough to decide the search, so its first round has all of them.
const FEW_TASKS: u16 = 19;

/// The first round leaves one in so many branchings to the others.
const PARTS: u32 = 8;

/// At most so many rounds aim below the best end.
const MOST_AIMS: u32 = 64;

/// How far the rounds of a search have come.
#[derive(Clone, Copy)]
pub(crate) struct Course {
    /// What the tree shows that stands: the one that shows most.
    pub(crate) shown: Bound,
    /// How many branchings are left.
    pub(crate) left: u32,
}

/// What a round is to keep to.
#[derive(Clone, Copy)]
struct Order {
    /// How many branchings it may write.
    limit: u32,
    /// The end that it aims at, where that comes before the best one that is known.
    aim: Bound,
}

/// How many of so many branchings the first round may write: all where no others are to follow.
fn first_limit(nodes: u32, tasks: u16, others: bool) -> u32
    ensures all { tasks ≤ 19 → result ≡ nodes }
    ensures most { 7 * nodes ≤ 8 * result }
    ensures few { result ≤ nodes }
    ensures alone { ¬ IsTrue others → result ≡ nodes }
{
    if !others || tasks <= FEW_TASKS {
        return nodes;
    }
    nodes - nodes / PARTS
}

/// Runs the first round, and makes the tree's file of what it writes. It leaves branchings to others only where a schedule is
/// known, and where the file can be made again.
fn first_round<S: Shelf>(
    roots: &mut Roots,
    progress: &mut Progress,
    name: &str,
    shelf: &mut S,
) -> Result<Course, WriteFault>
    requires valid { Valid roots.old }
    requires begun { IsBegun roots.old progress.old }
    ensures stays { roots.new ≡ roots.old }
    ensures ok { IfOk result (IsCourse roots.old progress.old name.now (S.Sink.view shelf.old).files
        progress.new (S.Sink.view shelf.new).files) }
    ensures err { OnErr result (((S.Sink.view shelf.new).files ≡ (S.Sink.view shelf.old).files)
        ⊎ IsHalted roots.old progress.old name.now (S.Sink.view shelf.old).files (S.Sink.view shelf.new).files) }
    ensures alone { progress.old.incumbent_end ≡ Never → OnOk result (progress.new.limit ≡ progress.old.limit) }
    ensures spent { IfOk result (λ course. progress.new.limit ≡ progress.old.limit
        → outcome course.shown progress.new.incumbent_end ≡ Budget
        → (course.left ≡ 0) ⊎ IsAtMost progress.old.aim course.shown) }
    ensures unmade { OnOk result ((S.Sink.view shelf.new).made ≡ None) }
    ensures counts { Counts (S.Sink.view shelf.old).faults (S.Sink.view shelf.new).faults result }
    ensures read_faults { (S.Sink.view shelf.new).read_faults ≡ (S.Sink.view shelf.old).read_faults }
{
    shelf.create(name)?;
    let nodes = progress.limit;
    let known = progress.incumbent_end != Bound::Never;
    let others = known && shelf.replaces();
    progress.limit = first_limit(nodes, roots.instance().task_count(), others);
    let told = run_round(roots, progress, shelf)?;
    shelf.finish()?;
    Ok(Course {
        shown: told.bound,
        left: nodes - told.branched,
    })
}

/// Finishes the tree that was written where it shows more than the one that stands, and answers what is shown then.
fn keep_better<S: Shelf>(bound: Bound, shown: Bound, shelf: &mut S) -> Result<Bound, WriteFault>
    ensures ok { IfOk result (λ now. Outdoes shown bound now
        ((S.Sink.view shelf.new).files ≡ (S.Sink.view shelf.old).files)
        ((S.Sink.view shelf.new).files ≡ finished (S.Sink.view shelf.old).files
        (S.Sink.view shelf.old).made (S.Sink.view shelf.old).written)) }
    ensures err { OnErr result (IsAtMost shown bound
        × (((S.Sink.view shelf.new).files ≡ (S.Sink.view shelf.old).files)
        ⊎ ((S.Sink.view shelf.new).files ≡ finished (S.Sink.view shelf.old).files
        (S.Sink.view shelf.old).made (S.Sink.view shelf.old).written))) }
    ensures counts { Counts (S.Sink.view shelf.old).faults (S.Sink.view shelf.new).faults result }
    ensures read_faults { (S.Sink.view shelf.new).read_faults ≡ (S.Sink.view shelf.old).read_faults }
{
    if !is_more(bound, shown) {
        return Ok(shown);
    }
    shelf.finish()?;
    Ok(bound)
}

/// Runs another round. Its tree stands where it shows more than the one that stands.
fn later_round<S: Shelf>(
    order: Order,
    course: Course,
    roots: &mut Roots,
    progress: &mut Progress,
    name: &str,
    shelf: &mut S,
) -> Result<Course, WriteFault>
    requires valid { Valid roots.old }
    requires begun { IsBegun roots.old progress.old }
    requires limit { order.limit ≤ course.left }
    requires few { course.left ≤ most_branchings }
    ensures stays { roots.new ≡ roots.old }
    ensures begun { OnOk result (IsBegun roots.new progress.new) }
    ensures left { IfOk result (λ now. now.left ≤ course.left) }
    ensures ok { IfOk result (λ now. (start : Progress) (before : Option Files)
        → IsCourse roots.old start name.now before progress.old (S.Sink.view shelf.old).files course
        → IsCourse roots.old start name.now before progress.new (S.Sink.view shelf.new).files now) }
    ensures err { OnErr result ((start : Progress) (before : Option Files)
        → IsCourse roots.old start name.now before progress.old (S.Sink.view shelf.old).files course
        → IsHalted roots.old start name.now before (S.Sink.view shelf.new).files) }
    ensures spent { IfOk result (λ now. outcome now.shown progress.new.incumbent_end ≡ Budget
        → (now.left + order.limit ≡ course.left)
        ⊎ IsAtMost (lesser progress.old.incumbent_end order.aim) now.shown) }
    ensures no_later { OnOk result (IsAtMost progress.new.incumbent_end progress.old.incumbent_end) }
    ensures counts { Counts (S.Sink.view shelf.old).faults (S.Sink.view shelf.new).faults result }
    ensures read_faults { (S.Sink.view shelf.new).read_faults ≡ (S.Sink.view shelf.old).read_faults }
{
    begin_round(order.limit, order.aim, progress);
    shelf.create(name)?;
    let round = run_round(roots, progress, shelf)?;
    let shown = keep_better(round.bound, course.shown, shelf)?;
    Ok(Course {
        shown,
        left: course.left - round.branched,
    })
}

/// The next round that aims below the best end that is known, with half of what is left; none where nothing is left, or
/// no aim is.
fn next_order(gap: &Gap, course: Course, end: Bound) -> Option<Order>
    ensures { IfSome result (λ order. order.limit ≤ course.left) }
{
    if course.left == 0 {
        return None;
    }
    let aim = gap.aim(course.shown, end)?;
    let limit = if course.left == 1 { 1 } else { course.left / 2 };
    Some(Order { limit, aim })
}

/// Runs rounds that aim at ends between what is shown and the best end that is known.
fn aimed_rounds<S: Shelf>(
    first: Course,
    roots: &mut Roots,
    progress: &mut Progress,
    name: &str,
    shelf: &mut S,
) -> Result<Course, WriteFault>
    requires valid { Valid roots.old }
    requires begun { IsBegun roots.old progress.old }
    requires few { first.left ≤ most_branchings }
    ensures stays { roots.new ≡ roots.old }
    ensures begun { OnOk result (IsBegun roots.new progress.new) }
    ensures left { IfOk result (λ now. now.left ≤ first.left) }
    ensures ok { IfOk result (λ now. (start : Progress) (before : Option Files)
        → IsCourse roots.old start name.now before progress.old (S.Sink.view shelf.old).files first
        → IsCourse roots.old start name.now before progress.new (S.Sink.view shelf.new).files now) }
    ensures err { OnErr result ((start : Progress) (before : Option Files)
        → IsCourse roots.old start name.now before progress.old (S.Sink.view shelf.old).files first
        → IsHalted roots.old start name.now before (S.Sink.view shelf.new).files) }
    ensures counts { Counts (S.Sink.view shelf.old).faults (S.Sink.view shelf.new).faults result }
    ensures read_faults { (S.Sink.view shelf.new).read_faults ≡ (S.Sink.view shelf.old).read_faults }
{
    let mut course = first;
    let mut gap = Gap::of(roots.instance());
    for _ in 0..MOST_AIMS {
        let Some(order) = next_order(&gap, course, progress.incumbent_end) else {
            return Ok(course);
        };
        course = later_round(order, course, roots, progress, name, shelf)?;
        gap.narrow(order.aim, course.shown);
    }
    Ok(course)
}

/// Runs a last round, at the best end that is known and with all that is left, where anything is left to be searched.
fn last_round<S: Shelf>(
    course: Course,
    roots: &mut Roots,
    progress: &mut Progress,
    name: &str,
    shelf: &mut S,
) -> Result<Course, WriteFault>
    requires valid { Valid roots.old }
    requires begun { IsBegun roots.old progress.old }
    requires few { course.left ≤ most_branchings }
    ensures stays { roots.new ≡ roots.old }
    ensures ok { IfOk result (λ now. (start : Progress) (before : Option Files)
        → IsCourse roots.old start name.now before progress.old (S.Sink.view shelf.old).files course
        → IsCourse roots.old start name.now before progress.new (S.Sink.view shelf.new).files now) }
    ensures err { OnErr result ((start : Progress) (before : Option Files)
        → IsCourse roots.old start name.now before progress.old (S.Sink.view shelf.old).files course
        → IsHalted roots.old start name.now before (S.Sink.view shelf.new).files) }
    ensures spent { IfOk result (λ now. outcome now.shown progress.new.incumbent_end ≡ Budget → now.left ≡ 0) }
    ensures counts { Counts (S.Sink.view shelf.old).faults (S.Sink.view shelf.new).faults result }
    ensures read_faults { (S.Sink.view shelf.new).read_faults ≡ (S.Sink.view shelf.old).read_faults }
{
    if course.left == 0 || outcome(course.shown, progress.incumbent_end) != Kind::Budget {
        return Ok(course);
    }
    let order = Order {
        limit: course.left,
        aim: Bound::Never,
    };
    later_round(order, course, roots, progress, name, shelf)
}

/// Runs all rounds of a search, and makes the tree's file of what they write. Others follow the first where that hadn't all
/// branchings.
pub(crate) fn run_rounds<S: Shelf>(
    roots: &mut Roots,
    progress: &mut Progress,
    name: &str,
    shelf: &mut S,
) -> Result<Course, WriteFault>
    requires valid { Valid roots.old }
    requires begun { IsBegun roots.old progress.old }
    ensures stays { roots.new ≡ roots.old }
    ensures ok { IfOk result (IsCourse roots.old progress.old name.now (S.Sink.view shelf.old).files
        progress.new (S.Sink.view shelf.new).files) }
    ensures err { OnErr result (((S.Sink.view shelf.new).files ≡ (S.Sink.view shelf.old).files)
        ⊎ IsHalted roots.old progress.old name.now (S.Sink.view shelf.old).files (S.Sink.view shelf.new).files) }
    ensures spent { IfOk result (λ course. outcome course.shown progress.new.incumbent_end ≡ Budget
        → (course.left ≡ 0) ⊎ IsAtMost progress.old.aim course.shown) }
    ensures unmade { OnOk result (progress.new.incumbent_end ≡ Never → (S.Sink.view shelf.new).made ≡ None) }
    ensures counts { Counts (S.Sink.view shelf.old).faults (S.Sink.view shelf.new).faults result }
    ensures read_faults { (S.Sink.view shelf.new).read_faults ≡ (S.Sink.view shelf.old).read_faults }
{
    let nodes = progress.limit;
    let first = first_round(roots, progress, name, shelf)?;
    if progress.limit == nodes {
        return Ok(first);
    }
    let aimed = aimed_rounds(first, roots, progress, name, shelf)?;
    last_round(aimed, roots, progress, name, shelf)
}
