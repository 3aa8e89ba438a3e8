//! Further lists of tasks that are tried as packed ones, where cranes go as they like and an order was
//! decided: of the tasks that start no sooner than some tick the heaviest in which, from one place along
//! the rail to the next below it, the crane's number doesn't fall, and one crane alone has each place. A
//! place is counted as its crane counts it, a gap further along for each crane below. Any two of such
//! tasks clash. What is found decides how much is shown, and nothing else.

ghost use Rattle.std.specs.Prelude.{◌≡◌, ◌<◌, ◌≤◌, All, IfSome, IsSome, length};
ghost use Rattle.qc_close.specs.Crews.{IsCrewOf};
ghost use Rattle.qc_model.specs.Early.{early};
ghost use Rattle.qc_num.specs.Paths.{HasRoom};
ghost use Rattle.qc_bounds.specs.Packed.{IsPackedFrom};

use crate::packed::{early, judge, least_ticks, most_travel};
use qc_close::Crew;
use qc_model::{Decision, MOST_CRANES, MOST_TASKS, Turn};
use qc_num::{Bay, Path, Tick};
use qc_starts::Starts;

/// A task that has a crane. They are in order along the rail, from its far end back.
#[derive(Clone, Copy, PartialEq, Eq, PartialOrd, Ord)]
struct Job {
    /// How many bays its place lies before place 0.
    depth: Bay,
    crane: u16,
    task: u16,
    /// From when it can start.
    begins: Tick,
    ticks: Tick,
}

/// The tasks that have a crane.
#[derive(Drop)]
struct Jobs {
    jobs: [Job; MOST_TASKS as usize],
    count: usize,
    ghost in_range: { count ≤ 240 },
}

impl Jobs {
    /// None.
    fn none() -> Jobs {
        let nothing = Job {
            depth: 0,
            crane: 0,
            task: 0,
            begins: 0,
            ticks: 0,
        };
        Jobs {
            jobs: [nothing; MOST_TASKS as usize],
            count: 0,
        }
    }

    /// One more; where there is no room, none is added.
    fn add(&mut self, job: Job) {
        if self.count < MOST_TASKS as usize {
            self.jobs[self.count] = job;
            self.count += 1;
        }
    }

    /// All, as they were added.
    fn as_slice(&self) -> &[Job] {
        &self.jobs[..self.count]
    }

    /// Puts them in order.
    fn sort(&mut self) {
        let mut jobs = self.jobs;
        jobs[..self.count].sort_unstable();
        self.jobs = jobs;
    }
}

/// A task with the crane that it has.
fn job_of(node: &Starts, crew: &Crew, task: u16) -> Option<Job>
    requires known { IsSome (early node.now.inst node.now.decisions) }
    requires node { task < length node.now.inst.tasks }
    requires crew { task < length crew.now.inst.tasks }
{
    let crane = crew.crane_of(task)?;
    let inst = crew.instance();
    let gaps = inst.gap().saturating_mul(Bay::from(crane));
    let done = inst.task(task);
    Some(Job {
        depth: gaps.saturating_sub(done.bay),
        crane,
        task,
        begins: early(node, task),
        ticks: done.ticks,
    })
}

/// The tasks that have a crane, in order along the rail.
fn jobs_of(node: &Starts, crew: &Crew) -> Jobs
    requires known { IsSome (early node.now.inst node.now.decisions) }
    requires crew { IsCrewOf crew.now node.now.inst node.now.decisions }
{
    let mut jobs = Jobs::none();
    for task in 0..node.instance().task_count() {
        if let Some(job) = job_of(node, crew, task) {
            jobs.add(job);
        }
    }
    jobs.sort();
    jobs
}

/// The heaviest list so far whose last task one crane has.
#[derive(Clone, Copy)]
struct Front {
    ticks: Tick,
    /// The number of its last job.
    last: Option<usize>,
}

/// The list with no task.
fn no_front() -> Front {
    Front {
        ticks: 0,
        last: None,
    }
}

/// For each crane, the heaviest list so far whose last task it has.
#[derive(Clone, Copy)]
struct Fronts {
    fronts: [Front; MOST_CRANES as usize],
}

impl Fronts {
    /// No list has a task.
    fn none() -> Fronts {
        Fronts {
            fronts: [no_front(); MOST_CRANES as usize],
        }
    }

    /// The list of a crane.
    fn of(&self, crane: u16) -> Front {
        if crane < MOST_CRANES {
            self.fronts[crane as usize]
        } else {
            no_front()
        }
    }

    /// Puts a list for a crane.
    fn put(&mut self, crane: u16, front: Front) {
        if crane < MOST_CRANES {
            self.fronts[crane as usize] = front;
        }
    }

    /// The heaviest of the lists up to that of a crane.
    fn heaviest(&self, crane: u16) -> Front {
        let mut best = no_front();
        for (number, front) in self.fronts.iter().enumerate() {
            if number <= crane as usize && best.ticks < front.ticks {
                best = *front;
            }
        }
        best
    }
}

/// For each job, the one before it in the heaviest list that it ends.
#[derive(Drop)]
struct Links {
    links: [Option<usize>; MOST_TASKS as usize],
}

impl Links {
    /// No job has one before it.
    fn none() -> Links {
        Links {
            links: [None; MOST_TASKS as usize],
        }
    }

    /// Says which one comes before a job.
    fn put(&mut self, number: usize, before: Option<usize>) {
        if number < MOST_TASKS as usize {
            self.links[number] = before;
        }
    }

    /// The one before a job.
    fn before(&self, number: usize) -> Option<usize> {
        if number < MOST_TASKS as usize {
            self.links[number]
        } else {
            None
        }
    }
}

/// A sweep along the jobs, with the heaviest lists of those that it has passed.
#[derive(Drop)]
struct Sweep {
    /// The lists of the places before this one.
    before: Fronts,
    /// Those with jobs of this place too.
    here: Fronts,
    /// The newest job.
    newest: Option<Job>,
    links: Links,
}

impl Sweep {
    /// The sweep before the first job.
    fn new() -> Sweep {
        Sweep {
            before: Fronts::none(),
            here: Fronts::none(),
            newest: None,
            links: Links::none(),
        }
    }

    /// Goes on to the place and the crane of a job.
    fn reach(&mut self, job: Job) {
        let (same_place, same_crane) = match self.newest {
            None => (false, false),
            Some(newest) => (newest.depth == job.depth, newest.crane == job.crane),
        };
        if !same_place {
            self.before = self.here;
        }
        if !same_place || !same_crane {
            let front = self.before.heaviest(job.crane);
            self.here.put(job.crane, front);
        }
        self.newest = Some(job);
    }

    /// Takes the next job.
    fn take(&mut self, number: usize, job: Job) {
        self.reach(job);
        let front = self.here.of(job.crane);
        self.links.put(number, front.last);
        let ticks = front.ticks.saturating_add(job.ticks);
        self.here.put(
            job.crane,
            Front {
                ticks,
                last: Some(number),
            },
        );
    }

    /// The heaviest list.
    fn heaviest(&self) -> Front {
        self.here.heaviest(MOST_CRANES)
    }
}

/// The sweep along the jobs that begin no sooner than a tick.
fn swept(jobs: &[Job], from: Tick) -> Sweep {
    let mut sweep = Sweep::new();
    for (number, job) in jobs.iter().enumerate() {
        if from <= job.begins {
            sweep.take(number, *job);
        }
    }
    sweep
}

/// Tasks that are listed.
#[derive(Drop)]
struct Marks {
    marks: [bool; MOST_TASKS as usize],
}

impl Marks {
    /// None is.
    fn none() -> Marks {
        Marks {
            marks: [false; MOST_TASKS as usize],
        }
    }

    /// Lists a task.
    fn put(&mut self, task: u16) {
        if task < MOST_TASKS {
            self.marks[task as usize] = true;
        }
    }

    /// Whether a task is listed.
    fn has(&self, task: u16) -> bool {
        task < MOST_TASKS && self.marks[task as usize]
    }

    /// Writes the tasks, by their numbers.
    fn write(&self, crew: &Crew, path: &mut Path)
        requires { HasRoom (length crew.now.inst.tasks) path.old }
        ensures range { All (λ j. j < length crew.now.inst.tasks) path.new.items }
        ensures few { length path.new.items ≤ length crew.now.inst.tasks }
        ensures room { path.new.capacity ≡ path.old.capacity }
    {
        path.clear();
        for task in 0..crew.instance().task_count() {
            if self.has(task) {
                path.push_reserved(task);
            }
        }
    }
}

/// The tasks of the heaviest list of a sweep.
fn marks_of(jobs: &[Job], sweep: &Sweep) -> Marks {
    let mut marks = Marks::none();
    let mut last = sweep.heaviest().last;
    for done in 0..jobs.len() {
        let number = jobs.len() - 1 - done;
        if last == Some(number) {
            marks.put(jobs[number].task);
            last = sweep.links.before(number);
        }
    }
    marks
}

/// Whether the lists are tried at a node: its newest decision is an order of cranes that go as they like.
/// Tasks get their cranes before any order is decided.
fn is_ordered(node: &Starts) -> bool {
    match (node.instance().turn(), node.newest()) {
        (Turn::Free, Some(Decision::Order(_, _))) => true,
        _ => false,
    }
}

/// The ticks of all jobs that begin no sooner than a tick.
fn ticks_from(jobs: &[Job], from: Tick) -> Tick {
    let mut ticks: Tick = 0;
    for job in jobs {
        if from <= job.begins {
            ticks = ticks.saturating_add(job.ticks);
        }
    }
    ticks
}

/// The heaviest list of the jobs that begin no sooner than a tick, with its ticks; `None` where all of them
/// together take fewer than so many ticks, or it does.
fn heaviest_from(jobs: &[Job], from: Tick, least: Tick) -> Option<(Marks, Tick)> {
    if ticks_from(jobs, from) < least {
        return None;
    }
    let sweep = swept(jobs, from);
    let ticks = sweep.heaviest().ticks;
    if ticks < least {
        return None;
    }
    Some((marks_of(jobs, &sweep), ticks))
}

/// Looks along the jobs for packed tasks that show this end or a later one.
fn late_along(node: &Starts, crew: &Crew, jobs: &[Job], end: Tick, path: &mut Path) -> Option<Tick>
    requires known { IsSome (early node.now.inst node.now.decisions) }
    requires crew { IsCrewOf crew.now node.now.inst node.now.decisions }
    requires room { HasRoom (length node.now.inst.tasks) path.old }
    requires count { length path.old.items ≤ length node.now.inst.tasks }
    ensures shows { IfSome result
        (IsPackedFrom node.now.inst node.now.decisions end path.new.items) }
    ensures count { length path.new.items ≤ length node.now.inst.tasks }
    ensures room { path.new.capacity ≡ path.old.capacity }
{
    let travel = most_travel(crew.instance());
    for job in jobs {
        let least = least_ticks(end, job.begins, travel);
        if let Some((marks, ticks)) = heaviest_from(jobs, job.begins, least) {
            marks.write(crew, path);
            if let Some(shown) = judge(node, crew, ticks, end, path.as_slice()) {
                return Some(shown);
            }
        }
    }
    None
}

/// Looks for packed tasks of this kind that show this end or a later one.
pub(crate) fn late_falling(node: &Starts, crew: &Crew, end: Tick, path: &mut Path) -> Option<Tick>
    requires known { IsSome (early node.now.inst node.now.decisions) }
    requires crew { IsCrewOf crew.now node.now.inst node.now.decisions }
    requires room { HasRoom (length node.now.inst.tasks) path.old }
    requires count { length path.old.items ≤ length node.now.inst.tasks }
    ensures shows { IfSome result
        (IsPackedFrom node.now.inst node.now.decisions end path.new.items) }
    ensures count { length path.new.items ≤ length node.now.inst.tasks }
    ensures room { path.new.capacity ≡ path.old.capacity }
{
    if !is_ordered(node) {
        return None;
    }
    let jobs = jobs_of(node, crew);
    late_along(node, crew, jobs.as_slice(), end, path)
}
