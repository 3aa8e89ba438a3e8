//! Tasks of which no two can run together.

ghost use Rattle.std.specs.Prelude.{◌≡◌, ◌==◌, ◌+◌, ◌*◌, ◌<◌, ◌≤◌, ℕ, ℤ, drop, All, IfSome, MatchBool, MatchOption, length, slice_index, true, false, int_le, nat_le};
ghost use Rattle.std.specs.List.{list_all, list_any};
ghost use Rattle.std.specs.Option.{option_map_or};
ghost use Rattle.qc_close.specs.Model.{MOST_DISTANCE, MOST_TASKS, MOST_WORK, crane_numbers, ticks_over, reaches, place, all_clash, all_differ, is_doable, is_packed, pack};
ghost use Rattle.qc_close.specs.Bands.{AreBelow, AreStacked, IsBandOf, IsFinding, IsFoundFrom, IsNearest, IsPlace, IsReach, IsStretch, Lies, may, widened};

use crate::Crew;
use qc_dist::in_reach;
use qc_model::{bays_up, travel_over};
use qc_num::{Bay, Tick, lesser};

/// Places along the rail from one to another.
#[derive(Clone, Copy)]
pub(crate) struct Band {
    pub(crate) low: Bay,
    pub(crate) high: Bay,
}

/// A band with one place more.
fn widened(band: Option<Band>, place: Bay) -> Band
    ensures { result ≡ widened band place }
{
    match band {
        None => Band {
            low: place,
            high: place,
        },
        Some(band) => Band {
            low: place.min(band.low),
            high: place.max(band.high),
        },
    }
}

/// Whether a place lies as high as a floor, if there is one.
fn is_as_high(floor: Option<Bay>, place: Bay) -> bool
    ensures { result ≡ option_map_or (λ x. int_le x place) floor false }
{
    match floor {
        None => false,
        Some(floor) => floor <= place,
    }
}

/// Whether a task is one of these.
fn is_among(tasks: &[u16], task: u16) -> bool
    ensures { result ≡ list_any (λ j. j == task) tasks.now }
{
    tasks.contains(&task)
}

/// The tasks behind so many.
fn behind(tasks: &[u16], count: usize) -> &[u16]
    requires { count ≤ length tasks.now }
    ensures { result.now ≡ drop count tasks.now }
{
    &tasks[count..]
}

/// Whether all tasks of a list are different.
fn all_differ(tasks: &[u16]) -> bool
    ensures { result ≡ all_differ tasks.now }
{
    for (index, task) in tasks.iter().enumerate() {
        if is_among(behind(tasks, index + 1), *task) {
            return false;
        }
    }
    true
}

/// Whether no more than a number has been found.
fn is_found(before: Option<Tick>, number: Tick) -> bool
    ensures { result ≡ option_map_or (λ m. nat_le m number) before false }
{
    match before {
        None => false,
        Some(least) => least <= number,
    }
}

impl Crew {
    /// Whether a crane may do a task: it has it, or no crane has it and this one reaches it.
    fn may(&self, task: u16, crane: u16) -> bool
        requires task { task < length self.now.inst.tasks }
        requires crane { crane < length self.now.inst.cranes }
        ensures { result ≡ may self.now.inst self.now.cranes task crane }
    {
        match self.crane_of(task) {
            Some(own) => own == crane,
            None => in_reach(self.instance(), task, crane),
        }
    }

    /// The gaps of so many cranes, in bays.
    fn gaps(&self, cranes: u16) -> Tick
        requires { cranes < length self.now.inst.cranes }
        ensures bays { result ≡ self.now.inst.gap * cranes }
        ensures bound { result ≤ 16000 }
    {
        let gap = bays_up(0, self.instance().gap());
        gap * Tick::from(cranes)
    }

    /// Where a task lies for a crane.
    fn place(&self, task: u16, crane: u16) -> Bay
        requires task { task < length self.now.inst.tasks }
        requires crane { crane < length self.now.inst.cranes }
        ensures place { result ≡ place self.now.inst task crane }
        ensures near { IsPlace result }
    {
        let bay = self.instance().task(task).bay;
        bay - self.gaps(crane) as Bay
    }

    /// Whether some crane reaches a task.
    fn is_in_reach(&self, task: u16) -> bool
        requires { task < length self.now.inst.tasks }
        ensures { result ≡ list_any (reaches self.now.inst task) (crane_numbers self.now.inst) }
    {
        let inst = self.instance();
        for crane in 0..inst.crane_count() {
            if in_reach(inst, task, crane) {
                return true;
            }
        }
        false
    }

    /// Whether it is a task that some crane may do.
    fn is_doable(&self, task: u16) -> bool
        ensures { result ≡ is_doable self.now.inst self.now.cranes task }
    {
        task < self.instance().task_count()
            && (self.crane_of(task).is_some() || self.is_in_reach(task))
    }

    /// Whether some crane may do each of the tasks.
    fn are_doable(&self, tasks: &[u16]) -> bool
        ensures { result ≡ list_all (is_doable self.now.inst self.now.cranes) tasks.now }
    {
        tasks.iter().all(|task| self.is_doable(*task))
    }

    /// From where to where those of the tasks lie that a crane may do.
    fn band(&self, tasks: &[u16], crane: u16) -> Option<Band>
        requires tasks { All (λ j. j < length self.now.inst.tasks) tasks.now }
        requires crane { crane < length self.now.inst.cranes }
        ensures { IsBandOf self.now.inst self.now.cranes tasks.now crane (length tasks.now) result }
    {
        let mut band: Option<Band> = None;
        for task in tasks {
            if self.may(*task, crane) {
                band = Some(widened(band, self.place(*task, crane)));
            }
        }
        band
    }

    /// Whether the tasks of each of so many cranes lie below those of each crane below it.
    fn are_stacked(&self, tasks: &[u16], count: u16) -> bool
        requires tasks { All (λ j. j < length self.now.inst.tasks) tasks.now }
        requires count { count ≤ length self.now.inst.cranes }
        ensures { MatchBool result
            (AreStacked self.now.inst self.now.cranes tasks.now count)
            (¬ AreStacked self.now.inst self.now.cranes tasks.now count) }
    {
        let mut floor: Option<Bay> = None;
        for crane in 0..count {
            if let Some(band) = self.band(tasks, crane) {
                if is_as_high(floor, band.high) {
                    return false;
                }
                floor = Some(band.low);
            }
        }
        true
    }

    /// Whether each task clashes with those behind it.
    fn all_clash(&self, tasks: &[u16]) -> bool
        requires { All (λ j. j < length self.now.inst.tasks) tasks.now }
        ensures { result ≡ all_clash self.now.inst self.now.cranes tasks.now }
    {
        self.are_stacked(tasks, self.instance().crane_count())
    }

    /// Whether the tasks are packed.
    fn is_packed(&self, tasks: &[u16]) -> bool
        ensures { result ≡ is_packed self.now.inst self.now.cranes tasks.now }
    {
        !tasks.is_empty() && self.are_doable(tasks) && all_differ(tasks) && self.all_clash(tasks)
    }

    /// The nearest place of a task at this one or above, where those of all but so many cranes lie below it.
    fn nearest(&self, task: u16, low: Bay, cranes: u16) -> Option<Bay>
        requires task { task < length self.now.inst.tasks }
        requires near { IsPlace low }
        requires cranes { cranes ≤ length self.now.inst.cranes }
        requires below { AreBelow self.now.inst self.now.cranes task cranes low }
        ensures { MatchOption result
            ((high : ℤ) → ¬ Lies self.now.inst self.now.cranes low high task)
            (IsNearest self.now.inst self.now.cranes low task) }
    {
        let _inst = self.instance(); // for what it ensures
        for above in 0..cranes {
            let crane = cranes - 1 - above;
            if self.may(task, crane) {
                let place = self.place(task, crane);
                if low <= place {
                    return Some(place);
                }
            }
        }
        None
    }

    /// The nearest place up to which each of the tasks may lie from this one on, where those of all but
    /// so many cranes lie below it; `None` too where that is no nearer than what was found.
    fn reach(&self, tasks: &[u16], low: Bay, cranes: u16, before: Option<Tick>) -> Option<Bay>
        requires tasks { All (λ j. j < length self.now.inst.tasks) tasks.now }
        requires near { IsPlace low }
        requires cranes { cranes ≤ length self.now.inst.cranes }
        requires below { (i : ℕ) → i < length tasks.now
            → AreBelow self.now.inst self.now.cranes (slice_index tasks.now i) cranes low }
        ensures { MatchOption result
            (IsFoundFrom self.now.inst self.now.cranes tasks.now before low)
            (IsReach self.now.inst self.now.cranes tasks.now (length tasks.now) low) }
    {
        let mut high = low;
        for task in tasks {
            match self.nearest(*task, low, cranes) {
                None => return None,
                Some(place) => {
                    if is_found(before, bays_up(low, place)) {
                        return None;
                    }
                    high = high.max(place);
                }
            }
        }
        Some(high)
    }

    /// The bays from a place up to where each of the tasks may lie, or what was found where that is no
    /// more.
    fn closer(&self, tasks: &[u16], low: Bay, cranes: u16, before: Option<Tick>) -> Option<Tick>
        requires tasks { All (λ j. j < length self.now.inst.tasks) tasks.now }
        requires near { IsPlace low }
        requires cranes { cranes ≤ length self.now.inst.cranes }
        requires below { (i : ℕ) → i < length tasks.now
            → AreBelow self.now.inst self.now.cranes (slice_index tasks.now i) cranes low }
        ensures finding { IsFinding self.now.inst self.now.cranes tasks.now before result }
        ensures found { IsFoundFrom self.now.inst self.now.cranes tasks.now result low }
    {
        match self.reach(tasks, low, cranes, before) {
            None => before,
            Some(high) => Some(lesser(before, bays_up(low, high))),
        }
    }

    /// The same from each place of a task on.
    fn closest(&self, tasks: &[u16], index: usize, before: Option<Tick>) -> Option<Tick>
        requires tasks { All (λ j. j < length self.now.inst.tasks) tasks.now }
        requires index { index < length tasks.now }
        requires stacked { AreStacked self.now.inst self.now.cranes tasks.now
            (length self.now.inst.cranes) }
        ensures finding { IsFinding self.now.inst self.now.cranes tasks.now before result }
        ensures found { (v : ℕ) → v < length self.now.inst.cranes
            → may self.now.inst self.now.cranes (slice_index tasks.now index) v ≡ true
            → IsFoundFrom self.now.inst self.now.cranes tasks.now result
            (place self.now.inst (slice_index tasks.now index) v) }
    {
        let task = tasks[index];
        let mut least = before;
        for crane in 0..self.instance().crane_count() {
            if self.may(task, crane) {
                least = self.closer(tasks, self.place(task, crane), crane + 1, least);
            }
        }
        least
    }

    /// The fewest bays among which each of the tasks may lie.
    fn span(&self, tasks: &[u16]) -> Option<Tick>
        requires tasks { All (λ j. j < length self.now.inst.tasks) tasks.now }
        requires stacked { AreStacked self.now.inst self.now.cranes tasks.now
            (length self.now.inst.cranes) }
        ensures stretch { IfSome result (IsStretch self.now.inst self.now.cranes tasks.now) }
        ensures found { (i v : ℕ) → i < length tasks.now → v < length self.now.inst.cranes
            → may self.now.inst self.now.cranes (slice_index tasks.now i) v ≡ true
            → IsFoundFrom self.now.inst self.now.cranes tasks.now result
            (place self.now.inst (slice_index tasks.now i) v) }
    {
        let mut least = None;
        for index in 0..tasks.len() {
            least = self.closest(tasks, index, least);
        }
        least
    }

    /// The ticks of the tasks.
    fn ticks(&self, tasks: &[u16]) -> Tick
        requires tasks { All (λ j. j < length self.now.inst.tasks) tasks.now }
        requires few { length tasks.now ≤ length self.now.inst.tasks }
        ensures ticks { result ≡ ticks_over self.now.inst tasks.now }
        ensures bound { result ≤ MOST_TASKS * MOST_WORK }
    {
        let inst = self.instance();
        let mut ticks = 0;
        for task in tasks {
            ticks += inst.task(*task).ticks;
        }
        ticks
    }

    /// The ticks that packed tasks need from the start of the first to the end of the last: their own,
    /// and the travel between them. `None` exactly where they aren't packed.
    pub fn pack(&self, tasks: &[u16]) -> Option<Tick>
        ensures ticks { result ≡ pack self.now.inst self.now.cranes tasks.now }
        ensures soon { IfSome result (λ ticks. ticks ≤ MOST_TASKS * MOST_WORK + MOST_DISTANCE) }
    {
        let inst = self.instance();
        if !self.is_packed(tasks) {
            return None;
        }
        match self.span(tasks) {
            None => None,
            Some(span) => Some(self.ticks(tasks) + travel_over(inst, span)),
        }
    }
}
