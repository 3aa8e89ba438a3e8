//! The files that a command reads.
ghost use Rattle.std.specs.Prelude.{◌≡◌, Some, option_map};
ghost use Rattle.qc_run.specs.Inputs.{bay_plans_named, input_of, moving, name_of, names_of, no_names};

use qc_bayplan::Which;
use qc_model::Turn;
use qc_num::Tick;

/// A file that a command reads, by what it is for. `Own` is a plan that the planner has already, `Arrival` and
/// `Departure` are the bay plans of a call at a port, `Past` tells how long tasks of past calls took.
#[derive(Clone, Copy, PartialEq, Eq)]
pub enum Input {
    Ship,
    Stow,
    Plan,
    Tree,
    Own,
    Log,
    Arrival,
    Departure,
    Past,
}

/// The names of the files of a command that reads a ship file: of that one, and of each other that it reads as well.
/// `own` is a plan that the planner has already. `turn` says which schedules are asked about: those that go one way, or
/// all that are feasible.
#[derive(Clone, Copy)]
pub struct Inputs<'a> {
    pub ship: &'a str,
    pub stow: Option<&'a str>,
    pub plan: Option<&'a str>,
    pub tree: Option<&'a str>,
    pub own: Option<&'a str>,
    pub log: Option<&'a str>,
    pub past: Option<&'a str>,
    pub turn: Turn,
}

impl<'a> Inputs<'a> {
    /// A ship file alone, by schedules that go one way.
    pub fn of(ship: &'a str) -> Inputs<'a>
        ensures { names_of result ≡ record no_names { ship = Some ship.now } }
    {
        Inputs {
            ship,
            stow: None,
            plan: None,
            tree: None,
            own: None,
            log: None,
            past: None,
            turn: Turn::OneWay,
        }
    }

    /// The name of the file that is for this; none where the command reads no such file.
    pub fn name_of(&self, file: Input) -> Option<&'a str>
        ensures { option_map (λ name. name.now) result ≡ name_of file (names_of self.now) }
    {
        match file {
            Input::Ship => Some(self.ship),
            Input::Stow => self.stow,
            Input::Plan => self.plan,
            Input::Tree => self.tree,
            Input::Own => self.own,
            Input::Log => self.log,
            Input::Arrival => None,
            Input::Departure => None,
            Input::Past => self.past,
        }
    }
}

/// What a plan is asked for with.
#[derive(Clone, Copy)]
pub struct PlanAsked<'a> {
    /// The files that are read, and which plans are asked about.
    pub inputs: Inputs<'a>,
    /// The plan's file, which is written.
    pub plan: &'a str,
    /// The tree's file, which is written.
    pub tree: &'a str,
    /// How many branchings the search takes at most.
    pub nodes: u32,
}

/// What a list of moves is asked for with.
#[derive(Clone, Copy)]
pub struct MovesAsked<'a> {
    /// The bay plan of the ship as it arrives, which is read.
    pub arrival: &'a str,
    /// The bay plan for its departure, which is read.
    pub departure: &'a str,
    /// The stowage list, which is written.
    pub stow: &'a str,
}

/// What the odds of a plan are asked for with.
#[derive(Clone, Copy)]
pub struct OddsAsked<'a> {
    /// The files that are read: a ship file, a stowage list, a plan and past tasks.
    pub inputs: Inputs<'a>,
    /// How many runs.
    pub runs: u16,
    /// What the draws begin with: equal seeds draw equal lengths.
    pub seed: u32,
    /// A tick by which it is asked how often the ship is done, beside the end of the plan.
    pub by_tick: Option<Tick>,
}

/// What the rest of a plan is asked for with, in the middle of its work.
#[derive(Clone, Copy)]
pub struct RestAsked<'a> {
    /// The files that are read: a ship file, a stowage list, a plan and the log of its work so far.
    pub inputs: Inputs<'a>,
    /// The ship file of what is left, which is written.
    pub new_ship: &'a str,
    /// The stowage list of what is left, which is written.
    pub new_stow: &'a str,
    /// The plan's file by which the old order goes on, which is written.
    pub own: &'a str,
}

/// The file that holds a bay plan.
pub(crate) fn input_of(which: Which) -> Input
    ensures { result ≡ input_of which }
{
    match which {
        Which::Arrival => Input::Arrival,
        Which::Departure => Input::Departure,
    }
}

impl<'a> MovesAsked<'a> {
    /// The name of the file that holds this bay plan.
    pub fn name_of(&self, which: Which) -> &'a str
        ensures { Some result.now ≡ name_of (input_of which) (bay_plans_named (moving self.now)) }
    {
        match which {
            Which::Arrival => self.arrival,
            Which::Departure => self.departure,
        }
    }
}
