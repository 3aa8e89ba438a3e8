//! What is said to whoever asks about the program.
ghost use Rattle.std.specs.Prelude.{◌<◌, length};

use crate::commands::CommandName;

const HELP: &[u8] = b"qc plans the quay cranes that work one container ship from one rail.

qc plan SHIP STOW PLAN TREE [--nodes N] [--from OWN]
    writes the best plan it finds, and a tree that shows how early one that goes one way can end
qc check SHIP STOW PLAN TREE
    whether a plan holds, and what a tree shows; with - for PLAN the tree alone
qc tasks SHIP STOW
    the tasks of a stowage list, with their bays, lengths and order
qc show SHIP STOW PLAN
    where the cranes of a plan stand, and a drawing in letters
qc make NUMBER HATCHES CRANES
    a ship made from a number, planned and checked in memory
qc free SHIP STOW PLAN TREE [--nodes N] [--from OWN]
    plans as plan does, where cranes may go to and fro, and writes a tree of all feasible plans
qc freecheck SHIP STOW PLAN TREE
    whether a plan holds, whichever way its cranes go, and what such a tree shows
qc sheet SHIP STOW PLAN
    for each crane its containers in the order of the work, with their ticks
qc dispatch SHIP STOW PLAN LOG
    when each task may start, by a log of what happened
qc watch SHIP LOG
    whether two cranes came too near, by a log of their places
qc picture SHIP STOW PLAN
    a drawing of a plan in time and place, as an SVG
qc report SHIP STOW PLAN
    the figures of each crane of a plan, as a CSV
qc moves ARRIVAL DEPARTURE STOW
    writes the list of moves that leads from one bay plan to another
qc odds SHIP STOW PLAN PAST [--runs N] [--seed S] [--by T]
    how often a plan ends in time, by how long tasks of past calls took
qc rest SHIP STOW PLAN LOG NEWSHIP NEWSTOW OWN
    writes what is left of a plan in the middle of its work, to be planned anew

qc COMMAND --help tells more of one command, qc --version which program this is. With -q as the
first word nothing is said on standard error.
Pages: man qc for the commands, man 5 qc for the files, and docs/PLANNERS.md to begin with.
";

const PLAN: &[u8] = b"qc plan SHIP STOW PLAN TREE [--nodes N] [--from OWN]

Searches for a plan that ends early, and writes the best that it finds, and a tree that shows how
early one that goes one way can end.
    --nodes N    at most N branchings of the search, 0 to 1000000; 20000 where it isn't given
    --from OWN   a plan to begin with: the plan that is written never ends later
Ends with 0 Optimal: no plan that goes one way ends earlier; 10 Infeasible: none goes one way;
11 Budget: the branchings are spent, the plan is the best that is known, and none that goes one
way ends before the bound; 12 Budget: the same, and no plan is known; 13 Broken: OWN breaks a rule.
Of plans in which cranes go to and fro it says nothing: free does.
Faults end with 2 to 6, 8, 9 and 15, and are told by their kind and place: man 5 qc.
";

const CHECK: &[u8] = b"qc check SHIP STOW PLAN TREE

Judges a plan of any origin, and tells by the tree whether one that goes one way can end earlier.
With - for PLAN it tells the bound of the tree alone. It searches nothing.
Ends with 0 Optimal or Bound, 10 Infeasible, 13 Broken, 14 Weaker.
Faults end with 2 to 9 and 15, and are told by their kind and place: man 5 qc.
";

const TASKS: &[u8] = b"qc tasks SHIP STOW

Prints the tasks with their bays and lengths, which is before which, and which are apart.
Ends with 0.
Faults end with 2 to 6, 9 and 15, and are told by their kind and place: man 5 qc.
";

const SHOW: &[u8] = b"qc show SHIP STOW PLAN

Prints the direction and the end of a plan, where each crane stands, and a drawing in letters.
Ends with 0, or 13 Broken.
Faults end with 2 to 6, 8, 9 and 15, and are told by their kind and place: man 5 qc.
";

const MAKE: &[u8] = b"qc make NUMBER HATCHES CRANES

Makes a ship and a list from a number, plans them with 500 branchings, checks the plan, and
prints a summary. NUMBER is 0 to 2147483647, HATCHES 1 to 60, CRANES 1 to 8. No file is touched.
Ends with 0.
Faults end with 2, 4 and 9, and are told by their kind and place: man 5 qc.
";

const FREE: &[u8] = b"qc free SHIP STOW PLAN TREE [--nodes N] [--from OWN]

Searches as plan does, for plans of any kind: a crane may go to and fro where it pays. It goes on
from what a search as of plan finds first, with as many branchings, so it takes longer; its tree is
one of all feasible plans.
    --nodes N    at most N branchings of each search, 0 to 1000000; 20000 where it isn't given
    --from OWN   a plan to begin with, whichever way its cranes go: what is written never ends later
Ends with 0 Optimal: no feasible plan ends earlier; 10 Infeasible: there is none; 11 Budget: the
branchings are spent, the plan is the best that is known, and none ends before the bound;
12 Budget: the same, and no plan is known; 13 Broken: OWN breaks a rule.
Faults end with 2 to 6, 8, 9 and 15, and are told by their kind and place: man 5 qc.
";

const FREE_CHECK: &[u8] = b"qc freecheck SHIP STOW PLAN TREE

Judges a plan of any origin, whichever way its cranes go, and tells by a tree of all feasible plans
whether any of them can end earlier. With - for PLAN it tells the bound of the tree alone. It
searches nothing.
Ends with 0 Optimal or Bound, 10 Infeasible, 13 Broken, 14 Weaker.
Faults end with 2 to 9 and 15, and are told by their kind and place: man 5 qc.
";

const SHEET: &[u8] = b"qc sheet SHIP STOW PLAN

Prints for each crane its tasks, and for each task its containers in the order in which they are
lifted or set down, each with the tick at which its move begins.
Ends with 0, or 13 Broken.
Faults end with 2 to 6, 8, 9 and 15, and are told by their kind and place: man 5 qc.
";

const DISPATCH: &[u8] = b"qc dispatch SHIP STOW PLAN LOG

Follows the order of a plan with the lengths that tasks really take. LOG has lines tick N, when N
ticks go by, done TASK, and left TASK N, what a task that runs still needs, by which nothing starts;
each start is told at the first moment at which the rules allow it.
Ends with 0, or 13 Broken.
Faults end with 2 to 6, 8, 9, 15 and 17, and are told by their kind and place: man 5 qc.
";

const WATCH: &[u8] = b"qc watch SHIP LOG

Reads a log of lines TIME NAME PLACE, and tells whether two cranes came nearer than their margin
while both are known, each from its first report to its last.
Ends with 0 Safe, or 18 Breach.
Faults end with 2 to 5, 9, 15 and 17, and are told by their kind and place: man 5 qc.
";

const PICTURE: &[u8] = b"qc picture SHIP STOW PLAN

Prints a drawing of a plan, whichever way its cranes go, as an SVG: ticks downwards, places across,
a box for each task, a line and a band for each crane. Open it with any browser.
Ends with 0, or 13 Broken.
Faults end with 2 to 6, 8, 9 and 15, and are told by their kind and place: man 5 qc.
";

const REPORT: &[u8] = b"qc report SHIP STOW PLAN

Prints a CSV with a row for each crane of a plan, whichever way its cranes go: its tasks and moves,
its ticks until it is ready, of work, of moving, of waiting and idle, its last end, its share of all
work.
Ends with 0, or 13 Broken.
Faults end with 2 to 6, 8, 9 and 15, and are told by their kind and place: man 5 qc.
";

const MOVES: &[u8] = b"qc moves ARRIVAL DEPARTURE STOW

Reads the bay plans of a ship on arrival and for its departure, both BAPLIE messages of version 2 or
3, and writes the stowage list of the moves that lead from the one to the other, with what must be
lifted and put back.
Ends with 0.
Faults end with 2 to 4, 9, 15 and 19, and are told by their kind and place: man 5 qc.
";

const ODDS: &[u8] = b"qc odds SHIP STOW PLAN PAST [--runs N] [--seed S] [--by T]

Works a plan many times, each time with lengths drawn from those that tasks of one past call took,
and tells when the ship is done, how often by the end of the plan, and which tasks to watch.
    --runs N   so many runs, 1 to 10000; 1000 where it isn't given
    --seed S   what the draws begin with, 0 to 2147483647; 0 where it isn't given
    --by T     tells also how often the ship is done by tick T, 0 to 999999999999
Ends with 0, or 13 Broken.
Faults end with 2 to 6, 8, 9, 15 and 21, and are told by their kind and place: man 5 qc.
";

const REST: &[u8] = b"qc rest SHIP STOW PLAN LOG NEWSHIP NEWSTOW OWN

Follows a plan by a log, as dispatch does, and writes what has no start yet, with tick 0 at the last
tick of LOG: a ship file, a stowage list, and OWN, a plan by which the old order goes on. Then
qc plan NEWSHIP NEWSTOW PLAN2 TREE2 --from OWN looks for a better one. All seven names differ.
Ends with 0, 13 Broken, or 20 NoRest: a task that runs has no ticks left, or a crane is ready too
late or would stand too far out. With these no file is written.
Faults end with 2 to 6, 8, 9, 15 and 17, and are told by their kind and place: man 5 qc.
";

const VERSION: &[u8] = b"qc 0.4.0
proved with rattle-kit-13f logic dac8208d650f15bf
";

/// What one command does, and how it ends.
fn command_help(of: CommandName) -> &'static [u8]
    ensures { 0 < length result.now }
{
    match of {
        CommandName::Plan => PLAN,
        CommandName::Check => CHECK,
        CommandName::Tasks => TASKS,
        CommandName::Show => SHOW,
        CommandName::Make => MAKE,
        CommandName::Free => FREE,
        CommandName::FreeCheck => FREE_CHECK,
        CommandName::Sheet => SHEET,
        CommandName::Dispatch => DISPATCH,
        CommandName::Watch => WATCH,
        CommandName::Picture => PICTURE,
        CommandName::Report => REPORT,
        CommandName::Moves => MOVES,
        CommandName::Odds => ODDS,
        CommandName::Rest => REST,
    }
}

/// What the program does and its commands, or one command.
pub fn help_text(of: Option<CommandName>) -> &'static [u8]
    ensures { 0 < length result.now }
{
    match of {
        None => HELP,
        Some(of) => command_help(of),
    }
}

/// Which program this is, and what it was proved with.
pub fn version_text() -> &'static [u8]
    ensures { 0 < length result.now }
{
    VERSION
}
