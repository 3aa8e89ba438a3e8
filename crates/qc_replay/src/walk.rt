//! The way through a tree, line by line.
ghost use Rattle.std.specs.Prelude.{◌≡◌, ℕ, List, IfOk};
ghost use Rattle.qc_model.specs.Instance.{InstanceView, Valid};
ghost use Rattle.qc_tree.specs.Lines.{IsLine};
ghost use Rattle.qc_replay.specs.Read.{with_known, with_line};
ghost use Rattle.qc_replay.specs.Stages.{behind_title, is_over, leading, second_root, word_of, WalkView, IsKeptWalk, walk_of};
ghost use Rattle.qc_replay.specs.Walk.{Reading, at_due, came, end, is_known, start, title, replayed};

use crate::descent::Descent;
use crate::fault::Replayed;
use crate::node::{Tally, on_line};
use qc_model::{Direction, Instance, Turn, copy, mirror};
use qc_num::{Bound, OutOfMemory};
use qc_tree::{Line, TreeKind};
use std::alloc::Global;
use std::marker::Model;

/// What stands before the next line.
#[derive(Clone, Copy)]
pub(crate) enum Stage {
    /// Nothing: the title is due.
    Title,
    /// The title: the word of the part for the instance is due.
    Up,
    /// What begins a part, and some of its nodes: a node is due, or behind the last what follows the part.
    Part,
    /// The last line.
    Done,
}

/// How far a tree is read, and what its lines come to. All memory is taken by `new`.
pub(crate) struct Walk {
    inst: Instance,
    stage: Stage,
    tally: Tally,
    /// The part that is read, and which way it goes.
    part: Descent,
    way: Direction,
    /// The part for the mirror, as long as it must still come. Where cranes go as they like there is none.
    second: Option<Descent>,
}

impl Model for Walk {
    ghost Value = { WalkView };

    ghost view = { walk_of };

    ghost invariant = { IsKeptWalk };
}

// By hand, so that it is let go by one call wherever it is held.
impl Drop for Walk {
    fn drop(self) {
        let Walk {
            inst: _,
            stage: _,
            tally: _,
            part: _,
            way: _,
            second: _,
        } = self;
    }
}

/// The part for the mirror, which a tree has where cranes go one way.
fn second_root(alloc: Global, inst: &Instance) -> Result<Option<Descent>, OutOfMemory>
    ensures { IfOk result (λ second. second ≡ second_root inst.now.turn inst.now) }
{
    match inst.turn() {
        Turn::OneWay => {
            let mirrored = mirror(alloc, inst)?;
            let down = Descent::new(alloc, &mirrored)?;
            Ok(Some(down))
        }
        Turn::Free => Ok(None),
    }
}

/// Whether the line is one of trees for cranes with this turn.
fn is_known(turn: Turn, line: Line) -> bool
    ensures { result ≡ is_known turn line }
{
    match turn {
        Turn::OneWay => !matches!(line, Line::FreeTitle),
        Turn::Free => !matches!(line, Line::Title | Line::Up | Line::Down),
    }
}

impl Walk {
    /// Before the first line of a tree of the instance.
    pub(crate) fn new(alloc: Global, inst: &Instance) -> Result<Walk, OutOfMemory>
        ensures start { IfOk result (λ new. new ≡ record { inst = inst.now; reading = start inst.now }) }
        ensures valid { IfOk result (λ new. Valid inst.now) }
    {
        let kept = copy(alloc, inst)?;
        let Ok(part) = Descent::new(alloc, inst) else {
            drop(kept); // by name: proved faster
            return Err(OutOfMemory);
        };
        let Ok(second) = second_root(alloc, inst) else {
            drop(part); // by name: proved faster
            drop(kept);
            return Err(OutOfMemory);
        };
        Ok(Walk {
            inst: kept,
            stage: Stage::Title,
            tally: Tally {
                branched: 0,
                bound: Bound::Never,
            },
            part,
            way: Direction::Up,
            second,
        })
    }

    /// Whether no line must come any more.
    pub(crate) fn is_over(&self) -> bool
        ensures { result ≡ is_over self.now.reading }
    {
        matches!(self.stage, Stage::Done)
    }

    /// What the lines come to.
    pub(crate) fn shown(&self) -> Replayed
        ensures { result ≡ replayed self.now.reading }
    {
        Replayed {
            bound: self.tally.bound,
            branched: self.tally.branched,
        }
    }

    /// Takes the next line, with its list, or answers its fault.
    pub(crate) fn take(&mut self, line: Line, numbers: &[u16]) -> Result<(), TreeKind>
        requires { IsLine line numbers.now }
        ensures inst { self.new.inst ≡ self.old.inst }
        ensures taken { with_line self.old.inst self.old.reading
            (record { line = line; list = numbers.now }) ≡ leading (λ _. self.new.reading) result }
    {
        if self.is_over() {
            return Err(TreeKind::After);
        }
        if !is_known(self.inst.turn(), line) {
            return Err(TreeKind::Spelling);
        }
        self.take_known(line, numbers)
    }

    /// The same of a line that trees for this turn have.
    fn take_known(&mut self, line: Line, numbers: &[u16]) -> Result<(), TreeKind>
        requires { IsLine line numbers.now }
        ensures inst { self.new.inst ≡ self.old.inst }
        ensures taken { with_known self.old.inst self.old.reading
            (record { line = line; list = numbers.now }) ≡ leading (λ _. self.new.reading) result }
    {
        match self.stage {
            Stage::Title => {
                expect_title(line)?;
                self.stage = behind_title(&self.second);
                Ok(())
            }
            Stage::Up => {
                expect_word(Direction::Up, line)?;
                self.stage = Stage::Part;
                Ok(())
            }
            Stage::Part => {
                if self.part.is_live() {
                    self.tally = on_line(&mut self.part, self.tally, line, numbers)?;
                    return Ok(());
                }
                match self.second.take() {
                    None => {
                        expect_end(self.tally, line)?;
                        self.stage = Stage::Done;
                        Ok(())
                    }
                    Some(second) => {
                        expect_word(Direction::Down, line)?;
                        self.way = Direction::Down;
                        go_on_with(&mut self.part, second);
                        Ok(())
                    }
                }
            }
            Stage::Done => Err(TreeKind::After),
        }
    }
}

/// Puts the second part in the place of the first.
fn go_on_with(part: &mut Descent, second: Descent)
    ensures { part.new ≡ second }
{
    *part = second;
}

/// What stands before the line behind the title: only where there are two parts do words begin them.
fn behind_title(second: &Option<Descent>) -> Stage
    ensures { result ≡ behind_title second.now }
{
    match second {
        Some(_) => Stage::Up,
        None => Stage::Part,
    }
}

/// The line must be a title.
fn expect_title(line: Line) -> Result<(), TreeKind>
    ensures { (inst : InstanceView) (r : Reading) (list : List ℕ)
        → at_due inst r title line list ≡ leading (λ _. came r) result }
{
    match line {
        Line::Title | Line::FreeTitle => Ok(()),
        _ => Err(TreeKind::Place),
    }
}

/// The line must begin the part that goes this way.
fn expect_word(way: Direction, line: Line) -> Result<(), TreeKind>
    ensures { (inst : InstanceView) (r : Reading) (list : List ℕ)
        → at_due inst r (word_of way) line list ≡ leading (λ _. came r) result }
{
    match way {
        Direction::Up => match line {
            Line::Up => Ok(()),
            _ => Err(TreeKind::Place),
        },
        Direction::Down => match line {
            Line::Down => Ok(()),
            _ => Err(TreeKind::Place),
        },
    }
}

/// The line must be the last one of a tree that comes to this.
fn expect_end(tally: Tally, line: Line) -> Result<(), TreeKind>
    ensures { (inst : InstanceView) (r : Reading) (list : List ℕ)
        → r.branched ≡ tally.branched → r.bound ≡ tally.bound
        → at_due inst r end line list ≡ leading (λ _. came r) result }
{
    match line {
        Line::End(branched, bound) => {
            if branched == tally.branched && bound == tally.bound {
                Ok(())
            } else {
                Err(TreeKind::Counts)
            }
        }
        _ => Err(TreeKind::Place),
    }
}
