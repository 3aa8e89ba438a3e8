//! Small changes of who does which task, tried by chance.

use crate::dice::Dice;
use crate::shares::Shares;
use qc_num::OutOfMemory;

/// How often a task of a crane is drawn that may go to another one.
const DRAWS: usize = 8;

/// The next crane up or down, by chance.
fn neighbour(dice: &mut Dice, crane: u16) -> u16 {
    if dice.below(2) == 0 {
        crane.saturating_add(1)
    } else {
        crane.wrapping_sub(1)
    }
}

/// A task, by chance.
fn any(shares: &Shares, dice: &mut Dice) -> u16 {
    u16::try_from(dice.below(shares.count())).unwrap_or(0)
}

/// A task of a crane that may go to another one, by chance.
fn any_of(shares: &Shares, dice: &mut Dice, crane: u16, to: u16) -> Option<u16> {
    for _ in 0..DRAWS {
        let task = shares.task_of(crane, dice.below(shares.count_of(crane)))?;
        if shares.may_go(task, to) {
            return Some(task);
        }
    }
    None
}

/// Gives a task to the next crane up or down. Whether it may go there.
fn shift(shares: &mut Shares, dice: &mut Dice) -> Result<bool, OutOfMemory> {
    let task = any(shares, dice);
    let crane = neighbour(dice, shares.crane(task));
    if !shares.may_go(task, crane) {
        return Ok(false);
    }
    shares.give(task, crane)
}

/// Gives a task and those behind it in its hatch, as far as they have one crane, to the next crane down; or with those
/// ahead of it to the next one up. Whether that reaches them.
fn shift_run(shares: &mut Shares, dice: &mut Dice) -> Result<bool, OutOfMemory> {
    let task = any(shares, dice);
    let crane = shares.crane(task);
    let next = neighbour(dice, crane);
    let mut other = task;
    for _ in 0..4 {
        let beside = if next > crane {
            other.wrapping_sub(1)
        } else {
            other.saturating_add(1)
        };
        let goes_on = shares.are_together(other, beside);
        if !shares.give(other, next)? {
            return Ok(false);
        }
        if !goes_on {
            break;
        }
        other = beside;
    }
    Ok(true)
}

/// Gives a task of a crane that may go to another one to that, and tells which; `None` where none was found.
fn send(
    shares: &mut Shares,
    dice: &mut Dice,
    crane: u16,
    to: u16,
) -> Result<Option<u16>, OutOfMemory> {
    let Some(task) = any_of(shares, dice, crane, to) else {
        return Ok(None);
    };
    shares.give(task, to)?;
    Ok(Some(task))
}

/// Exchanges a task of a crane and one of the next crane, and in a third of all tries gives one more of them to the
/// other crane. Whether three or two tasks were found that may go there.
fn exchange(shares: &mut Shares, dice: &mut Dice) -> Result<bool, OutOfMemory> {
    let crane = u16::try_from(dice.below(shares.crane_count().saturating_sub(1))).unwrap_or(0);
    let next = crane.saturating_add(1);
    let Some(one) = send(shares, dice, crane, next)? else {
        return Ok(false);
    };
    let Some(other) = send(shares, dice, next, crane)? else {
        return Ok(false);
    };
    if other == one {
        return Ok(false);
    }
    if dice.below(3) > 0 {
        return Ok(true);
    }
    let (from, to) = if dice.below(2) == 0 {
        (crane, next)
    } else {
        (next, crane)
    };
    let more = send(shares, dice, from, to)?;
    Ok(more.is_some_and(|more| more != one && more != other))
}

/// Changes something, by chance, so that along the phases of no hatch the cranes rise. Whether that could be: else it is
/// to be taken back.
pub(crate) fn change(shares: &mut Shares, dice: &mut Dice) -> Result<bool, OutOfMemory> {
    let kind = dice.below(100);
    if kind < 25 {
        shift(shares, dice)
    } else if kind < 35 {
        shift_run(shares, dice)
    } else {
        exchange(shares, dice)
    }
}
