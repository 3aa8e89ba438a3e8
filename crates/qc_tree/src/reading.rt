//! How a line of a tree is read.
ghost use Rattle.std.specs.Prelude.{◌≡◌, ◌∷◌, [], List, ℕ, OnOk, IsErr, IfOk, MatchOption};
ghost use Rattle.qc_num.specs.Paths.{HasRoom};
ghost use Rattle.qc_tree.specs.Fields.{IsNoTitle, IsNoWord};
ghost use Rattle.qc_tree.specs.Lines.{AreTasks, IsTextOf, IsValue, Reads, bound_field, fields};

use crate::fields::{read_field, read_last};
use crate::line::{BadLine, Line};
use qc_num::{Bound, Path};

/// How many tasks a list has at most.
const MOST_TASKS: usize = 240;

/// How many digits the number of a task, a tree's value and the number of branchings have at most.
const TASK_DIGITS: usize = 4;

const VALUE_DIGITS: usize = 15;

const COUNT_DIGITS: usize = 7;

/// The line that the text is, where the text has no line feed. The path becomes the line's list, and
/// is empty for a line without one.
pub fn read_line(text: &[u8], path: &mut Path) -> Result<Line, BadLine>
    requires room { HasRoom 240 path.old }
    ensures reads { Reads text.now path.new.items result }
    ensures room_stays { path.new.capacity ≡ path.old.capacity }
{
    path.clear();
    let Some((first, rest)) = text.split_first() else {
        return Err(BadLine);
    };
    match *first {
        b'A' => read_assign(rest),
        b'O' => read_order(rest),
        b'P' => read_chain(rest, path),
        b'C' => read_ring(rest, path),
        b'Q' => read_clash(rest, path),
        b'W' => read_work(rest),
        b'e' => read_end(rest),
        _ => read_word(text),
    }
}

/// A line without numbers.
fn read_word(text: &[u8]) -> Result<Line, BadLine>
    ensures ok { IfOk result (λ line. IsTextOf text.now line []) }
    ensures err { IsErr result → IsNoWord text.now }
{
    if text == b"up".as_slice() {
        Ok(Line::Up)
    } else if text == b"down".as_slice() {
        Ok(Line::Down)
    } else if text == b"X".as_slice() {
        Ok(Line::Reach)
    } else {
        Err(BadLine)
    }
}

/// What stands behind `A`.
fn read_assign(rest: &[u8]) -> Result<Line, BadLine>
    ensures { Reads (65 ∷ rest.now) [] result }
{
    let Some(task) = read_last(rest, TASK_DIGITS) else {
        return Err(BadLine);
    };
    Ok(Line::Assign(task as u16))
}

/// What stands behind `O`.
fn read_order(rest: &[u8]) -> Result<Line, BadLine>
    ensures { Reads (79 ∷ rest.now) [] result }
{
    let Some((first, rest)) = read_field(rest, TASK_DIGITS) else {
        return Err(BadLine);
    };
    let Some(second) = read_last(rest, TASK_DIGITS) else {
        return Err(BadLine);
    };
    Ok(Line::Order(first as u16, second as u16))
}

/// What stands behind `P`.
fn read_chain(rest: &[u8], path: &mut Path) -> Result<Line, BadLine>
    requires empty { path.old.items ≡ [] }
    requires room { HasRoom 240 path.old }
    ensures reads { Reads (80 ∷ rest.now) path.new.items result }
    ensures room_stays { path.new.capacity ≡ path.old.capacity }
{
    read_tasks(rest, path)?;
    Ok(Line::Chain)
}

/// What stands behind `C`.
fn read_ring(rest: &[u8], path: &mut Path) -> Result<Line, BadLine>
    requires empty { path.old.items ≡ [] }
    requires room { HasRoom 240 path.old }
    ensures reads { Reads (67 ∷ rest.now) path.new.items result }
    ensures room_stays { path.new.capacity ≡ path.old.capacity }
{
    read_tasks(rest, path)?;
    if path.len() < 2 {
        return Err(BadLine);
    }
    Ok(Line::Ring)
}

/// The title of which this stands behind `Q`, if it is one.
fn title_in(rest: &[u8]) -> Option<Line>
    ensures { MatchOption result (IsNoTitle (81 ∷ rest.now))
        (λ line. IsTextOf (81 ∷ rest.now) line []) }
{
    if rest == b"CTREE 3".as_slice() {
        Some(Line::Title)
    } else if rest == b"CFREE 1".as_slice() {
        Some(Line::FreeTitle)
    } else {
        None
    }
}

/// What stands behind `Q`: the rest of a title, or packed tasks.
fn read_clash(rest: &[u8], path: &mut Path) -> Result<Line, BadLine>
    requires empty { path.old.items ≡ [] }
    requires room { HasRoom 240 path.old }
    ensures reads { Reads (81 ∷ rest.now) path.new.items result }
    ensures room_stays { path.new.capacity ≡ path.old.capacity }
{
    if let Some(title) = title_in(rest) {
        return Ok(title);
    }
    read_tasks(rest, path)?;
    if path.is_empty() {
        return Err(BadLine);
    }
    Ok(Line::Clash)
}

/// What stands behind `W`.
fn read_work(rest: &[u8]) -> Result<Line, BadLine>
    ensures { Reads (87 ∷ rest.now) [] result }
{
    let Some(value) = read_last(rest, VALUE_DIGITS) else {
        return Err(BadLine);
    };
    if value == 0 {
        return Err(BadLine);
    }
    Ok(Line::Work(value))
}

/// What stands behind `e`.
fn read_end(rest: &[u8]) -> Result<Line, BadLine>
    ensures { Reads (101 ∷ rest.now) [] result }
{
    let Some((word, rest)) = rest.split_at_checked(2) else {
        return Err(BadLine);
    };
    if word != b"nd".as_slice() {
        return Err(BadLine);
    }
    let Some((branched, rest)) = read_field(rest, COUNT_DIGITS) else {
        return Err(BadLine);
    };
    let Some(bound) = read_bound(rest) else {
        return Err(BadLine);
    };
    Ok(Line::End(branched as u32, bound))
}

/// A tree's value, after one space.
fn read_bound(text: &[u8]) -> Option<Bound>
    ensures { MatchOption result ((x : Bound) → IsValue x → ¬ (text.now ≡ bound_field x))
        (λ x. IsValue x × (text.now ≡ bound_field x)) }
{
    if text == b" never".as_slice() {
        return Some(Bound::Never);
    }
    let value = read_last(text, VALUE_DIGITS)?;
    Some(Bound::Least(value))
}

/// Puts the tasks that the text lists, each after one space, into the empty path.
fn read_tasks(text: &[u8], path: &mut Path) -> Result<(), BadLine>
    requires empty { path.old.items ≡ [] }
    requires room { HasRoom 240 path.old }
    ensures ok { OnOk result (AreTasks path.new.items × (text.now ≡ fields path.new.items)) }
    ensures err { IsErr result → (tasks : List ℕ) → AreTasks tasks → ¬ (text.now ≡ fields tasks) }
    ensures room_stays { path.new.capacity ≡ path.old.capacity }
{
    let mut rest = text;
    while !rest.is_empty() {
        if path.len() == MOST_TASKS {
            return Err(BadLine);
        }
        let Some((task, behind)) = read_field(rest, TASK_DIGITS) else {
            return Err(BadLine);
        };
        path.push_reserved(task as u16);
        rest = behind;
    }
    Ok(())
}
