//! The states behind one event.

use crate::node::{Node, Step};
use qc_num::{OutOfMemory, Tick};
use qc_part::{Event, UpwardView};
use std::cmp::Reverse;

/// What a sweep is at: the event by its number, whether no event behind it is one of its hatch, and the
/// tick before which all is to end.
#[derive(Clone, Copy)]
pub(crate) struct Turn<'a> {
    pub(crate) part: &'a UpwardView,
    pub(crate) event: &'a Event,
    pub(crate) number: usize,
    pub(crate) is_last: bool,
    pub(crate) end: Tick,
}

/// What a state becomes at an event where so many tasks of the hatch are done; `None` where it can't
/// end before the tick.
fn grown(turn: &Turn<'_>, node: &Node, step: Step) -> Option<Node> {
    let child = turn.event.child(&node.state, step.to);
    let latest = node.latest.max(child.end.unwrap_or(0));
    if latest >= turn.end {
        return None;
    }
    let next = turn.number.saturating_add(1);
    let slack = turn.part.slack(&child.state, next, turn.end)?;
    Some(Node {
        state: child.state,
        latest,
        slack,
        step,
    })
}

/// Adds the children of a state that may end before the tick. Behind the event as many tasks of its
/// hatch are done as before it or more, and all where it is the last of the hatch.
fn add_children(
    turn: &Turn<'_>,
    node: &Node,
    parent: u32,
    children: &mut Vec<Node>,
) -> Result<(), OutOfMemory> {
    let from = node.state.done[turn.event.hatch as usize];
    let most = turn.event.block.count;
    let least = if turn.is_last { most } else { from };
    for to in least..most.saturating_add(1) {
        if let Some(child) = grown(turn, node, Step { parent, from, to }) {
            children.push(child)?;
        }
    }
    Ok(())
}

/// The children of all states of a layer that may end before the tick.
pub(crate) fn expand(
    turn: &Turn<'_>,
    layer: &[Node],
    children: &mut Vec<Node>,
) -> Result<(), OutOfMemory> {
    children.clear();
    let mut parent: u32 = 0;
    for node in layer {
        add_children(turn, node, parent, children)?;
        parent = parent.saturating_add(1);
    }
    Ok(())
}

/// Whether one of those before it with the same counts covers a node.
fn is_covered(before: &[Node], node: &Node) -> bool {
    for other in before.iter().rev() {
        if other.state.done != node.state.done {
            return false;
        }
        if other.state.covers(&node.state) {
            return true;
        }
    }
    false
}

/// Keeps those that none before them covers. They are in order.
fn keep_uncovered(nodes: &[Node], kept: &mut Vec<Node>) -> Result<(), OutOfMemory> {
    kept.clear();
    for node in nodes {
        if !is_covered(kept.as_slice(), node) {
            kept.push(*node)?;
        }
    }
    Ok(())
}

/// Keeps of the children those that none covers, at most so many and those with the most slack.
/// Whether there were more.
pub(crate) fn choose(
    children: &mut Vec<Node>,
    width: usize,
    layer: &mut Vec<Node>,
) -> Result<bool, OutOfMemory> {
    children.sort_unstable();
    keep_uncovered(children.as_slice(), layer)?;
    if layer.len() <= width {
        return Ok(false);
    }
    layer.sort_by_key(|node| Reverse(node.slack))?;
    layer.truncate(width);
    Ok(true)
}
