//! One sweep over the events of a part.

use crate::chosen::cranes_of;
use crate::layer::{Turn, choose, expand};
use crate::node::{Node, Step};
use crate::trail::Trail;
use qc_num::{OutOfMemory, Tick};
use qc_part::UpwardView;
use std::alloc::Global;

/// A crane for each task, as a sweep found it.
#[derive(Drop)]
pub(crate) struct Found {
    /// When the last task ends, where pairs that are apart or ordered don't count.
    pub(crate) latest: Tick,
    pub(crate) cranes: Vec<Option<u16>>,
}

/// What a sweep came to.
#[derive(Drop)]
pub(crate) struct Swept {
    pub(crate) found: Option<Found>,
    /// Whether states were left out for want of width.
    pub(crate) cut: bool,
    /// Of how many states the children were made.
    pub(crate) effort: usize,
}

/// The node that ends first; `None` where there is none.
fn earliest(nodes: &[Node]) -> Option<&Node> {
    let mut best = nodes.first()?;
    for node in nodes {
        if node.latest < best.latest {
            best = node;
        }
    }
    Some(best)
}

/// The layer before any event.
fn first_layer(alloc: Global, part: &UpwardView, end: Tick) -> Result<Vec<Node>, OutOfMemory> {
    let mut layer = Vec::new(alloc);
    let state = part.root();
    if let Some(slack) = part.slack(&state, 0, end) {
        let step = Step {
            parent: 0,
            from: 0,
            to: 0,
        };
        layer.push(Node {
            state,
            latest: 0,
            slack,
            step,
        })?;
    }
    Ok(layer)
}

/// Makes the children of a layer at an event and, where another event comes, chooses the next layer of them. Whether
/// states were left out.
fn advance(
    turn: &Turn<'_>,
    width: usize,
    layer: &mut Vec<Node>,
    children: &mut Vec<Node>,
    trail: &mut Trail,
) -> Result<bool, OutOfMemory> {
    expand(turn, layer.as_slice(), children)?;
    if turn.number.saturating_add(1) >= turn.part.events().len() {
        return Ok(false);
    }
    let cut = choose(children, width, layer)?;
    trail.add(layer.as_slice())?;
    Ok(cut)
}

/// Looks for a crane for each task so that all end before the tick, with at most so many states a
/// layer.
pub(crate) fn sweep(
    alloc: Global,
    part: &UpwardView,
    end: Tick,
    width: usize,
) -> Result<Swept, OutOfMemory> {
    let mut layer = first_layer(alloc, part, end)?;
    let mut children = Vec::new(alloc);
    let mut trail = Trail::new(alloc);
    let mut cut = false;
    let mut effort: usize = 0;
    for (number, event) in part.events().iter().enumerate() {
        effort = effort.saturating_add(layer.len());
        let turn = Turn {
            part,
            event,
            number,
            is_last: part.is_last(number, event.hatch),
            end,
        };
        let more = advance(&turn, width, &mut layer, &mut children, &mut trail)?;
        cut = cut || more;
    }
    let found = match earliest(children.as_slice()) {
        None => None,
        Some(node) => Some(Found {
            latest: node.latest,
            cranes: cranes_of(alloc, part, &trail, node.step)?,
        }),
    };
    Ok(Swept { found, cut, effort })
}
