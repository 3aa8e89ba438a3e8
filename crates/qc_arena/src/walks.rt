//! The arcs that leave a node, and those that enter it.

ghost use Rattle.std.specs.Prelude.{◌≡◌, length};
ghost use Rattle.std.specs.Iterator.{YieldsFirst, item_count};
ghost use Rattle.qc_arena.specs.Chains.{IsAhead, side_arcs};

use crate::Edge;
use crate::block::{Block, Link, Side};
use std::marker::Model;

/// The arcs of a node, newest first: those that leave it, or those that enter it.
#[derive(Drop)]
pub struct Walk<'a> {
    block: &'a Block,
    side: Side,
    node: u16,
    /// The arcs still to come are among the first `among` cells.
    among: u32,
    next: Option<Link>,
}

impl<'a> Model for Walk<'a> {
    ghost use Rattle.std.specs.Prelude.{List};
    ghost use Rattle.qc_arena.specs.declared.edge.Edge.{Edge};

    ghost Value = { List Edge };

    ghost use Rattle.qc_arena.specs.Chains.{IsAhead, side_arcs};

    ghost view = { λ w. side_arcs w.side w.node w.among w.block.now.cells };

    ghost invariant = { λ w. IsAhead w.block.now.at w.side w.block.now.cells w.node w.among w.next };
}

impl<'a> Walk<'a> {
    /// The walk over all the cells, which begins at the node's newest.
    pub(crate) fn over(
        block: &'a Block,
        side: Side,
        node: u16,
        among: u32,
        next: Option<Link>,
    ) -> Walk<'a>
        requires all { among ≡ length block.now.cells }
        requires ahead { IsAhead block.now.at side block.now.cells node among next }
        ensures { result ≡ side_arcs side node among block.now.cells }
    {
        Walk {
            block,
            side,
            node,
            among,
            next,
        }
    }
}

impl<'a> Iterator for Walk<'a> {
    type Item = Edge;

    ghost next_gives = { YieldsFirst (λ arcs. arcs) };

    ghost remaining = { item_count (λ arcs. arcs) };

    fn next(&mut self) -> Option<Edge> {
        let link = self.next?;
        let cell = self.block.get(link);
        self.among = cell.number;
        self.next = cell.older(self.side);
        Some(cell.arc())
    }
}
