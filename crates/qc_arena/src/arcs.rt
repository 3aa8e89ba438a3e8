//! The arcs of a graph, kept in one block, pushed and popped as a stack.

ghost use Rattle.std.specs.Prelude.{◌≡◌, ◌↔◌, ◌<◌, [], ◌∷◌, ◌++◌, IfOk, IsSome, None, length, replicate, map, vec_len};
ghost use Rattle.std.specs.Option.{option_to_list};
ghost use Rattle.qc_arena.specs.Arcs.{leaving, entering, Arcs};
ghost use Rattle.qc_arena.specs.Chains.{arc_of};
ghost use Rattle.qc_arena.specs.Sound.{IsSound};

use crate::block::{Block, Cell, Lease, Link, Side, release, reserve};
use crate::{Edge, Walk};
use qc_num::{OutOfMemory, Tick};
use std::alloc::Global;
use std::marker::Model;

/// Arcs between a fixed number of nodes, seen as the list of arcs in the order of pushing. All
/// memory is taken by `new`.
pub struct ArcArena {
    block: Block,
    lease: Lease<Global>,
    alloc: Global,
    newest_out: Vec<Option<Link>>,
    newest_in: Vec<Option<Link>>,
    len: u32,
    cap: u32,
}

impl Model for ArcArena {
    ghost Value = { Arcs };

    ghost view = { λ a. record { arcs = map arc_of a.block.cells; nodes = vec_len a.newest_out; cap = a.cap } };

    ghost invariant = { IsSound };
}

impl Drop for ArcArena {
    fn drop(self) {
        let ArcArena {
            block,
            lease,
            alloc,
            newest_out: _,
            newest_in: _,
            len: _,
            cap,
        } = self;
        release(block, lease, &alloc, cap as usize);
    }
}

impl ArcArena {
    /// No arc, between that many nodes, and room for `cap` arcs.
    pub fn new(alloc: Global, nodes: u16, cap: u32) -> Result<ArcArena, OutOfMemory>
        ensures { IfOk result (λ arena. arena ≡ record { arcs = []; nodes = nodes; cap = cap }) }
    {
        let newest_out = no_links(alloc, nodes)?;
        let newest_in = no_links(alloc, nodes)?;
        match reserve(&alloc, cap as usize) {
            Some((block, lease)) => Ok(ArcArena {
                block,
                lease,
                alloc,
                newest_out,
                newest_in,
                len: 0,
                cap,
            }),
            None => Err(OutOfMemory),
        }
    }

    /// How many arcs there are.
    pub fn len(&self) -> u32
        ensures { result ≡ length self.now.arcs }
    {
        self.len
    }

    /// Puts an arc on top.
    pub fn push(&mut self, from: u16, to: u16, len: Tick)
        requires room { length self.old.arcs < self.old.cap }
        requires from { from < self.old.nodes }
        requires to { to < self.old.nodes }
        ensures { self.new ≡ record self.old {
          arcs = self.old.arcs ++ record { from = from; to = to; len = len } ∷ [];
        } }
    {
        let number = self.len;
        let cell = Cell {
            from,
            to,
            number,
            len,
            older_out: self.newest_out[from as usize],
            older_in: self.newest_in[to as usize],
        };
        let link = self.block.push(number as usize, cell);
        self.newest_out[from as usize] = Some(link);
        self.newest_in[to as usize] = Some(link);
        self.len = number + 1;
    }

    /// Takes the newest arc away, or answers `None` where there is no arc.
    pub fn pop(&mut self) -> Option<Edge>
        ensures arcs { self.old ≡ record self.new { arcs = self.new.arcs ++ option_to_list result } }
        ensures some { IsSome result ↔ (0 < length self.old.arcs) }
    {
        if self.len == 0 {
            return None;
        }
        self.len -= 1;
        let cell = self.block.pop(self.len as usize);
        self.newest_out[cell.from as usize] = cell.older_out;
        self.newest_in[cell.to as usize] = cell.older_in;
        Some(cell.arc())
    }

    /// The arcs that leave the node, newest first.
    pub fn out(&self, node: u16) -> Walk<'_>
        ensures { result ≡ leaving node self.now.arcs }
    {
        let next = match self.newest_out.get(node as usize) {
            Some(link) => *link,
            None => None,
        };
        Walk::over(&self.block, Side::Out, node, self.len, next)
    }

    /// The arcs that enter the node, newest first.
    pub fn into_of(&self, node: u16) -> Walk<'_>
        ensures { result ≡ entering node self.now.arcs }
    {
        let next = match self.newest_in.get(node as usize) {
            Some(link) => *link,
            None => None,
        };
        Walk::over(&self.block, Side::In, node, self.len, next)
    }
}

// A link for each node, which leads nowhere.
fn no_links(alloc: Global, nodes: u16) -> Result<Vec<Option<Link>>, OutOfMemory>
    ensures { IfOk result (λ links. links.items ≡ replicate nodes None) }
{
    vec![in alloc; None; nodes as usize].map_err(OutOfMemory::from)
}
