//! One block of raw memory for cells. The functions here are the only ones that reach the memory,
//! and each is proved by hand.
ghost use Rattle.std.specs.Prelude.{◌≡◌, ℕ, ◌+◌, ◌<◌, [], ◌∷◌, ◌++◌, List, IfSome, length, slice_index_or};
ghost use denote.RawPtr.{Ptr};
ghost use Rattle.qc_arena.specs.declared.block.Cell.{Cell};
ghost use Rattle.qc_arena.specs.contracts.block.Cell.{the_row};
ghost use Rattle.qc_arena.specs.Chains.{arc_of, older_at};
ghost use Rattle.qc_arena.specs.Memory.{FitsBlock, block_owns, block_lent, block_type, place_of};

use crate::Edge;
use qc_num::Tick;
use std::alloc::Allocator;
use std::marker::{Model, PhantomData};
use std::mem::{align_of, size_of};

/// Where a cell lies. It owns nothing.
#[derive(Clone, Copy)]
pub(crate) struct Link {
    at: *mut Cell,
}

/// An arc, and where the next older arcs of its two nodes lie.
#[derive(Clone, Copy)]
pub(crate) struct Cell {
    pub(crate) from: u16,
    pub(crate) to: u16,
    /// How many cells are older.
    pub(crate) number: u32,
    pub(crate) len: Tick,
    /// The next older arc that leaves the same node.
    pub(crate) older_out: Option<Link>,
    /// The next older arc that enters the same node.
    pub(crate) older_in: Option<Link>,
}

/// One end of arcs: the node that they leave, or the one that they enter.
#[derive(Clone, Copy)]
pub(crate) enum Side {
    Out,
    In,
}

impl Cell {
    /// The arc.
    pub(crate) fn arc(&self) -> Edge
        ensures { result ≡ arc_of self.now }
    {
        Edge {
            from: self.from,
            to: self.to,
            len: self.len,
        }
    }

    /// The next older arc of its node at a side.
    pub(crate) fn older(&self, side: Side) -> Option<Link>
        ensures { result ≡ older_at side self.now }
    {
        match side {
            Side::Out => self.older_out,
            Side::In => self.older_in,
        }
    }
}

/// The owner of the block: cells, oldest first, and after them room for `spare` more.
pub(crate) struct Block {
    at: *mut Cell,
    ghost cells: { List Cell },
    ghost spare: { ℕ },
}

impl Model for Block {
    ghost also_owns = { λ b. block_owns the_row b.at b.cells b.spare };

    ghost also_shares = { λ b _ κ. block_lent the_row b.at b.cells κ };
}

/// The right to give the block back to its allocator. It takes no bytes.
pub(crate) struct Lease<A: Allocator> {
    mark: PhantomData<A>,
    ghost alloc: { A },
    ghost at: { Ptr },
    ghost cap: { ℕ },
}

impl<A: Allocator> Model for Lease<A> {
    ghost also_owns = { λ l. A.dealloc_token l.alloc (block_type the_row l.cap) l.at };
}

/// Room for that many cells, or `None` where the allocator refuses it.
pub(crate) fn reserve<A: Allocator>(alloc: &A, cap: usize) -> Option<(Block, Lease<A>)>
    requires { FitsBlock the_row cap }
    ensures { IfSome result (λ r. (r.0.cells ≡ []) × (r.0.spare ≡ cap)
        × (r.1.at ≡ r.0.at) × (r.1.cap ≡ cap) × (r.1.alloc ≡ alloc.now)) }
{
    match alloc.allocate(cap * size_of::<Cell>(), align_of::<Cell>()) {
        Ok(block) => {
            let at = block as *mut Cell;
            Some((Block { at }, Lease { mark: PhantomData }))
        }
        Err(_) => None,
    }
}

/// Gives the block back.
pub(crate) fn release<A: Allocator>(block: Block, lease: Lease<A>, alloc: &A, cap: usize)
    requires { (length block.cells + block.spare ≡ cap)
        × (lease.at ≡ block.at) × (lease.cap ≡ cap) × (lease.alloc ≡ alloc.now) }
{
    let Block { at } = block;
    let Lease { mark: _ } = lease;
    unsafe {
        alloc.deallocate(at as *mut u8, cap * size_of::<Cell>(), align_of::<Cell>());
    }
}

impl Block {
    /// The cell that the link leads to.
    pub(crate) fn get(&self, link: Link) -> &Cell
        requires { (k : ℕ) × (k < length self.now.cells) × (link.at ≡ place_of the_row self.now.at k) }
        ensures { (k : ℕ) (d : Cell) → link.at ≡ place_of the_row self.now.at k
            → result.now ≡ slice_index_or self.now.cells k d }
    {
        unsafe { &*link.at }
    }

    /// Writes a cell behind the others, of which there are `number`, and answers where it lies.
    pub(crate) fn push(&mut self, number: usize, cell: Cell) -> Link
        requires { (number ≡ length self.old.cells) × (0 < self.old.spare) }
        ensures { (self.new.cells ≡ self.old.cells ++ cell ∷ [])
            × (self.new.spare + 1 ≡ self.old.spare)
            × (self.new.at ≡ self.old.at)
            × (result.at ≡ place_of the_row self.old.at number) }
    {
        unsafe {
            let at = self.at.add(number);
            *at = cell;
            Link { at }
        }
    }

    /// Takes the newest cell away, before which there are `number`.
    pub(crate) fn pop(&mut self, number: usize) -> Cell
        requires { number + 1 ≡ length self.old.cells }
        ensures { (self.old.cells ≡ self.new.cells ++ result ∷ [])
            × (self.new.spare ≡ self.old.spare + 1)
            × (self.new.at ≡ self.old.at) }
    {
        unsafe { *self.at.add(number) }
    }
}
