//! The order of each task's moves.

ghost use Rattle.std.specs.Prelude.{◌≡◌, ◌<◌, length, map, All, IfOk};
ghost use Rattle.qc_model.specs.Instance.{task};
ghost use Rattle.qc_stow.specs.Moves.{AreMoves};
ghost use Rattle.qc_tasks.specs.InstanceOf.{instance_of};
ghost use Rattle.qc_sheet.specs.Entries.{Marks};
ghost use Rattle.qc_sheet.specs.Order.{AreOrders, IsOrder, order_of};
ghost use Rattle.qc_sheet.specs.declared.forties.TheConstants.{SPOTS};

use crate::entry::{Entry, entries_of, sort};
use crate::forties::{SPOTS, blank, mark_forties};
use crate::order::moves_of;
use qc_model::{Instance, Task};
use qc_num::OutOfMemory;
use qc_ship::Ship;
use qc_stow::{Moves, Row};
use std::alloc::Global;
use std::marker::Model;

/// The order of a task's moves.
#[derive(Drop)]
pub(crate) struct Order {
    numbers: Vec<u32>,
}

impl Model for Order {
    ghost use Rattle.std.specs.Prelude.{ℕ, List};

    ghost Value = { List ℕ };

    ghost view = { λ order. order.numbers.items };
}

impl Order {
    /// The order that entries are in.
    fn of(alloc: Global, entries: &[Entry]) -> Result<Order, OutOfMemory>
        ensures { IfOk result (λ order. order ≡ map (λ e. e.number) entries.now) }
    {
        let numbers = entries
            .iter()
            .map(|entry| entry.number)
            .collect(alloc)
            .map_err(OutOfMemory::from)?;
        Ok(Order { numbers })
    }

    /// The numbers of the moves.
    fn numbers(&self) -> &[u32]
        ensures { result.now ≡ self.now }
    {
        self.numbers.as_slice()
    }
}

/// The 40-foot containers among moves, as a table of rows and heights.
fn forties_of(alloc: Global, rows: &[Row], numbers: &[u32]) -> Result<Vec<bool>, OutOfMemory>
    requires { All (λ n. n < length rows.now) numbers.now }
    ensures size { IfOk result (λ v. length v.items ≡ SPOTS) }
    ensures marks { IfOk result (λ v. Marks rows.now numbers.now v.items) }
{
    let mut table = blank(alloc, SPOTS)?;
    mark_forties(rows, numbers, table.as_mut_slice());
    Ok(table)
}

/// The order of a task's moves.
fn order_of(alloc: Global, rows: &[Row], task: &Task) -> Result<Order, OutOfMemory>
    requires { AreMoves rows.now }
    ensures { IfOk result (λ order. IsOrder rows.now task.now order) }
{
    let numbers = moves_of(alloc, rows, task)?;
    let table = forties_of(alloc, rows, numbers.as_slice())?;
    let mut entries = entries_of(alloc, rows, table.as_slice(), numbers.as_slice())?;
    sort(&mut entries)?;
    Order::of(alloc, entries.as_slice())
}

/// For each task the order in which its containers are lifted off or set down: none is lifted from
/// under another, and none is set onto a place whose support isn't there. It is seen as one list of
/// move numbers, from 0, for each task.
#[derive(Drop)]
pub struct Sheet {
    orders: Vec<Order>,
}

impl Model for Sheet {
    ghost use Rattle.std.specs.Prelude.{ℕ, List};

    ghost Value = { List (List ℕ) };

    ghost view = { λ sheet. sheet.orders.items };
}

impl Sheet {
    /// The order for each task of the instance, which is that of the ship and the moves.
    pub fn new(
        alloc: Global,
        inst: &Instance,
        ship: &Ship,
        moves: &Moves,
    ) -> Result<Sheet, OutOfMemory>
        requires { inst.now ≡ instance_of ship.now moves.now }
        ensures { IfOk result (λ sheet. AreOrders moves.now inst.now.tasks sheet) }
    {
        let rows = moves.rows();
        let mut orders = Vec::new(alloc);
        for task in inst.tasks() {
            orders.push(order_of(alloc, rows, task)?)?;
        }
        Ok(Sheet { orders })
    }

    /// The order of the moves of a task, by its number from 0.
    pub fn order(&self, task: u16) -> &[u32]
        requires { task < length self.now }
        ensures { result.now ≡ order_of self.now task }
    {
        self.orders[task as usize].numbers()
    }
}
