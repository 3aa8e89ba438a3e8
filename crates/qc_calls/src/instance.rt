//! The instance of a row.

use anyhow::{Result, bail};
use qc_model::Instance;
use qc_num::OutOfMemory;
use qc_ship::{ShipError, read_ship};
use qc_stow::{StowError, read_stow};
use qc_tasks::{TasksError, tasks_of};
use std::alloc::Global;

/// The instance of a ship file and a stowage list.
pub fn instance_in(alloc: Global, ship: &str, list: &str) -> Result<Instance> {
    let ship = match read_ship(alloc, ship.as_bytes()) {
        Ok(ship) => ship,
        Err(ShipError::Fault(_)) => bail!("the ship file has a fault"),
        Err(ShipError::OutOfMemory) => return Err(OutOfMemory.into()),
    };
    let moves = match read_stow(alloc, list.as_bytes(), &ship) {
        Ok(moves) => moves,
        Err(StowError::Fault(_)) => bail!("the stowage list has a fault"),
        Err(StowError::OutOfMemory) => return Err(OutOfMemory.into()),
    };
    match tasks_of(alloc, &ship, &moves) {
        Ok(inst) => Ok(inst),
        Err(TasksError::Ring(_)) => bail!("the planner's own order has a ring"),
        Err(TasksError::OutOfMemory) => Err(OutOfMemory.into()),
    }
}
