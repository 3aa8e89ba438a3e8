//! Ships and stowage lists that are made from a number, so that the program can be tried at any
//! size (`ship_text`, `list_text`); and how a table of a ship file is put together (`put`).
#![tactic(auto)]

mod draws;
mod list;
mod ship;
mod table;

pub use list::list_text;
pub use ship::ship_text;
pub use table::put;
