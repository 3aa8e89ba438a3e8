//! The numbers and bytes that every other crate shares: ticks, bays, bounds, short texts without
//! memory, plain decimal, readings and their errors.
//!
//! A text is the number that it is in plain decimal, if it is one (`plain_number`). A short text is
//! what was pushed onto it, never longer than its room (`Text`). Bytes are the list that they were
//! made of (`Bytes`). Of two bounds the lesser is found (`Bound`), of two ticks too (`lesser`), and
//! what divides both (`gcd`).
#![tactic(auto)]

mod bound;
mod bytes;
mod digits;
mod memory;
mod path;
mod read_error;
mod text;
mod ticks;

pub use bound::Bound;
pub use bytes::Bytes;
pub use digits::{are_digits, plain_number, value_of_digits};
pub use memory::OutOfMemory;
pub use path::Path;
pub use read_error::ReadError;
pub use text::Text;
pub use ticks::{gcd, lesser};

/// A time or a length of time. The tick is the unit of time.
pub type Tick = u64;

/// A crane bay, counted along the rail from the bow. Below 1 lies ahead of the ship.
pub type Bay = i32;
