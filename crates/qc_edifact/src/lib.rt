//! UN/EDIFACT: the segments of a text, and their elements and components.
//!
//! `plain` takes a byte-order mark and line breaks out of a file. `Segments` gives the segments of
//! what is left, one after the other, by the service signs that `UNA` tells, or else the usual ones;
//! a fault in them is the last that it gives. Of a segment `part` gives the bytes of a component,
//! without release signs.
#![tactic(auto)]

mod segment;
mod segments;
mod signs;
mod text;

pub use segment::{Part, Segment};
pub use segments::{NoSigns, SegmentFault, Segments};
pub use text::plain;
