//! The page on which is said what is to be mended, the places and the tables of which it speaks, and what a file is that
//! isn't of the kind that is wanted.
#![tactic(auto)]

mod bytes;
mod form;
mod near;
mod page;
mod place;
mod table;

pub use bytes::{are_digits, are_digits_or, has, has_digit, has_letter, piece_at, text_of};
pub use form::{Sort, say_form};
pub use near::{is_near, nearest};
pub use page::Page;
pub use place::{Place, line_at, line_of, raw_line};
pub use table::{Table, is_blank, say_fields, say_header, table_of};
