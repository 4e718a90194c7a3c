//! The elements of an XML document, one within another, with their attributes and their characters.
#![tactic(auto)]

mod attributes;
mod elements;
mod spans;

pub use attributes::{attribute, text};
pub use elements::{Part, all_in, first_in, parts, place_of};
pub use spans::bytes_at;
