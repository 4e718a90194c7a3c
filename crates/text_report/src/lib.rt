//! The text of a report, in HTML or in Markdown: its head, and parts with a heading, a sentence, and a text or a table.
#![tactic(auto)]

mod escaping;
mod form;
mod head;
mod marks;
mod part;
mod rows;
mod table;

pub use form::Form;
pub use head::{Head, add_fact, add_head, add_tail, end_facts};
pub use part::{Body, Part, add_part};
pub use rows::read_rows;
