//! What a request for a list asks, and how the list ends: its rows, the line of their counts, or a fault.
#![tactic(auto)]

mod asking;
mod counting;
mod ending;
mod forms;

pub use asking::{ListQuery, read_question, read_request};
pub use counting::{ListCounts, put_count, put_counts};
pub use ending::{ListForm, list_asked, list_request};
pub use forms::form_of;
