//! Routes through a network to what acts, whatever is on: which elements lead to it, and to nothing that acts before it.
#![tactic(auto)]

mod firsts;
mod lists;
mod routes;

pub use firsts::{are_ordered, is_within, leads_to_none};
pub use routes::leads_to;
