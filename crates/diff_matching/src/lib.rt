//! What belongs together in two programs, by names for one; when two states and all runs agree on it; a state that is carried over.
#![tactic(auto)]

mod agreement;
mod carrying;
pub mod laws;
mod matching;
mod names;
mod owner;

pub use agreement::{agree, agree_but_inputs};
pub use carrying::carry;
pub use matching::{Matching, Pair};
pub use owner::{Owner, owner_of};
