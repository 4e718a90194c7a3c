//! Two programs side by side in one: that program, and what belongs together in it and in each of the two.
#![tactic(auto)]

mod beside;
mod declaring;
mod fitting;
mod moving;
mod numbering;
mod pairing;
mod parts;
mod sites;
mod small;
mod suiting;

pub use beside::{Beside, put_beside};
pub use parts::is_part;
pub use suiting::is_suited;
