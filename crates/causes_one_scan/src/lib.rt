//! The causes in one scan: which combinations of the listed inputs switch a coil on, found by a pruned search; their groups; and which inputs matter.
//!
//! `CauseTree` and `GroupTree`, and what makes them (`AskedScan`, `new_tree`, `new_group_tree`), are public for `diff_causes`, which searches two of them
//! as one.
#![tactic(auto)]

mod causes;
mod double;
mod entries;
mod group_tree;
mod groups;
mod lanes;
pub mod laws;
mod likening;
mod order;
mod passes;
mod probe;
mod quad;
mod query;
mod relevant;
pub mod relevant_laws;
mod tree;
mod words;

pub use causes::Causes;
pub use double::Double;
pub use group_tree::{GroupTree, new_group_tree};
pub use groups::Groups;
pub use order::sifted;
pub use passes::{LOOKS_BY_FOURS, LOOKS_BY_LANES, Passes};
pub use quad::{Quad, WordLane};
pub use relevant::{relevant_inputs, relevant_inputs_assuming};
pub use tree::{AskedScan, CauseTree, new_tree};
