//! The list of causes in one scan: the combinations of the listed inputs that switch a coil on.
//!
//! This crate re-exports what a caller needs of `causes_query` and `causes_one_scan`, which prove it.
//!
//! ```
//! use ladder_causes::{CauseFault, Causes};
//! use ladder_grid::Program;
//! use ladder_scan::State;
//! use std::alloc::Global;
//!
//! /// Whether one input by itself decides that a fresh program switches a coil on.
//! fn is_switched_by(
//!     alloc: Global,
//!     program: &Program,
//!     coil: usize,
//!     input: usize,
//! ) -> Result<bool, CauseFault> {
//!     let Ok(state) = State::fresh(alloc, program) else {
//!         return Err(CauseFault::Memory);
//!     };
//!     let listed = [input];
//!     let mut causes = Causes::new(alloc, program, &state, 0, coil, &listed, None)?;
//!     Ok(causes.next() == Some(1))
//! }
//! ```
#![tactic(auto)]

pub mod laws;

pub use causes_one_scan::{Causes, Groups, Passes, relevant_inputs, sifted};
pub use causes_query::{CauseFault, LISTED_LIMIT, assignment};
pub use scan_signals::{Tri, Word64};
pub use search_tree::Marked;
