//! The scan: power flow, function blocks, the state after a scan, and the same scan over any signal (a look).
//!
//! This crate re-exports what a caller needs of `scan_signals`, `scan_cycle` and `scan_symbolic`, which prove it.
//!
//! ```
//! use ladder_grid::Program;
//! use ladder_scan::{Memory, State, scan};
//! use std::alloc::Global;
//!
//! /// Whether a variable is ON after one scan of a fresh state in which all inputs are ON.
//! fn is_on(alloc: Global, program: &Program, var: usize) -> Result<bool, Memory> {
//!     let mut state = State::fresh(alloc, program)?;
//!     let inputs = vec![in alloc; true; program.decls().inputs()]?;
//!     if var >= program.decls().vars().len() {
//!         return Ok(false);
//!     }
//!     match scan(program, &mut state, &inputs, 0) {
//!         Ok(()) => Ok(state.value(var)),
//!         Err(_) => Ok(false),
//!     }
//! }
//! ```
#![tactic(auto)]

pub mod laws;

pub use scan_cycle::{Mark, Memory, MomentBack, PowerFlow, State, scan, see};
pub use scan_signals::{Lane, Likeness, Operations, Relation, Signal, Stored};
pub use scan_symbolic::{Work, look};
