//! The declarations of a program text: names, durations, variables and function block instances.
//!
//! This crate re-exports what a caller needs of `diagram_declarations`, which proves it.
//!
//! ```
//! use ladder_vars::{VarFault, read_decls};
//! use std::alloc::Global;
//!
//! /// How many inputs a text declares.
//! fn count_inputs(alloc: Global, text: &[u8]) -> Result<usize, VarFault> {
//!     let (decls, _after) = read_decls(alloc, text)?;
//!     Ok(decls.inputs())
//! }
//! ```
#![tactic(auto)]

pub use diagram_declarations::{
    Address, BlockKind, BlockTraits, Decls, Instance, Name, Output, Parameter, Pin, Symbol, Title,
    TitleFault, Var, VarFault, VarKind, VarRule, read_decls, read_time, take_aliases,
};
