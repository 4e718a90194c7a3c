//! The declarations at the head of a ladder diagram: names and their aliases, durations, variables and function blocks.
//!
//! A program text begins with one block `VAR .. END_VAR` of IEC 61131-3. This crate says what the block declares, and refuses a text
//! whose block breaks one of the rules V1 to V8. The module `limits` is public for the drafts of imported projects.
#![tactic(auto)]

mod declaration;
mod decls;
mod digits;
mod fault;
mod kind;
mod letters;
pub mod limits;
mod name;
mod read;
mod text;
mod time;
mod title;
mod titles;
mod words;

pub use decls::{Address, Decls, Instance, Symbol, Var, VarKind};
pub use digits::{digits_len, number};
pub use fault::{VarFault, VarRule};
pub use kind::{BlockKind, BlockTraits, Output, Parameter, Pin};
pub use letters::same_letters;
pub use name::Name;
pub use read::read_decls;
pub use time::{LARGEST_TIME, read_time};
pub use title::{LONGEST_TITLE, Title, alias_of};
pub use titles::{TitleFault, take_aliases};
