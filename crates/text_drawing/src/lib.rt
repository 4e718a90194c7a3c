//! The drawing of a program with the power flow of a scan.
#![tactic(auto)]

mod fault;
pub mod laws;
mod look;
mod marked;
mod notes;
mod page;
mod picture;
mod showing;
mod whole;

pub use fault::ShowFault;
pub use picture::Style;
pub use showing::{Scan, write_drawing};
pub use whole::write_film_start;
