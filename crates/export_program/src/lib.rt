//! Ladder programs, exported as Structured Text (IEC 61131-3:2013) each run of which does what a scan of the program does.
#![tactic(auto)]

mod exporting;
mod fault;
mod form;
mod matching;
mod naming;
mod writing;

pub use exporting::check_export;
pub use fault::ExportFault;
pub use form::AddressForm;
pub use writing::{Exported, export, export_program};
