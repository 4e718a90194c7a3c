//! Programs in PLCopen XML (IEC 61131-10), drawn as ladder programs that do what their bodies do.
#![tactic(auto)]

mod fault;
mod import;

pub use fault::PlcImportFault;
pub use import::{UnitChoice, import_plc};
