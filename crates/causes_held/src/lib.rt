//! The causes over several scans with held inputs, and their groups by first scan.
#![tactic(auto)]

mod causes;
mod fault;
mod groups;
mod query;
mod single;
mod table;
mod three;
mod tree;
mod word;

pub use causes::HeldCauses;
pub use fault::HeldGroupFault;
pub use groups::HeldGroups;
