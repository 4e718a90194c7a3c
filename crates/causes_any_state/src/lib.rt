//! Which combinations of the listed inputs switch a coil on from some state, or from every state, and their groups.
#![tactic(auto)]

mod assumed;
mod batch_look;
mod before;
mod buffers;
mod candidate;
mod claim;
mod content;
mod fault;
mod groups;
mod judging;
mod numbers;
mod possible;
mod query;
mod seeking;
mod states;
mod table;

pub use before::Before;
pub use claim::Claim;
pub use fault::PossibleGroupFault;
pub use groups::{PossibleGroups, is_settled};
pub use possible::{PossibleCause, PossibleCauses, PossibleQuery};
pub use states::States;
pub use table::SETTLED;
