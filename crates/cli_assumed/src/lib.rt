//! What a request assumes of the inputs: it is read, refused where it is never true, and warned of where it always is.
#![tactic(auto)]

mod possible;
mod reading;
mod satisfiable;
mod truth;
mod warning;

pub use possible::check_possible;
pub use reading::read_assumed;
pub use satisfiable::check_satisfiable;
pub use truth::check_true;
pub use warning::warn_always;
