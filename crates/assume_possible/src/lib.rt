//! Whether some combination of the listed inputs makes true what is assumed of the inputs, of one program or of two, and whether any values of all
//! inputs do.
#![tactic(auto)]

mod every;
mod in_both;
mod possible;
mod satisfiable;

pub use in_both::is_possible_in_both;
pub use possible::is_possible;
pub use satisfiable::is_satisfiable;
