//! Whether any inputs of two programs, the same where inputs belong together, make true what is assumed of both.
#![tactic(auto)]

mod both;

pub use both::is_possible_together;
