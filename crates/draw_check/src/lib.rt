//! Whether a program is a drawing of statements of Structured Text.
#![tactic(auto)]

mod block;
mod coils;
mod drawing;
mod helpers;
mod jump;
mod latch;
mod plan;
mod statements;

pub use block::is_linked;
pub use drawing::is_drawing;
pub use plan::Plan;
