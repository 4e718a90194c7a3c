//! What a list of causes is asked: the coil, the listed inputs, the combination of each number, and when a question is refused; and partial combinations, whose first listed inputs have values.
//!
//! The modules `refusal` and `source` are public for the lists, over one scan and over several, which take inputs and are refused alike.
#![tactic(auto)]

mod fault;
mod limit;
mod prefix;
pub mod refusal;
mod scan_inputs;
pub mod source;

pub use fault::CauseFault;
pub use limit::LISTED_LIMIT;
pub use prefix::{Open, Prefix, first_image, go_to, tail};
pub use scan_inputs::assignment;
