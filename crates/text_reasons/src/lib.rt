//! Why a text is no program, for its author: the rule that it breaks, in words, the lines where it shows, and what is to be changed.
#![tactic(auto)]

mod advice;
mod blocks;
mod bytes;
mod forms;
mod joints;
mod names;
mod outside;
mod quote;
mod reason;
mod rule;

pub use quote::{Marks, WIDEST, add_near};
pub use reason::write_reason;
pub use rule::{RuleText, grid_rule, rule_text, var_rule};
