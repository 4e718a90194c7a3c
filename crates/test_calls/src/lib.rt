//! Tests of the reading of texts, over a reader in memory, and the names that callers are promised.
#![tactic(auto)]

pub mod memory;
pub mod surface;
#[cfg(test)]
mod texts;
