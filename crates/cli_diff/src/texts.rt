//! The texts that a comparison is about.

use cli_inputs::Texts;

/// The texts of both programs, each with its state where there is one.
#[derive(Drop)]
pub struct DiffTexts {
    pub old: Texts,
    pub new: Texts,
}
