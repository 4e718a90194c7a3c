//! The words of a program in Structured Text (IEC 61131-3:2013): names, numbers and symbols, without blanks and comments.
#![tactic(auto)]

mod fault;
mod front;
pub mod laws;
mod read;
mod word;

pub use fault::WordFault;
pub use read::read_words;
pub use word::Word;
