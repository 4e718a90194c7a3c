//! Readers and writers that count their calls, the texts that go through them, and the records of a CSV text.
#![tactic(auto)]

mod buffer;
mod fault;
mod field;
mod line;
mod pieces;
mod records;
mod row;
mod sink;
mod source;
mod tally;
mod text;

pub use buffer::TextBuffer;
pub use fault::{ReadFault, WriteFault};
pub use field::{bit_field, read_number, read_signed};
pub use line::{add_field, add_line};
pub use pieces::{Piece, add_pieces, put_pieces};
pub use records::{Records, next, read_from};
pub use row::{is_on, is_record};
pub use sink::{CountedWriter, Sink, WriteFailed, put};
pub use source::{CountedReader, ReadFailed, Source};
pub use tally::Tally;
pub use text::read_text;
