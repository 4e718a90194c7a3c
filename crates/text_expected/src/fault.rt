//! Why a comparison with what was expected ends early.

/// Why a comparison ends before it is told how it came out.
#[derive(Clone, Copy)]
pub enum ExpectFault {
    /// The writer failed.
    Write,
    /// Out of memory.
    Memory,
}
