//! A reader over memory, with a chosen failure.

use std::io::{self, ErrorKind, Read};

/// A reader that gives `left` times the byte `#`, at most `step` a call, and fails at the call number `failing`.
#[derive(Drop)]
pub struct Hashes {
    pub left: usize,
    pub step: usize,
    pub calls: usize,
    pub failing: usize,
}

impl Read for Hashes {
    /// Gives at most `step` bytes `#`, and fails at the chosen call.
    fn read(&mut self, buf: &mut [u8]) -> io::Result<usize> {
        self.calls = self.calls.wrapping_add(1);
        if self.calls == self.failing {
            return Err(io::Error::from(ErrorKind::Interrupted));
        }
        let count = self.left.min(buf.len()).min(self.step);
        buf[..count].fill(b'#');
        self.left -= count;
        Ok(count)
    }
}
