//! A word with a number behind it.

use diagram_declarations::limits::LONGEST_NAME;
use itoa::Buffer;

/// A word of at most as many bytes as a name can have. What is longer loses its end.
#[derive(Clone, Copy)]
pub(crate) struct ShortWord {
    bytes: [u8; LONGEST_NAME],
    len: usize,
}

impl ShortWord {
    /// The first bytes of a word, as far as there is room.
    pub(crate) fn cut(word: &[u8], longest: usize) -> ShortWord {
        let mut short = ShortWord {
            bytes: [0; LONGEST_NAME],
            len: 0,
        };
        for byte in &word[..word.len().min(longest)] {
            short.push(*byte);
        }
        short
    }

    /// The first bytes of a word and a number behind them.
    pub(crate) fn numbered(
        word: &[u8],
        between: &[u8],
        number: usize,
        longest: usize,
    ) -> ShortWord {
        let mut buffer = Buffer::new();
        let digits = buffer.format(number).as_bytes();
        let room = longest.saturating_sub(between.len().saturating_add(digits.len()));
        let mut short = ShortWord::cut(word, room);
        for byte in between {
            short.push(*byte);
        }
        for byte in digits {
            short.push(*byte);
        }
        short
    }

    /// Adds a byte, unless the word is full.
    fn push(&mut self, byte: u8) {
        if self.len < LONGEST_NAME {
            self.bytes[self.len] = byte;
            self.len += 1;
        }
    }

    /// The bytes of the word.
    pub(crate) fn bytes(&self) -> &[u8] {
        &self.bytes[..self.len.min(LONGEST_NAME)]
    }
}
