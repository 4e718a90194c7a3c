//! The reading of whole texts, over a reader in memory.

use crate::memory::Hashes;
use ladder_sim::{CountedReader, ReadFault, read_text};
use std::alloc::Global;

/// How reading a text of `left` bytes ends, and how often the reader was called.
fn read(
    alloc: Global,
    left: usize,
    step: usize,
    failing: usize,
    limit: usize,
) -> (Result<usize, ReadFault>, usize) {
    let mut reader = CountedReader::new(Hashes {
        left,
        step,
        calls: 0,
        failing,
    });
    let read = match read_text(alloc, &mut reader, limit) {
        Ok(text) => Ok(text.len()),
        Err(fault) => Err(fault),
    };
    (read, reader.into_inner().calls)
}

/// Eight bytes in steps of three are four reads, the last one of no byte.
#[test]
fn fails_at_each_read(rt: HostRuntime) {
    for failing in 1..=6 {
        let wanted = if failing <= 4 {
            (Err(ReadFault::Read), failing)
        } else {
            (Ok(8), 4)
        };
        assert!(rt;
            read(rt.alloc(), 8, 3, failing, 8) == wanted,
            "at {failing}"
        );
    }
}

/// One call more than the limit needs shows that the text is too long.
#[test]
fn reads_an_endless_reader_no_further_than_the_limit(rt: HostRuntime) {
    for (step, limit, calls) in [(1, 100, 101), (7, 100, 15), (20_000, 0, 1)] {
        let wanted = (Err(ReadFault::TooLong), calls);
        assert!(rt;
            read(rt.alloc(), usize::MAX, step, 0, limit) == wanted,
            "in steps of {step}"
        );
    }
}
