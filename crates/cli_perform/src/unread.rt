//! Which file of a request can't be read, and why.

use io_text::{CountedWriter, Piece, put_pieces};
use std::cell::Cell;
use std::io::{self, ErrorKind};

/// A file that can't be read, and why.
#[derive(Clone, Copy)]
struct Unread<'p> {
    path: &'p str,
    reason: &'static str,
}

/// What the files of a request are opened by. It keeps which of them can't be read.
#[derive(Drop)]
pub(crate) struct Opening<'p> {
    pub(crate) rt: &'p HostRuntime,
    unread: Cell<Option<Unread<'p>>>,
}

/// Why a file can't be read, as far as the system tells.
fn reason_of(error: &io::Error) -> &'static str {
    match error.kind() {
        ErrorKind::NotFound | ErrorKind::NotADirectory => "no such file",
        ErrorKind::PermissionDenied => "reading it isn't permitted",
        ErrorKind::IsADirectory => "it is a folder",
        _ => "reading it failed",
    }
}

impl<'p> Opening<'p> {
    /// Before a file is opened.
    pub(crate) fn new(rt: &'p HostRuntime) -> Opening<'p> {
        Opening {
            rt,
            unread: Cell::new(None),
        }
    }

    /// Keeps why a file can't be read.
    pub(crate) fn fail(&self, path: &'p str, error: &io::Error) {
        self.unread.set(Some(Unread {
            path,
            reason: reason_of(error),
        }));
    }

    /// Writes on standard error which file can't be read and why, where that is asked for and there is one.
    pub(crate) fn explain(&self, why: bool) {
        let Some(unread) = self.unread.get() else {
            return;
        };
        if !why {
            return;
        }
        let pieces = [
            Piece::Text(unread.path.as_bytes()),
            Piece::Text(b": "),
            Piece::Text(unread.reason.as_bytes()),
            Piece::Text(b"\n"),
        ];
        let _ = put_pieces(&mut CountedWriter::new(self.rt.stderr()), pieces.as_slice());
    }
}
