//! What is done for one of several coils.

ghost use Rattle.std.specs.Prelude.{◌≡◌, ◌≤◌};
ghost use Rattle.io_text.specs.Log.{Puts};
ghost use Rattle.cli_perform.specs.CoilNames.{of_coil};
ghost use Rattle.cli_inputs.specs.Reports.{logs};
ghost use Rattle.cli_inputs.specs.Setting.{given_by};
ghost use Rattle.cli_perform.specs.Coils.{IsDoneOf, IsFailedOf, coil_head};

use crate::performing::perform;
use crate::request::{ask_of, is_quiet};
use cli_arguments::Request;
use cli_inputs::Texts;
use io_text::{Piece, Sink, WriteFault, put_pieces};
use std::alloc::Global;

/// Writes a line with the coil's name, where the line of counts isn't left out.
fn put_coil<E: Sink>(quiet: bool, coil: &str, err: &mut E) -> Result<(), WriteFault>
    ensures { Puts (E.log err.old) (E.log err.new) result (coil_head quiet coil.now) }
{
    if quiet {
        return Ok(());
    }
    let pieces = [
        Piece::Text(b"coil "),
        Piece::Text(coil.as_bytes()),
        Piece::Text(b"\n"),
    ];
    put_pieces(err, pieces.as_slice())
}

/// Performs a request for a list, of the coil with this name: a line with the name on `err`, and then as `perform` does.
/// Returns the status: 0 where all was written, 1 where a fault stopped it.
pub fn perform_coil<O: Sink, S: Sink, E: Sink>(
    alloc: Global,
    request: &mut Request,
    coil: String,
    texts: &Texts,
    out: &mut O,
    save: &mut S,
    err: &mut E,
) -> u8
    ensures status { result ≤ 1 }
    ensures done { result ≡ 0 → IsDoneOf coil request.old (given_by texts.now) (logs (O.log out.old) (S.log save.old) (E.log err.old)) (logs (O.log out.new) (S.log save.new) (E.log err.new)) }
    ensures failed { result ≡ 1 → IsFailedOf coil request.old (given_by texts.now) (logs (O.log out.old) (S.log save.old) (E.log err.old)) (logs (O.log out.new) (S.log save.new) (E.log err.new)) }
    ensures asked { request.new ≡ of_coil coil request.old }
{
    let named = put_coil(is_quiet(request), coil.as_str(), err);
    ask_of(request, coil);
    match named {
        Ok(()) => perform(alloc, request, texts, out, save, err),
        Err(_) => 1,
    }
}
