//! What is said of expressions that are always true.

ghost use Rattle.std.specs.Prelude.{◌≡◌, ◌∷◌, [], IfNone, IfSome, flat_map};
ghost use Rattle.io_text.specs.Log.{Puts};
ghost use Rattle.assume_always.specs.Always.{always_line};

use io_text::{Piece, Sink, WriteFault, put_pieces};

/// The first of some numbers, and those behind it.
fn first_number(numbers: &[u64]) -> Option<(u64, &[u64])>
    ensures first { IfSome result (λ x. numbers.now ≡ x.0 ∷ x.1.now) }
    ensures none { IfNone result (numbers.now ≡ []) }
{
    match numbers {
        [number, behind @ ..] => Some((*number, behind)),
        [] => None,
    }
}

/// Writes the line of an expression that is always true.
fn put_line<E: Sink>(number: u64, err: &mut E) -> Result<(), WriteFault>
    ensures { Puts (E.log err.old) (E.log err.new) result (always_line number) }
{
    let pieces = [
        Piece::Text(b"assume "),
        Piece::Number(number),
        Piece::Text(b" is always true\n"),
    ];
    put_pieces(err, pieces.as_slice())
}

/// Writes a line for each of some numbers of expressions that are always true.
pub fn put_always<E: Sink>(numbers: &[u64], err: &mut E) -> Result<(), WriteFault>
    ensures { Puts (E.log err.old) (E.log err.new) result (flat_map always_line numbers.now) }
{
    let Some((number, behind)) = first_number(numbers) else {
        return Ok(());
    };
    put_line(number, err)?;
    put_always(behind, err)
}
