//! The reading of a whole text.

ghost use Rattle.std.specs.Prelude.{◌≡◌, ◌⊎◌, ◌<◌, ◌≤◌, ◌+◌, length, vec_len, IfOk, IfSome, IsErrOf};
ghost use Rattle.io_text.specs.Calls.{AllPass, LastFails};

use crate::fault::ReadFault;
use crate::source::Source;
use std::alloc::Global;

/// Reads all bytes of a reader, at most `limit`. It stops at the first byte past the limit, so a reader
/// without an end is read `limit + 2` times at most.
///
/// # Errors
///
/// `TooLong` where more than `limit` bytes came, `Read` where a call of the reader failed, `Memory` when
/// out of memory.
pub fn read_text<R: Source>(
    alloc: Global,
    reader: &mut R,
    limit: usize,
) -> Result<Vec<u8>, ReadFault>
    ensures whole { IfOk result (λ text. IfSome (R.log reader.old).remaining (λ all. text.items ≡ all)) }
    ensures within { IfOk result (λ text. vec_len text ≤ limit) }
    ensures long { IsErrOf result ReadFault.TooLong → IfSome (R.log reader.old).remaining (λ all. limit < length all) }

    // The reader failed in this call exactly where that is returned.
    ensures failed { IsErrOf result ReadFault.Read → LastFails (R.log reader.old).tally (R.log reader.new).tally }
    ensures passed { IsErrOf result ReadFault.Read ⊎ AllPass (R.log reader.old).tally (R.log reader.new).tally }
    ensures calls { (R.log reader.new).tally.calls ≤ (R.log reader.old).tally.calls + (limit + 2) }
{
    let mut text = Vec::new(alloc);
    let mut piece = [0u8; 16384];
    loop {
        let Ok(count) = reader.read(&mut piece) else {
            return Err(ReadFault::Read);
        };
        if count == 0 {
            return Ok(text);
        }
        if limit - text.len() < count {
            return Err(ReadFault::TooLong);
        }
        if text.extend_from_slice(&piece[..count]).is_err() {
            return Err(ReadFault::Memory);
        }
    }
}
