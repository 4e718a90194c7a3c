//! The reading of a text of a request, within the limit of its kind.

ghost use Rattle.std.specs.Prelude.{◌≡◌, IfErr, IfOk, option_map, vec_items};
ghost use Rattle.cli_inputs.specs.Reading.{AreUnread, AreWhole, IsUnread, IsWhole, largest};
ghost use Rattle.io_text.specs.declared.fault.ReadFault.{ReadFault};

use crate::fault::{TextKind, ToolFault};
use io_text::{Source, read_text};
use std::alloc::Global;

/// The largest text of a program, a state or a HAL file, in bytes.
pub const TEXT_LIMIT: usize = 1_048_576;

/// The largest stimulus, and the largest trace that is expected, in bytes.
pub const STIMULUS_LIMIT: usize = 16_777_216;

/// How many bytes a text of this kind may have.
fn limit(kind: TextKind) -> usize
    ensures { result ≡ largest kind }
{
    match kind {
        TextKind::Program | TextKind::State | TextKind::Hal => TEXT_LIMIT,
        TextKind::Stimulus | TextKind::Trace => STIMULUS_LIMIT,
    }
}

/// Reads a text of this kind.
///
/// # Errors
///
/// `Read` with the kind: the reader failed, the text is too long, or out of memory.
pub fn read_one<R: Source>(
    alloc: Global,
    kind: TextKind,
    reader: &mut R,
) -> Result<Vec<u8>, ToolFault>
    ensures whole { IfOk result (λ text. IsWhole kind (R.log reader.old) text.items) }
    ensures fault { IfErr result (λ e. (f : ReadFault) × (e ≡ ToolFault.Read kind f) × IsUnread kind (R.log reader.old) (R.log reader.new) f) }
{
    match read_text(alloc, reader, limit(kind)) {
        Ok(text) => Ok(text),
        Err(fault) => Err(ToolFault::Read(kind, fault)),
    }
}

/// Reads a text of a kind, where the request names one.
///
/// # Errors
///
/// As `read_one`.
pub fn read_named<R: Source>(
    alloc: Global,
    kind: TextKind,
    reader: &mut Option<R>,
) -> Result<Option<Vec<u8>>, ToolFault>
    ensures whole { IfOk result (λ text. AreWhole kind (option_map R.log reader.old) (option_map vec_items text)) }
    ensures fault { IfErr result (λ e. (f : ReadFault) × (e ≡ ToolFault.Read kind f) × AreUnread kind (option_map R.log reader.old) (option_map R.log reader.new) f) }
{
    match reader {
        Some(reader) => {
            let text = read_one(alloc, kind, reader)?;
            Ok(Some(text))
        }
        None => Ok(None),
    }
}
