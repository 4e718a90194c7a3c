//! Warning of what is assumed and is always true.

ghost use Rattle.std.specs.Prelude.{◌≡◌, ◌≤◌, map, string_bytes};
ghost use Rattle.cli_inputs.specs.Setting.{given_by};
ghost use Rattle.io_text.specs.Log.{PutsAll};
ghost use Rattle.cli_assumed.specs.Warning.{FailsToWarn, Warns};

use assume_always::{always_true, put_always};
use cli_inputs::{Texts, ToolFault, read_given_program, report};
use io_text::Sink;
use std::alloc::Global;

/// Warns of each expression of a request that is always true: it leaves nothing out. Returns the status: 0 where all was written, 1 where a fault
/// stopped it.
pub fn warn_always<E: Sink>(alloc: Global, texts: &Texts, expressions: &[String], err: &mut E) -> u8
    ensures status { result ≤ 1 }
    ensures warned { result ≡ 0 → Warns (given_by texts.now) (map string_bytes expressions.now) (PutsAll (E.log err.old) (E.log err.new)) }
    ensures failed { result ≡ 1 → FailsToWarn (given_by texts.now) (map string_bytes expressions.now) (E.log err.old) (E.log err.new) }
{
    let program = match read_given_program(alloc, texts) {
        Ok(program) => program,
        Err(fault) => return report(texts, &fault, err),
    };
    let found = always_true(alloc, program.decls(), expressions);
    drop(program);
    let Ok(numbers) = found else {
        return report(texts, &ToolFault::Memory, err);
    };
    let Ok(()) = put_always(numbers.as_slice(), err) else {
        return 1;
    };
    0
}
