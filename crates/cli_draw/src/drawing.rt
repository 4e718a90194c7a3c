//! The drawing of a program in Structured Text, or the report of why there is none.

ghost use Rattle.std.specs.Prelude.{◌≡◌, ◌≤◌};
ghost use Rattle.io_text.specs.Log.{PutsAll};
ghost use Rattle.cli_draw.specs.Drawing.{BreaksDrawing, Draws, IsSaid};

use crate::lines::write_fault;
use cli_inputs::{ToolFault, report_unread};
use draw_program::{DrawFault, draw};
use io_text::{Sink, put};
use std::alloc::Global;

/// Writes the report of a fault, as far as the writer takes it. Returns the status 1.
fn told<E: Sink>(why: bool, text: &[u8], fault: DrawFault, err: &mut E) -> u8
    ensures status { result ≡ 1 }
    ensures said { IsSaid why text.now fault (E.log err.old) (E.log err.new) }
{
    match write_fault(why, text, fault, err) {
        Ok(()) => 1,
        Err(_) => 1,
    }
}

/// Writes the ladder diagram of a program in Structured Text on `out`, or on `err` the line of the fault for which there is none,
/// explained where that is asked for. Returns the status: 0 where the whole diagram was written, or 1.
pub fn write_drawing<O: Sink, E: Sink>(
    alloc: Global,
    why: bool,
    text: &[u8],
    out: &mut O,
    err: &mut E,
) -> u8
    ensures status { result ≤ 1 }
    ensures done { result ≡ 0 → Draws text.now (PutsAll (O.log out.old) (O.log out.new)) × (E.log err.new ≡ E.log err.old) }
    ensures failed { result ≡ 1 → BreaksDrawing why text.now (O.log out.old) (O.log out.new) (E.log err.old) (E.log err.new) }
{
    match draw(alloc, text) {
        Ok(drawn) => match put(out, &drawn.bytes) {
            Ok(()) => 0,
            Err(_) => report_unread(why, &ToolFault::Write, err),
        },
        Err(fault) => told(why, text, fault, err),
    }
}
