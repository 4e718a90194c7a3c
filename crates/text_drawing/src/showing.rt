//! One scan of a program, and its drawing, which can be one of a film.

ghost use Rattle.std.specs.Prelude.{◌≡◌, ◌≤◌, IfErr, OnOk, drop, length};
ghost use Rattle.diagram_reader.specs.Reading.{IsProgram};
ghost use Rattle.diagram_reader.specs.Titled.{without_aliases};
ghost use Rattle.scan_cycle.specs.Standing.{Fits, Standing};
ghost use Rattle.text_drawing.specs.Pictures.{IsSeen};
ghost use Rattle.text_drawing.specs.Showing.{Fails, IsLeft, Written, scan_of, state_after};

use crate::fault::ShowFault;
use crate::picture::{Picture, Style};
use crate::whole::write_noted;
use diagram_page::lines::lines;
use diagram_page::outline_of;
use diagram_program::Program;
use io_text::Sink;
use scan_cycle::scene::checked;
use scan_cycle::{Mark, State, see};
use std::alloc::Global;

/// What is drawn.
#[derive(Clone, Copy)]
pub struct Scan<'a> {
    /// The text of the program.
    pub text: &'a [u8],
    pub program: &'a Program,
    /// The values of the inputs, in order of declaration.
    pub inputs: &'a [bool],
    /// The moment of the scan, in milliseconds.
    pub moment: u64,
    /// The variable of whose coils it is written why they have power, or none.
    pub coil: Option<usize>,
}

/// The text from a place on.
fn behind(text: &[u8], place: usize) -> &[u8]
    requires { place ≤ length text.now }
    ensures { result.now ≡ drop place text.now }
{
    &text[place..]
}

/// Writes the drawing of a scan that left this state and these marks.
fn write_seen<W: Sink>(
    alloc: Global,
    style: Style,
    scan: Scan<'_>,
    after: &State,
    marks: &[Mark],
    writer: &mut W,
) -> Result<(), ShowFault>
    requires { IsProgram scan.text.now (without_aliases scan.program.now) }
    ensures wrote { OnOk result ((state : Standing) → IsSeen (scan_of scan.entry state) after.now marks.now → Written style (scan_of scan.entry state) (W.log writer.old) (W.log writer.new)) }
    ensures fails { IfErr result (λ e. (state : Standing) → IsSeen (scan_of scan.entry state) after.now marks.now → Fails style (scan_of scan.entry state) (W.log writer.old) (W.log writer.new) e) }
{
    let _rungs = scan.program.rungs();
    let Ok(outline) = outline_of(alloc, scan.text) else {
        return Err(ShowFault::Memory);
    };
    let Ok(lines) = lines(alloc, behind(scan.text, outline.place)) else {
        return Err(ShowFault::Memory);
    };
    let picture = Picture {
        style,
        program: scan.program,
        after,
        coil: scan.coil,
        parts: &outline.parts,
        marks,
        lines: &lines,
    };
    match write_noted(picture, writer) {
        Ok(()) => Ok(()),
        Err(_) => Err(ShowFault::Write),
    }
}

/// Scans once from the state, and writes what follows END_VAR in the text of the program with the power flow of the scan.
///
/// # Errors
///
/// `Memory` when out of memory: the state is unchanged. `Write` where the writer failed: the state is the one after the scan.
pub fn write_drawing<W: Sink>(
    alloc: Global,
    style: Style,
    scan: Scan<'_>,
    state: &mut State,
    writer: &mut W,
) -> Result<(), ShowFault>
    requires drawn { IsProgram scan.text.now (without_aliases scan.program.now) }
    requires moment { state.old.moment ≤ scan.moment }
    ensures wrote { OnOk result (Written style (scan_of scan.entry state.old) (W.log writer.old) (W.log writer.new)) }
    ensures after { OnOk result (state.new ≡ state_after (scan_of scan.entry state.old)) }
    ensures fails { IfErr result (Fails style (scan_of scan.entry state.old) (W.log writer.old) (W.log writer.new)) }
    ensures left { IfErr result (IsLeft (scan_of scan.entry state.old) state.new) }
    ensures fits { Fits scan.entry.program.now state.old → Fits scan.entry.program.now state.new }
{
    checked(scan.program);
    let Ok(sight) = see(alloc, scan.program, state, scan.inputs, scan.moment) else {
        return Err(ShowFault::Memory);
    };
    let written = write_seen(alloc, style, scan, &sight.state, &sight.marks, writer);
    if let Err(ShowFault::Memory) = written {
        return written;
    }
    *state = sight.state;
    written
}
