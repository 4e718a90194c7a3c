//! A request for the drawing with the power flow of one scan.

ghost use Rattle.std.specs.Prelude.{◌≡◌, ◌<◌, ◌≤◌, ◌∷◌, [], ◌⊎◌, ◌++◌, ℕ, List, IfErr, IfNone, IfOk, IfSome, None, flat_map, length, map, string_bytes};
ghost use Rattle.diagram_reader.specs.Reading.{IsProgram};
ghost use Rattle.diagram_reader.specs.Titled.{without_aliases};
ghost use Rattle.scan_cycle.specs.Standing.{Fits};
ghost use Rattle.io_text.specs.Log.{Puts, PutsAll, PutsPrefix, WriteLog};
ghost use Rattle.text_drawing.specs.Showing.{IsDrawn, scan_of};
ghost use Rattle.cli_inputs.specs.Reports.{IsReported, Refuses, logs};
ghost use Rattle.cli_inputs.specs.declared.fault.ToolFault.TheVariants.{Memory, Write};
ghost use Rattle.cli_views.specs.Views.{AreAsAssumed, HasAssumedFault, HasShowFault, IsScanRefused, Shows, assumed_note, assumed_notes, broken_first, coil_refusal, frame_for, moment_of, shown_inputs, style_for};
ghost use Rattle.cli_inputs.specs.Setting.{IsSet, given_by};

use causes_query::{CauseFault, assignment};
use cli_arguments::{Medium, ShowRequest};
use cli_assumed::{check_true, read_assumed};
use cli_inputs::{ShownVariables, Texts, ToolFault, moment, read_setting, report, shown_variables};
use diagram_program::Program;
use io_text::{Piece, Sink, WriteFault, put_pieces};
use scan_cycle::State;
use std::alloc::Global;
use text_drawing::{Scan, ShowFault, Style, write_drawing};

/// The style that a medium has for a drawing, and for each drawing of a film.
#[derive(Clone, Copy)]
pub(crate) struct Styles {
    pub drawing: Style,
    pub frame: Style,
}

/// How a scan and a film are drawn: as text, or as pages of HTML.
pub(crate) fn styles_of(medium: Medium) -> Styles
    ensures drawing { result.drawing ≡ style_for medium }
    ensures frame { result.frame ≡ frame_for medium }
{
    match medium {
        Medium::Text => Styles {
            drawing: Style::Marked,
            frame: Style::MarkedFrame,
        },
        Medium::Page => Styles {
            drawing: Style::Page,
            frame: Style::PageFrame,
        },
    }
}

/// Whether the variable that is explained is that of a coil.
pub(crate) fn coil_refusal(program: &Program, coil: Option<usize>) -> Option<CauseFault>
    ensures { result ≡ coil_refusal program.now coil }
{
    match coil {
        Some(var) => {
            if program.has_coil(var) {
                None
            } else {
                Some(CauseFault::NotACoil)
            }
        }
        None => None,
    }
}

/// Reads what is assumed, and refuses it where it is false of the inputs.
fn check_assumed(
    alloc: Global,
    request: &ShowRequest,
    program: &Program,
    inputs: &[bool],
) -> Result<(), ToolFault>
    ensures assumed { IfOk result (λ _. AreAsAssumed request.now program.now inputs.now) }
    ensures refused { IfErr result (HasAssumedFault request.now program.now inputs.now) }
{
    let texts = request.assumed.as_slice();
    let assumed = match read_assumed(alloc, program, texts) {
        Ok(assumed) => assumed,
        Err(fault) => return Err(fault),
    };
    match check_true(assumed.as_ref(), inputs) {
        Ok(()) => {
            drop(assumed);
            Ok(())
        }
        Err(fault) => {
            drop(assumed);
            Err(fault)
        }
    }
}

/// The inputs of the scan that is asked for, where nothing of it is refused.
fn inputs_of(
    alloc: Global,
    request: &ShowRequest,
    program: &Program,
    state: &State,
    asked: &ShownVariables,
) -> Result<Vec<bool>, ToolFault>
    requires { Fits program.now state.now }
    ensures inputs { IfOk result (λ v. v.items ≡ shown_inputs request.now program.now state.now asked.now.inputs.items) }
    ensures accepted { IfOk result (λ v. broken_first request.now program.now state.now asked.now.coil asked.now.inputs.items ≡ None) }
    ensures later { IfOk result (λ v. state.now.moment ≤ moment_of request.now state.now) }
    ensures assumed { IfOk result (λ v. AreAsAssumed request.now program.now (shown_inputs request.now program.now state.now asked.now.inputs.items)) }
    ensures refused { IfErr result (IsScanRefused request.now program.now state.now asked.now.coil asked.now.inputs.items) }
{
    match coil_refusal(program, asked.coil) {
        Some(fault) => return Err(ToolFault::Cause(fault)),
        None => (),
    }
    let now = moment(request.moment, state.moment());
    let number = request.number.unwrap_or(0);
    let inputs = match assignment(alloc, program, state, now, &asked.inputs, number) {
        Ok(inputs) => inputs,
        Err(fault) => return Err(ToolFault::Cause(fault)),
    };
    match check_assumed(alloc, request, program, inputs.as_slice()) {
        Ok(()) => Ok(inputs),
        Err(fault) => {
            drop(inputs);
            Err(fault)
        }
    }
}

/// The first of some texts, and those behind it.
fn first_text(texts: &[String]) -> Option<(&[u8], &[String])>
    ensures first { IfSome result (λ x. map string_bytes texts.now ≡ x.0.now ∷ map string_bytes x.1.now) }
    ensures shorter { IfSome result (λ x. length x.1.now < length texts.now) }
    ensures none { IfNone result (map string_bytes texts.now ≡ []) }
{
    match texts {
        [text, behind @ ..] => Some((text.as_str().as_bytes(), behind)),
        [] => None,
    }
}

/// Writes that an expression is assumed.
fn put_note<O: Sink>(expression: &[u8], out: &mut O) -> Result<(), WriteFault>
    ensures { Puts (O.log out.old) (O.log out.new) result (assumed_note expression.now) }
{
    let pieces = [
        Piece::Text(b"(* assumed: "),
        Piece::Text(expression),
        Piece::Text(b" *)\n"),
    ];
    put_pieces(out, pieces.as_slice())
}

/// Writes which expressions are assumed.
fn put_assumed<O: Sink>(expressions: &[String], out: &mut O) -> Result<(), WriteFault>
    ensures { Puts (O.log out.old) (O.log out.new) result (flat_map assumed_note (map string_bytes expressions.now)) }
{
    let Some((expression, behind)) = first_text(expressions) else {
        return Ok(());
    };
    put_note(expression, out)?;
    put_assumed(behind, out)
}

/// Draws a scan, and writes below it what is assumed.
fn draw<O: Sink>(
    alloc: Global,
    request: &ShowRequest,
    scan: Scan<'_>,
    state: &mut State,
    out: &mut O,
) -> Result<(), ToolFault>
    requires drawn { IsProgram scan.text.now (without_aliases scan.program.now) }
    requires moment { state.old.moment ≤ scan.moment }
    ensures drawn { IfOk result (λ _. (shown : List ℕ) × IsDrawn (style_for request.now.medium) (scan_of scan.entry state.old) shown × PutsAll (O.log out.old) (O.log out.new) (shown ++ assumed_notes request.now)) }
    ensures failed { IfErr result (λ f. ((f ≡ Memory) × (O.log out.new ≡ O.log out.old))
        ⊎ ((f ≡ Write) × ((shown : List ℕ) × IsDrawn (style_for request.now.medium) (scan_of scan.entry state.old) shown × PutsPrefix (O.log out.old) (O.log out.new) (shown ++ assumed_notes request.now)))) }
{
    let style = styles_of(request.medium).drawing;
    match write_drawing(alloc, style, scan, state, out) {
        Ok(()) => (),
        Err(ShowFault::Memory) => return Err(ToolFault::Memory),
        Err(ShowFault::Write) => return Err(ToolFault::Write),
    }
    match put_assumed(request.assumed.as_slice(), out) {
        Ok(()) => Ok(()),
        Err(_) => Err(ToolFault::Write),
    }
}

/// Shows one scan from a state: its drawing with the power flow.
fn show_from<O: Sink, E: Sink>(
    alloc: Global,
    request: &ShowRequest,
    program: &Program,
    state: &mut State,
    texts: &Texts,
    out: &mut O,
    err: &mut E,
) -> u8
    requires fits { Fits program.now state.old }
    requires set { IsSet (given_by texts.now) program.now state.old }
    ensures status { result ≤ 1 }
    ensures done { result ≡ 0 → Shows (given_by texts.now) request.now (PutsAll (O.log out.old) (O.log out.new)) × (E.log err.new ≡ E.log err.old) }
    ensures failed { (save : WriteLog) → result ≡ 1
        → Refuses (given_by texts.now) (HasShowFault (given_by texts.now) request.now) (logs (O.log out.old) save (E.log err.old)) (logs (O.log out.new) save (E.log err.new))
        ⊎ (Shows (given_by texts.now) request.now (PutsPrefix (O.log out.old) (O.log out.new)) × IsReported (given_by texts.now) (E.log err.old) (E.log err.new) ToolFault.Write) }
{
    let (decls, all_inputs) = (program.decls(), request.all_inputs);
    let asked = match shown_variables(alloc, decls, &request.coil, all_inputs, &request.inputs) {
        Ok(asked) => asked,
        Err(fault) => return report(texts, &fault, err),
    };
    let inputs = match inputs_of(alloc, request, program, &*state, &asked) {
        Ok(inputs) => inputs,
        Err(fault) => return report(texts, &fault, err),
    };
    let scan = Scan {
        text: &texts.program,
        program,
        inputs: &inputs,
        moment: moment(request.moment, state.moment()),
        coil: asked.coil,
    };
    match draw(alloc, request, scan, state, out) {
        Ok(()) => 0,
        Err(fault) => report(texts, &fault, err),
    }
}

/// Shows one scan from the state of the texts: its drawing with the power flow.
pub fn show<O: Sink, E: Sink>(
    alloc: Global,
    request: &ShowRequest,
    texts: &Texts,
    out: &mut O,
    err: &mut E,
) -> u8
    ensures status { result ≤ 1 }
    ensures done { result ≡ 0 → Shows (given_by texts.now) request.now (PutsAll (O.log out.old) (O.log out.new)) × (E.log err.new ≡ E.log err.old) }
    ensures failed { (save : WriteLog) → result ≡ 1
        → Refuses (given_by texts.now) (HasShowFault (given_by texts.now) request.now) (logs (O.log out.old) save (E.log err.old)) (logs (O.log out.new) save (E.log err.new))
        ⊎ (Shows (given_by texts.now) request.now (PutsPrefix (O.log out.old) (O.log out.new)) × IsReported (given_by texts.now) (E.log err.old) (E.log err.new) ToolFault.Write) }
{
    match read_setting(alloc, texts) {
        Ok(mut setting) => {
            let (program, state) = (&setting.program, &mut setting.state);
            show_from(alloc, request, program, state, texts, out, err)
        }
        Err(fault) => report(texts, &fault, err),
    }
}
