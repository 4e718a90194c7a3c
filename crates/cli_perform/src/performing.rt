//! What is done for a request, once its texts were read: one call for each kind.

ghost use Rattle.std.specs.Prelude.{◌≡◌, ◌≤◌, ◌⊎◌, [], option_map, string_bytes, unwrap_or, vec_items};
ghost use Rattle.cli_inputs.specs.Reports.{Refuses, logs};
ghost use Rattle.io_text.specs.Log.{PutsAll, WriteLog};
ghost use Rattle.cli_draw.specs.Drawing.{BreaksDrawing, Draws};
ghost use Rattle.cli_export.specs.Exporting.{BreaksExport, Exports};
ghost use Rattle.cli_import.specs.Carrying.{BreaksCarrying, Carries};
ghost use Rattle.cli_perform.specs.Performs.{IsDone, IsFailed, name_of, reading_of};
ghost use Rattle.cli_inputs.specs.Setting.{HasProgramFault, given_by};

use cli_arguments::{ExportRequest, ImportRequest, Request};
use cli_draw::write_drawing;
use cli_export::{Exporting, write_export};
use cli_import::{Importing, carry};
use cli_inputs::Texts;
use cli_lists::{
    list_causes_assuming, list_groups_assuming, list_held, list_progress, list_relevant_assuming,
};
use cli_reach::reach;
use cli_states::{list_never, list_possible};
use cli_views::{About, expect, film, print, show, trace, watch, wave};
use clp_project::ReadingOptions;
use io_text::Sink;
use scan_held::Scans;
use std::alloc::Global;

/// The text of the HAL file; empty where there is none.
fn hal_of(texts: &Texts) -> &[u8]
    ensures { result.now ≡ unwrap_or (option_map vec_items texts.now.hal) [] }
{
    match &texts.hal {
        Some(text) => text.as_slice(),
        None => &[],
    }
}

/// The name of the program that is meant, where it is given.
fn pou_of(name: &Option<String>) -> Option<&[u8]>
    ensures { option_map (λ word. word.now) result ≡ option_map string_bytes name.now }
{
    match name {
        Some(name) => Some(name.as_bytes()),
        None => None,
    }
}

/// Writes the program text of a project.
fn import_project<O: Sink, E: Sink>(
    alloc: Global,
    request: &ImportRequest,
    texts: &Texts,
    out: &mut O,
    err: &mut E,
) -> u8
    ensures status { result ≤ 1 }
    ensures done { result ≡ 0 → Carries (reading_of request.now.opened request.now.control_on) (option_map string_bytes request.now.pou) (given_by texts.now).program (PutsAll (O.log out.old) (O.log out.new)) × (E.log err.new ≡ E.log err.old) }
    ensures failed { result ≡ 1 → BreaksCarrying (reading_of request.now.opened request.now.control_on) (given_by texts.now).why (option_map string_bytes request.now.pou) (given_by texts.now).program (O.log out.old) (O.log out.new) (E.log err.old) (E.log err.new) }
{
    let importing = Importing {
        reading: ReadingOptions {
            opened: request.opened,
            control_on: request.control_on,
        },
        pou: pou_of(&request.pou),
        why: texts.why,
    };
    carry(alloc, importing, &texts.program, hal_of(texts), out, err)
}

/// Writes the drawing of a program in Structured Text.
fn draw_text<O: Sink, E: Sink>(alloc: Global, texts: &Texts, out: &mut O, err: &mut E) -> u8
    ensures status { result ≤ 1 }
    ensures done { result ≡ 0 → Draws (given_by texts.now).program (PutsAll (O.log out.old) (O.log out.new)) × (E.log err.new ≡ E.log err.old) }
    ensures failed { result ≡ 1 → BreaksDrawing (given_by texts.now).why (given_by texts.now).program (O.log out.old) (O.log out.new) (E.log err.old) (E.log err.new) }
{
    write_drawing(alloc, texts.why, &texts.program, out, err)
}

/// The name of the program in the text: the one that is given, or else `program0`.
fn name_of(name: &Option<String>) -> &[u8]
    ensures { result.now ≡ name_of (option_map string_bytes name.now) }
{
    match name {
        Some(name) => name.as_bytes(),
        None => b"program0",
    }
}

/// Writes a program in the language that is asked for.
fn export_text<O: Sink, E: Sink>(
    alloc: Global,
    request: &ExportRequest,
    texts: &Texts,
    out: &mut O,
    err: &mut E,
) -> u8
    ensures status { result ≤ 1 }
    ensures done { result ≡ 0 → Exports (given_by texts.now) request.now.language (name_of (option_map string_bytes request.now.name)) request.now.bits (PutsAll (O.log out.old) (O.log out.new)) × (E.log err.new ≡ E.log err.old) }
    ensures failed { (save : WriteLog) → result ≡ 1 → Refuses (given_by texts.now) (HasProgramFault (given_by texts.now)) (logs (O.log out.old) save (E.log err.old)) (logs (O.log out.new) save (E.log err.new))
        ⊎ BreaksExport (given_by texts.now) request.now.language (name_of (option_map string_bytes request.now.name)) request.now.bits (O.log out.old) (O.log out.new) (E.log err.old) (E.log err.new) }
{
    let exporting = Exporting {
        language: request.language,
        name: name_of(&request.name),
        bits: request.bits,
        codesys: request.codesys,
    };
    write_export(alloc, exporting, texts, out, err)
}

/// Performs a request on its texts: its text on `out`, the line of counts on `err`, and the state that is to be saved on `save`.
/// Returns the status: 0 where all was written, 1 where a fault stopped it, whose line is on `err`, explained where that is asked for.
pub fn perform<O: Sink, S: Sink, E: Sink>(
    alloc: Global,
    request: &Request,
    texts: &Texts,
    out: &mut O,
    save: &mut S,
    err: &mut E,
) -> u8
    ensures status { result ≤ 1 }
    ensures done { result ≡ 0 → IsDone request.now (given_by texts.now) (logs (O.log out.old) (S.log save.old) (E.log err.old)) (logs (O.log out.new) (S.log save.new) (E.log err.new)) }
    ensures failed { result ≡ 1 → IsFailed request.now (given_by texts.now) (logs (O.log out.old) (S.log save.old) (E.log err.old)) (logs (O.log out.new) (S.log save.new) (E.log err.new)) }
{
    match request {
        Request::Check { warns, .. } => {
            let about = About::Check { warns: *warns };
            print(alloc, about, texts, out, err)
        }
        Request::Uses { .. } => print(alloc, About::Uses, texts, out, err),
        Request::Never(never) => list_never(alloc, never, texts, out, err),
        Request::Reach(asked) => reach(alloc, asked, texts, out, err),
        Request::Possible(possible) => list_possible(alloc, possible, texts, out, err),
        Request::Causes { list, after, upto } => {
            list_causes_assuming(alloc, list, *after, *upto, texts, out, err)
        }
        Request::Progress { list, after, upto } => {
            list_progress(alloc, list, *after, *upto, texts, out, err)
        }
        Request::Held {
            list,
            scans,
            every,
            grouped,
        } => {
            let scans = Scans {
                count: *scans,
                every: *every,
            };
            list_held(alloc, list, scans, *grouped, texts, out, err)
        }
        Request::Groups { list, grouping } => {
            list_groups_assuming(alloc, list, *grouping, texts, out, err)
        }
        Request::Relevant {
            list,
            after,
            grouping,
        } => list_relevant_assuming(alloc, list, *after, *grouping, texts, out, err),
        Request::Show(scan) => show(alloc, scan, texts, out, err),
        Request::Film(stimulus) => film(alloc, stimulus, texts, out, err),
        Request::Watch(watched) => watch(alloc, watched, texts, out, save, err),
        Request::Expect(expected) => expect(alloc, expected, texts, out, save, err),
        Request::Waves(waves) => wave(alloc, texts, waves.every, out, err),
        Request::Import(import) => import_project(alloc, import, texts, out, err),
        Request::Draw { .. } => draw_text(alloc, texts, out, err),
        Request::Export(export) => export_text(alloc, export, texts, out, err),
        Request::Sim(sim) => { trace(alloc, texts, sim.every, sim.save.is_some(), out, save, err) }
    }
}
