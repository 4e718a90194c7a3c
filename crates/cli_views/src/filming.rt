//! A request for the film of a stimulus.

ghost use Rattle.std.specs.Prelude.{◌≡◌, ◌≤◌, ◌⊎◌};
ghost use Rattle.scan_cycle.specs.Standing.{Fits};
ghost use Rattle.io_text.specs.Log.{WriteLog};
ghost use Rattle.cli_inputs.specs.Reports.{Refuses, logs};
ghost use Rattle.cli_views.specs.Views.{BreaksFilm, HasFilmFault, IsFilmed, title_for};
ghost use Rattle.cli_inputs.specs.Setting.{IsSet, given_by};

use crate::showing::{coil_refusal, styles_of};
use crate::tracing::stimulus;
use cli_arguments::FilmRequest;
use cli_inputs::{Texts, ToolFault, read_setting, report, shown_variables};
use diagram_program::Program;
use io_text::Sink;
use scan_cycle::State;
use std::alloc::Global;
use std::path::Path;
use text_trace::{Film, write_film};

/// The title of a film: the name of the program's file, without the folders of its path.
fn title_of(path: &str) -> &str
    ensures { result.now ≡ title_for path.now }
{
    match Path::new(path).file_name() {
        Some(name) => name,
        None => path,
    }
}

/// Shows one scan for each record of the stimulus, the first one in a state.
fn film_from<O: Sink, E: Sink>(
    alloc: Global,
    request: &FilmRequest,
    program: &Program,
    state: &mut State,
    texts: &Texts,
    out: &mut O,
    err: &mut E,
) -> u8
    requires fits { Fits program.now state.old }
    requires set { IsSet (given_by texts.now) program.now state.old }
    ensures status { result ≤ 1 }
    ensures done { result ≡ 0 → IsFilmed (given_by texts.now) request.now (O.log out.old) (O.log out.new) × (E.log err.new ≡ E.log err.old) }
    ensures failed { (save : WriteLog) → result ≡ 1
        → Refuses (given_by texts.now) (HasFilmFault (given_by texts.now) request.now) (logs (O.log out.old) save (E.log err.old)) (logs (O.log out.new) save (E.log err.new))
        ⊎ BreaksFilm (given_by texts.now) request.now (logs (O.log out.old) save (E.log err.old)) (logs (O.log out.new) save (E.log err.new)) }
{
    let asked = match shown_variables(alloc, program.decls(), &request.coil, false, &[]) {
        Ok(asked) => asked,
        Err(fault) => return report(texts, &fault, err),
    };
    match coil_refusal(program, asked.coil) {
        Some(fault) => return report(texts, &ToolFault::Cause(fault), err),
        None => (),
    }
    let film = Film {
        style: styles_of(request.medium).frame,
        title: title_of(request.file.as_str()).as_bytes(),
        text: &texts.program,
        coil: asked.coil,
    };
    match write_film(alloc, film, program, state, stimulus(texts), out) {
        Ok(_) => 0,
        Err(fault) => report(texts, &ToolFault::Sim(fault), err),
    }
}

/// Shows one scan for each record of the stimulus, the first one in the state of the texts.
pub fn film<O: Sink, E: Sink>(
    alloc: Global,
    request: &FilmRequest,
    texts: &Texts,
    out: &mut O,
    err: &mut E,
) -> u8
    ensures status { result ≤ 1 }
    ensures done { result ≡ 0 → IsFilmed (given_by texts.now) request.now (O.log out.old) (O.log out.new) × (E.log err.new ≡ E.log err.old) }
    ensures failed { (save : WriteLog) → result ≡ 1
        → Refuses (given_by texts.now) (HasFilmFault (given_by texts.now) request.now) (logs (O.log out.old) save (E.log err.old)) (logs (O.log out.new) save (E.log err.new))
        ⊎ BreaksFilm (given_by texts.now) request.now (logs (O.log out.old) save (E.log err.old)) (logs (O.log out.new) save (E.log err.new)) }
{
    match read_setting(alloc, texts) {
        Ok(mut setting) => {
            let (program, state) = (&setting.program, &mut setting.state);
            film_from(alloc, request, program, state, texts, out, err)
        }
        Err(fault) => report(texts, &fault, err),
    }
}
