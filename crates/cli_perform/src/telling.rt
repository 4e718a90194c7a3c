//! A list or a simulation that reports how far it is without being asked.

ghost use Rattle.std.specs.Prelude.{◌≡◌};
ghost use Rattle.cli_perform.specs.Telling.{IsTelling, telling_form, telling_trace};

use cli_arguments::{DiffForm, Request, WatchRequest};
use std::alloc::Global;

/// A request with progress added, if it is for a plain list or for a trace.
pub(crate) fn telling(alloc: Global, request: Request) -> Request
    ensures { IsTelling request result }
{
    match request {
        Request::Causes { list, after, upto } => Request::Progress { list, after, upto },
        Request::Sim(sim) => Request::Watch(WatchRequest {
            sim,
            all: false,
            names: Vec::new(alloc),
            changes: false,
            progress: true,
        }),
        Request::Watch(watch) => Request::Watch(telling_trace(watch)),
        other => other,
    }
}

/// The same of a trace with what is watched.
fn telling_trace(watch: WatchRequest) -> WatchRequest
    ensures { result ≡ telling_trace watch }
{
    let WatchRequest {
        sim,
        all,
        names,
        changes,
        ..
    } = watch;
    WatchRequest {
        sim,
        all,
        names,
        changes,
        progress: true,
    }
}

/// The form of a comparison with progress added, if it is that of plain rows.
pub(crate) fn telling_form(form: DiffForm) -> DiffForm
    ensures { result ≡ telling_form form }
{
    match form {
        DiffForm::Rows { after, upto } => DiffForm::Progress { after, upto },
        other => other,
    }
}
