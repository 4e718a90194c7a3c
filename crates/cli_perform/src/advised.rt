//! A request performed, with what is said of its names after a fault.

ghost use Rattle.std.specs.Prelude.{◌≡◌, ◌≤◌};
ghost use Rattle.io_text.specs.Log.{WriteLog};
ghost use Rattle.cli_inputs.specs.Reports.{logs};
ghost use Rattle.cli_inputs.specs.Setting.{given_by};
ghost use Rattle.cli_perform.specs.Advised.{FailsAdvised, IsAdvised};
ghost use Rattle.cli_perform.specs.Performs.{IsDone};

use crate::performing::perform;
use cli_arguments::Request;
use cli_inputs::Texts;
use cli_names::advise;
use io_text::Sink;
use std::alloc::Global;

/// Writes the advice on a request that failed, where a fault is explained.
fn advise_if_asked<E: Sink>(alloc: Global, request: &Request, texts: &Texts, err: &mut E)
    ensures { (out save : WriteLog) → IsAdvised texts.now.why request.now (given_by texts.now) (logs out save (E.log err.old)) (logs out save (E.log err.new)) }
{
    if texts.why {
        let _ = advise(alloc, request, texts, err);
    }
}

/// Performs a request on its texts, as `perform` does. After a fault that is explained it is said which name is meant by one that names nothing.
/// Returns the status: 0 where all was written, 1 where a fault stopped it.
pub(crate) fn perform_advised<O: Sink, S: Sink, E: Sink>(
    alloc: Global,
    request: &Request,
    texts: &Texts,
    out: &mut O,
    save: &mut S,
    err: &mut E,
) -> u8
    ensures status { result ≤ 1 }
    ensures done { result ≡ 0 → IsDone request.now (given_by texts.now) (logs (O.log out.old) (S.log save.old) (E.log err.old)) (logs (O.log out.new) (S.log save.new) (E.log err.new)) }
    ensures failed { result ≡ 1 → FailsAdvised request.now (given_by texts.now) (logs (O.log out.old) (S.log save.old) (E.log err.old)) (logs (O.log out.new) (S.log save.new) (E.log err.new)) }
{
    let status = perform(alloc, request, texts, out, save, err);
    if status == 1 {
        advise_if_asked(alloc, request, texts, err);
    }
    status
}
