//! Warning of what a request assumes and is always true.

ghost use Rattle.std.specs.Prelude.{◌≤◌};

use cli_arguments::{ListRequest, Request};
use cli_assumed::warn_always;
use cli_diff::DiffTexts;
use cli_inputs::Texts;
use io_text::{CountedWriter, Sink};
use std::alloc::Global;

/// The expressions that a request for a list assumes, unless it is to be quiet.
fn of_list(list: &ListRequest) -> &[String] {
    unless_quiet(list.quiet, &list.assumed)
}

/// These expressions, unless a request is to be quiet.
fn unless_quiet(quiet: bool, expressions: &[String]) -> &[String] {
    if quiet { &[] } else { expressions }
}

/// The expressions of a request that it is warned of where they are always true.
pub(crate) fn warned_of(request: &Request) -> &[String] {
    match request {
        Request::Causes { list, .. } => of_list(list),
        Request::Progress { list, .. } => of_list(list),
        Request::Held { list, .. } => of_list(list),
        Request::Groups { list, .. } => of_list(list),
        Request::Relevant { list, .. } => of_list(list),
        Request::Possible(possible) => unless_quiet(possible.quiet, &possible.assumed),
        Request::Never(never) => unless_quiet(never.quiet, &never.assumed),
        Request::Reach(reach) => reach.assumed.as_slice(),
        Request::Show(show) => show.assumed.as_slice(),
        Request::Check { .. }
        | Request::Film(_)
        | Request::Sim(_)
        | Request::Watch(_)
        | Request::Expect(_)
        | Request::Waves(_)
        | Request::Uses { .. }
        | Request::Import(_)
        | Request::Draw { .. }
        | Request::Export(_) => &[],
    }
}

/// Warns of the expressions of a request that was performed with this status. Returns the status, 1 where the warning failed.
pub(crate) fn warn_of<E: Sink>(
    alloc: Global,
    status: u8,
    expressions: &[String],
    texts: &Texts,
    err: &mut E,
) -> u8
    requires { status ≤ 1 }
    ensures { result ≤ 1 }
{
    if status == 0 && !expressions.is_empty() {
        return warn_always(alloc, texts, expressions, err);
    }
    status
}

/// The same of a comparison, by the names of the old program.
pub(crate) fn warn_of_both<E: Sink>(
    alloc: Global,
    status: u8,
    quiet: bool,
    expressions: &[String],
    texts: &DiffTexts,
    err: &mut E,
) -> u8
    requires { status ≤ 1 }
    ensures { result ≤ 1 }
{
    let expressions = unless_quiet(quiet, expressions);
    warn_of(alloc, status, expressions, &texts.old, err)
}

/// The same of two programs that were judged, over the standard streams.
pub(crate) fn warn_of_judged(
    rt: &HostRuntime,
    alloc: Global,
    status: u8,
    quiet: bool,
    expressions: &[String],
    texts: &DiffTexts,
) -> u8
    requires { status ≤ 1 }
    ensures { result ≤ 1 }
{
    let mut err = CountedWriter::new(rt.stderr());
    warn_of_both(alloc, status, quiet, expressions, texts, &mut err)
}
