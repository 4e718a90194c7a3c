//! A request for a list, of one coil after the other.

ghost use Rattle.std.specs.Prelude.{◌≡◌};
ghost use Rattle.cli_perform.specs.CoilNames.{is_quiet, of_coil};

use cli_arguments::Request;

/// Puts the name of a coil into a request for a list. Any other request stays as it is.
pub fn ask_of(request: &mut Request, coil: String)
    ensures { request.new ≡ of_coil coil request.old }
{
    match request {
        Request::Causes { list, .. } => list.coil = coil,
        Request::Progress { list, .. } => list.coil = coil,
        Request::Held { list, .. } => list.coil = coil,
        Request::Groups { list, .. } => list.coil = coil,
        Request::Relevant { list, .. } => list.coil = coil,
        Request::Possible(possible) => possible.coil = coil,
        Request::Check { .. }
        | Request::Never(_)
        | Request::Reach(_)
        | Request::Show(_)
        | Request::Film(_)
        | Request::Sim(_)
        | Request::Watch(_)
        | Request::Expect(_)
        | Request::Waves(_)
        | Request::Uses { .. }
        | Request::Import(_)
        | Request::Draw { .. }
        | Request::Export(_) => (),
    }
}

/// Whether the line of counts of a list is left out.
pub fn is_quiet(request: &Request) -> bool
    ensures { result ≡ is_quiet request.now }
{
    match request {
        Request::Causes { list, .. }
        | Request::Progress { list, .. }
        | Request::Held { list, .. }
        | Request::Groups { list, .. }
        | Request::Relevant { list, .. } => list.quiet,
        Request::Possible(possible) => possible.quiet,
        Request::Check { .. }
        | Request::Never(_)
        | Request::Reach(_)
        | Request::Show(_)
        | Request::Film(_)
        | Request::Sim(_)
        | Request::Watch(_)
        | Request::Expect(_)
        | Request::Waves(_)
        | Request::Uses { .. }
        | Request::Import(_)
        | Request::Draw { .. }
        | Request::Export(_) => false,
    }
}
