//! A request with what the comments of its program text assume.

ghost use Rattle.std.specs.Prelude.{◌≡◌, ◌≤◌, ◌⊎◌, IfOk, map, string_bytes};
ghost use Rattle.cli_arguments.specs.declared.request.Request.{Request};
ghost use Rattle.cli_inputs.specs.Reports.{Refuses, logs};
ghost use Rattle.cli_inputs.specs.Setting.{given_by};
ghost use Rattle.cli_inputs.specs.declared.fault.ToolFault.TheVariants.{Memory};
ghost use Rattle.cli_perform.specs.Advised.{FailsAdvised};
ghost use Rattle.cli_perform.specs.Assuming.{ArePutFirst, IsAssuming, TakesComments};
ghost use Rattle.cli_perform.specs.Performs.{IsDone};

use crate::advised::perform_advised;
use assume_comments::assumed_in;
use cli_arguments::Request;
use cli_inputs::{Texts, ToolFault, report};
use io_text::Sink;
use std::alloc::{AllocError, Global};
use std::mem;

/// Puts these expressions before others.
fn put_first(others: &mut Vec<String>, texts: Vec<String>) -> Result<(), AllocError>
    ensures { IfOk result (λ _. ArePutFirst (map string_bytes texts.items) others.old others.new) }
{
    let mut own = mem::replace(others, texts);
    others.append(&mut own)
}

/// Assumes these expressions in a request that can assume some, before its own. Any other request stays as it is.
fn assume_all(request: &mut Request, texts: Vec<String>) -> Result<(), AllocError>
    ensures { IfOk result (λ _. IsAssuming (map string_bytes texts.items) request.old request.new) }
{
    match request {
        Request::Causes { list, .. } => put_first(&mut list.assumed, texts),
        Request::Progress { list, .. } => put_first(&mut list.assumed, texts),
        Request::Held { list, .. } => put_first(&mut list.assumed, texts),
        Request::Groups { list, .. } => put_first(&mut list.assumed, texts),
        Request::Relevant { list, .. } => put_first(&mut list.assumed, texts),
        Request::Possible(possible) => put_first(&mut possible.assumed, texts),
        Request::Never(never) => put_first(&mut never.assumed, texts),
        Request::Reach(reach) => put_first(&mut reach.assumed, texts),
        Request::Show(show) => put_first(&mut show.assumed, texts),
        Request::Check { .. }
        | Request::Film(_)
        | Request::Sim(_)
        | Request::Watch(_)
        | Request::Expect(_)
        | Request::Waves(_)
        | Request::Uses { .. }
        | Request::Import(_)
        | Request::Draw { .. }
        | Request::Export(_) => {
            drop(texts);
            Ok(())
        }
    }
}

/// Assumes in a request that can assume something what the comments of its program text assume, before what it assumes by itself.
///
/// # Errors
///
/// An error when out of memory; what the request assumes is then not said.
pub fn assume_comments(alloc: Global, request: &mut Request, text: &[u8]) -> Result<(), AllocError>
    ensures { IfOk result (λ _. TakesComments text.now request.old request.new) }
{
    let texts = assumed_in(alloc, text)?;
    assume_all(request, texts)
}

/// Performs a request on its texts, with what the comments of the program text assume, as `perform` does. After a fault that is explained it is said
/// which name is meant by one that names nothing. Returns the status: 0 where all was written, 1 where a fault stopped it.
pub fn perform_assuming<O: Sink, S: Sink, E: Sink>(
    alloc: Global,
    request: &mut Request,
    texts: &Texts,
    out: &mut O,
    save: &mut S,
    err: &mut E,
) -> u8
    ensures status { result ≤ 1 }
    ensures done { result ≡ 0 → (r : Request) × TakesComments (given_by texts.now).program request.old r
        × IsDone r (given_by texts.now) (logs (O.log out.old) (S.log save.old) (E.log err.old)) (logs (O.log out.new) (S.log save.new) (E.log err.new)) }
    ensures failed { result ≡ 1 → Refuses (given_by texts.now) (λ f. f ≡ Memory) (logs (O.log out.old) (S.log save.old) (E.log err.old)) (logs (O.log out.new) (S.log save.new) (E.log err.new))
        ⊎ ((r : Request) × TakesComments (given_by texts.now).program request.old r
        × FailsAdvised r (given_by texts.now) (logs (O.log out.old) (S.log save.old) (E.log err.old)) (logs (O.log out.new) (S.log save.new) (E.log err.new))) }
{
    match assume_comments(alloc, request, texts.program.as_slice()) {
        Ok(()) => perform_advised(alloc, request, texts, out, save, err),
        Err(_) => report(texts, &ToolFault::Memory, err),
    }
}
