//! When there is no list of differences.

ghost use Rattle.std.specs.Prelude.{◌≡◌, IfSome, None};
ghost use Rattle.causes_query.specs.Refusal.{refusal};
ghost use Rattle.diff_causes.specs.Asked.{asked};
ghost use Rattle.diff_causes.specs.Refused.{IsRefusedBy};

use crate::fault::DifferenceFault;
use crate::query::ProgramQuery;
use causes_query::refusal::refusal;

/// The first rule that the question to the old program breaks, or else the first that the question to the new one breaks.
pub(crate) fn refused(
    old: ProgramQuery<'_>,
    new: ProgramQuery<'_>,
    after: Option<u64>,
) -> Option<DifferenceFault>
    ensures old { result ≡ None → refusal (asked old.entry) after ≡ None }
    ensures new { result ≡ None → refusal (asked new.entry) after ≡ None }
    ensures refused { IfSome result (λ e. IsRefusedBy (asked old.entry) (asked new.entry) after e) }
{
    if let Some(fault) = refusal(old.program, old.state, old.now, old.coil, old.listed, after) {
        return Some(DifferenceFault::Old(fault));
    }
    match refusal(new.program, new.state, new.now, new.coil, new.listed, after) {
        Some(fault) => Some(DifferenceFault::New(fault)),
        None => None,
    }
}
