//! What a list claims of the numbers in its rows.

ghost use Rattle.std.specs.Prelude.{◌≡◌};
ghost use Rattle.causes_any_state.specs.Numbers.{sought};

/// What a row claims of its number.
#[derive(Clone, Copy, Debug, PartialEq, Eq)]
pub enum Claim {
    /// Some state that counts, at some moment, leaves the coil ON with it.
    Possible,
    /// Every state that counts, at every moment, leaves the coil ON with it.
    Forced,
}

/// The value of the coil that is sought after a scan from some state, which tells that a number is possible, or that it isn't forced.
pub(crate) fn sought(claim: Claim) -> bool
    ensures { result ≡ sought claim }
{
    match claim {
        Claim::Possible => true,
        Claim::Forced => false,
    }
}
