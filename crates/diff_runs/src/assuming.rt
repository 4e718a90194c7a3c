//! What is assumed of the inputs of two programs.

ghost use Rattle.std.specs.Prelude.{◌≡◌};
ghost use Rattle.diff_runs.specs.Assuming.{assumptions, nothing};

use st_expression::Expression;

/// What is assumed of the inputs of two programs in each scan: of each an expression over its own inputs, where something is assumed. An operand of
/// it is an input, by its place in order of declaration.
#[derive(Clone, Copy)]
pub struct TwoAssumed<'a> {
    pub old: Option<&'a Expression>,
    pub new: Option<&'a Expression>,
}

/// Nothing is assumed.
pub fn nothing<'a>() -> TwoAssumed<'a>
    ensures { assumptions result ≡ nothing }
{
    TwoAssumed {
        old: None,
        new: None,
    }
}
