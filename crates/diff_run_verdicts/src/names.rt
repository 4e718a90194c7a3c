//! What has a name in both programs.

ghost use Rattle.std.specs.Prelude.{◌≡◌};
ghost use Rattle.diff_run_verdicts.specs.RunVerdicts.{pairs_of, symbols_of};

use diagram_declarations::Symbol;
use diff_matching::{Matching, Pair};
use diff_runs::TwoSymbols;

/// What has a name, and is judged: variables that are no inputs, and instances.
#[derive(Clone, Copy)]
pub enum NameSort {
    Variables,
    Instances,
}

/// The pairs of a sort.
pub fn pairs_of(sort: NameSort, matching: &Matching) -> &[Pair]
    ensures { result.now ≡ pairs_of sort matching.now }
{
    match sort {
        NameSort::Variables => matching.variables(),
        NameSort::Instances => matching.instances(),
    }
}

/// The symbols that a pair of a sort names.
pub fn symbols_of(sort: NameSort, pair: Pair) -> TwoSymbols
    ensures { result ≡ symbols_of sort pair }
{
    match sort {
        NameSort::Variables => TwoSymbols {
            old: Symbol::Var(pair.old),
            new: Symbol::Var(pair.new),
        },
        NameSort::Instances => TwoSymbols {
            old: Symbol::Instance(pair.old),
            new: Symbol::Instance(pair.new),
        },
    }
}
