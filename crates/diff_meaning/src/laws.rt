//! Laws over the definitions: each function does nothing, and its contract is the law.

ghost use Rattle.diff_meaning.specs.Laws.{AreTrueOfAll, AreWitnessesOfAll, EquivalentWhereSame, EquivalentWhereSameAssuming, FreshRunsAgree, FreshRunsAgreeAssuming};

use diagram_program::Program;
use diff_cases::Assumptions;
use invariant_sets::laws::stays_assuming;
use scan_cycle::scene::checked;

/// Where all that belongs together in two programs is left alike, they are equivalent.
pub fn equivalent_where_same(old: &Program, new: &Program)
    ensures all { EquivalentWhereSame old.now new.now }
    ensures assuming { EquivalentWhereSameAssuming old.now new.now }
{
    let _old = old;
    let _new = new;
}

/// The same, from the fresh states on: where those agree, and what makes a state count stays so from them on, the programs agree after each scan
/// of any runs in which what is assumed of the inputs is true.
pub fn fresh_runs_agree_assuming(old: &Program, new: &Program)
    ensures { FreshRunsAgreeAssuming old.now new.now }
{
    checked(old);
    checked(new);
    stays_assuming(old);
    stays_assuming(new);
}

/// The same where nothing is assumed: after each scan of any runs.
pub fn fresh_runs_agree(old: &Program, new: &Program)
    ensures { FreshRunsAgree old.now new.now }
{
    fresh_runs_agree_assuming(old, new);
    let _nothing = Assumptions::nothing();
}

/// Where nothing is assumed, verdicts and their witnesses are so by the states that count then.
pub fn true_of_all(old: &Program, new: &Program)
    ensures verdicts { AreTrueOfAll old.now new.now }
    ensures witnesses { AreWitnessesOfAll old.now new.now }
{
    let _old = old;
    let _new = new;
}
