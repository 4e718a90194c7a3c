//! Verdicts.

ghost use Rattle.std.specs.Prelude.{◌≡◌, ◌↔◌, All, IsTrue};
ghost use Rattle.diff_meaning.specs.Verdicts.{AreAllSame};
ghost use Rattle.diff_meaning.specs.declared.verdict.Verdict.TheVariants.{Same};

/// The moment of the states that show a difference, and of their scan, in ms, at which each preset may have passed: some 50 days.
pub const MOMENT: u64 = 4_294_967_296;

/// What is told of one scan of each program.
#[derive(Clone, Copy, PartialEq, Eq)]
pub enum Verdict {
    /// It leaves the target alike from all states that agree and count.
    Same,
    /// It leaves these values from some states that agree and count: of a variable or a memory, or the Q of an instance.
    Differs { old: bool, new: bool },
    /// It isn't settled.
    Unsettled,
}

/// The verdicts on all that belongs together in two programs, each list in the order of the matching.
#[derive(Drop)]
pub struct Verdicts {
    pub variables: Vec<Verdict>,
    pub instances: Vec<Verdict>,
    pub memories: Vec<Verdict>,
}

/// What the pairs of a list name.
#[derive(Clone, Copy)]
pub enum PairSort {
    Variables,
    Instances,
    Memories,
}

/// Whether each of them is that nothing differs.
fn are_same(verdicts: &[Verdict]) -> bool
    ensures { IsTrue result ↔ All (λ v. v ≡ Same) verdicts.now }
{
    verdicts.iter().all(|verdict| *verdict == Verdict::Same)
}

/// Whether all that belongs together is left alike.
pub fn are_all_same(verdicts: &Verdicts) -> bool
    ensures { IsTrue result ↔ AreAllSame verdicts.now }
{
    are_same(&verdicts.variables) && are_same(&verdicts.instances) && are_same(&verdicts.memories)
}
