//! Removing what isn't settled to stay so.

ghost use Rattle.std.specs.Prelude.{◌≡◌, ◌+◌, ◌≤◌, ℕ, Bool, [], length, slice_index_or, true, IsTrue};
ghost use Rattle.diagram_declarations.specs.declared.decls.Symbol.TheVariants as symbol;
ghost use Rattle.scan_cycle.specs.Programs.{diagram_of};
ghost use Rattle.scan_symbolic.specs.KnownScan.{after_known};
ghost use Rattle.scan_partial.specs.Sizes.{HasSizes};
ghost use Rattle.invariant_cases.specs.Buffers.{AreCaseBuffers, KeepBuffers};
ghost use Rattle.invariant_cases.specs.Assuming.{assumed_of};
ghost use Rattle.invariant_cases.specs.Cases.{point_of, told};
ghost use Rattle.invariant_sets.specs.Invariants.{IsSettledSoAssuming};
ghost use Rattle.invariant_sets.specs.Never.{Bits, IsSetOf, IsWithin, Stays, knowing};
ghost use Rattle.invariant_cases.specs.Outcomes.{outcomes};
ghost use Rattle.invariant_sets.specs.Removing.{size, IsLeftBy, IsLeftSo};
ghost use Rattle.scan_signals.specs.Three.{three, three_known};
ghost use Rattle.scan_signals.specs.declared.tri.Tri.TheVariants.{Unsure};

use crate::basis::Basis;
use crate::knowing::know;
use crate::laws::leaves_so;
use crate::set::Set;
use diagram_declarations::Symbol;
use invariant_cases::cases::settle as settle_case;
use invariant_cases::pinning::told;
use invariant_cases::points::point_of;
use invariant_cases::{CaseBuffers, Outcome, Pair, Question};
use scan_partial::{Knowledge, scan_known};
use scan_signals::Tri;

/// What claims are settled by in one round.
#[derive(Clone, Copy)]
struct Round<'a> {
    basis: Basis<'a>,
    /// Of each not both are ON before the scan.
    pairs: &'a [Pair],
    /// What one scan leaves of what is known in the case.
    after: &'a Knowledge<Tri, Outcome>,
}

/// Whether one is settled to have the wanted value after a scan from the case. Where one scan leaves that open, cases are tried.
fn stays(round: Round<'_>, symbol: Symbol, wanted: bool, buffers: &mut CaseBuffers) -> bool
    requires buffers { AreCaseBuffers round.basis.program.now buffers.old }
    requires after { round.after.now ≡ after_known three outcomes (diagram_of round.basis.program.now) 0 [] buffers.old.case }
    ensures stays { IsTrue result
        → IsLeftSo round.entry.basis.program.now (assumed_of round.entry.basis.assumption) round.entry.pairs.now symbol round.entry.after.now buffers.old.case round.entry.basis.scans wanted }
    ensures told { told (point_of symbol) round.entry.after.now ≡ three_known wanted → IsTrue result }
    ensures buffers { KeepBuffers round.entry.basis.program.now buffers.old buffers.new }
{
    match told(point_of(symbol), round.after) {
        Tri::Off => !wanted,
        Tri::On => wanted,
        Tri::Unsure => {
            let question = Question {
                program: round.basis.program,
                writers: round.basis.writers,
                assumption: round.basis.assumption,
                pairs: round.pairs,
                target: Pair::of_itself(symbol),
                wanted,
            };
            settle_case(question, buffers, round.basis.scans).is_settled
        }
    }
}

/// Whether what is claimed of one is settled to be so after a scan from the case. Where nothing is claimed, there is nothing to settle.
fn keeps(round: Round<'_>, symbol: Symbol, claim: Tri, buffers: &mut CaseBuffers) -> bool
    requires buffers { AreCaseBuffers round.basis.program.now buffers.old }
    requires after { round.after.now ≡ after_known three outcomes (diagram_of round.basis.program.now) 0 [] buffers.old.case }
    ensures stays { IsTrue result → (value : Bool) → claim ≡ three_known value
        → IsLeftSo round.entry.basis.program.now (assumed_of round.entry.basis.assumption) round.entry.pairs.now symbol round.entry.after.now buffers.old.case round.entry.basis.scans value }
    ensures told { told (point_of symbol) round.entry.after.now ≡ claim → IsTrue result }
    ensures open { claim ≡ Unsure → IsTrue result }
    ensures buffers { KeepBuffers round.entry.basis.program.now buffers.old buffers.new }
{
    match claim {
        Tri::Off => stays(round, symbol, false, buffers),
        Tri::On => stays(round, symbol, true, buffers),
        Tri::Unsure => true,
    }
}

/// Leaves what is claimed of variables and settled to stay so, and returns how many claims were removed.
fn leave_variables(round: Round<'_>, buffers: &mut CaseBuffers, variables: &mut [Tri]) -> usize
    requires buffers { AreCaseBuffers round.basis.program.now buffers.old }
    requires after { round.after.now ≡ after_known three outcomes (diagram_of round.basis.program.now) 0 [] buffers.old.case }
    ensures left { IsLeftBy (λ var. told (point_of (symbol.Var var)) round.entry.after.now)
        (λ var. IsLeftSo round.entry.basis.program.now (assumed_of round.entry.basis.assumption) round.entry.pairs.now (symbol.Var var) round.entry.after.now buffers.old.case round.entry.basis.scans) variables.old variables.new result }
    ensures few { result ≤ length variables.old }
    ensures buffers { KeepBuffers round.entry.basis.program.now buffers.old buffers.new }
{
    let mut removed = 0;
    for var in 0..variables.len() {
        let claim = variables[var];
        if !keeps(round, Symbol::Var(var), claim, buffers) {
            variables[var] = Tri::Unsure;
            removed += 1;
        }
    }
    removed
}

/// Leaves what is claimed of Qs and settled to stay so, and returns how many claims were removed.
fn leave_instances(round: Round<'_>, buffers: &mut CaseBuffers, instances: &mut [Tri]) -> usize
    requires buffers { AreCaseBuffers round.basis.program.now buffers.old }
    requires after { round.after.now ≡ after_known three outcomes (diagram_of round.basis.program.now) 0 [] buffers.old.case }
    ensures left { IsLeftBy (λ inst. told (point_of (symbol.Instance inst)) round.entry.after.now)
        (λ inst. IsLeftSo round.entry.basis.program.now (assumed_of round.entry.basis.assumption) round.entry.pairs.now (symbol.Instance inst) round.entry.after.now buffers.old.case round.entry.basis.scans) instances.old instances.new result }
    ensures few { result ≤ length instances.old }
    ensures buffers { KeepBuffers round.entry.basis.program.now buffers.old buffers.new }
{
    let mut removed = 0;
    for inst in 0..instances.len() {
        let claim = instances[inst];
        if !keeps(round, Symbol::Instance(inst), claim, buffers) {
            instances[inst] = Tri::Unsure;
            removed += 1;
        }
    }
    removed
}

/// Leaves what is settled to be so after a scan from where the set is so, of no pair both are ON and what is assumed is true, and returns how many
/// claims were removed. The buffers then have what is known where the set was so.
pub(crate) fn remove(
    basis: Basis<'_>,
    pairs: &[Pair],
    set: &mut Set,
    after: &mut Knowledge<Tri, Outcome>,
    buffers: &mut CaseBuffers,
) -> usize
    requires set { IsSetOf basis.program.now set.old }
    requires after { HasSizes basis.program.now after.old }
    requires buffers { AreCaseBuffers basis.program.now buffers.old }
    ensures set { IsSetOf basis.entry.program.now set.new }
    ensures within { IsWithin set.new set.old }
    ensures most { (other : Bits) → IsSetOf basis.entry.program.now other → Stays basis.entry.program.now other → IsWithin other set.old → IsWithin other set.new }
    ensures removed { size set.new + result ≡ size set.old }
    ensures same { result ≡ 0 → set.new ≡ set.old }
    ensures settled { result ≡ 0 → IsSettledSoAssuming basis.entry.program.now (assumed_of basis.entry.assumption) set.new pairs.now }
    ensures plain { basis.entry.scans ≡ 0 → result ≡ 0 → Stays basis.entry.program.now set.new }
    ensures after { HasSizes basis.entry.program.now after.new }
    ensures buffers { AreCaseBuffers basis.entry.program.now buffers.new }
    ensures case { buffers.new.case ≡ knowing basis.entry.program.now set.old }
{
    leaves_so(basis.program);
    know(basis.program, set, &mut buffers.case);
    after.copy_from(&buffers.case);
    scan_known(basis.program, after, &[], 0, &mut buffers.room);
    let round = Round {
        basis,
        pairs,
        after,
    };
    let variables = leave_variables(round, buffers, &mut set.variables);
    let instances = leave_instances(round, buffers, &mut set.instances);
    variables + instances
}

/// Removes, again and again, what isn't settled to be so after a scan, until all that is left is.
pub(crate) fn settle(
    basis: Basis<'_>,
    set: &mut Set,
    after: &mut Knowledge<Tri, Outcome>,
    buffers: &mut CaseBuffers,
)
    requires set { IsSetOf basis.program.now set.old }
    requires after { HasSizes basis.program.now after.old }
    requires buffers { AreCaseBuffers basis.program.now buffers.old }
    ensures set { IsSetOf basis.entry.program.now set.new }
    ensures within { IsWithin set.new set.old }
    ensures most { (other : Bits) → IsSetOf basis.entry.program.now other → Stays basis.entry.program.now other → IsWithin other set.old → IsWithin other set.new }
    ensures settled { IsSettledSoAssuming basis.entry.program.now (assumed_of basis.entry.assumption) set.new [] }
    ensures plain { basis.entry.scans ≡ 0 → Stays basis.entry.program.now set.new }
{
    let mut removed = 1;
    while 0 < removed {
        removed = remove(basis, &[], set, after, buffers);
    }
}
