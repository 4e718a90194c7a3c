//! Time passes between two scans.

ghost use Rattle.std.specs.Prelude.{◌≡◌, ◌+◌, ◌<◌, ◌≤◌, ℕ, length, false, true, IfSome, IsNone};
ghost use Rattle.scan_cycle.specs.Programs.{diagram_of};
ghost use Rattle.scan_cycle.specs.Rung.{Held};
ghost use Rattle.scan_cycle.specs.Standing.{Fits};
ghost use Rattle.scan_partial.specs.Sizes.{HasSizes};
ghost use Rattle.scan_symbolic.specs.KnownScan.{kept_at};
ghost use Rattle.reach_runs.specs.declared.timing.Timing.TheVariants as timing;
ghost use Rattle.reach_states.specs.Allowing.{AllowsState, aged, is_waiting, over};
ghost use Rattle.reach_states.specs.Untimed.{untimed};

use crate::stepping::untimed_of;
use crate::untimed::Untimed;
use diagram_program::Program;
use scan_cycle::State;
use scan_cycle::scene::{checked, instance};
use scan_partial::Knowledge;
use scan_signals::Tri;

/// Becomes what is known of a state without moments, for a scan at the moment `now`, in milliseconds.
pub fn know_untimed(program: &Program, state: &State, now: u64, known: &mut Knowledge<Tri, Untimed>)
    requires fits { Fits program.now state.now }
    requires sizes { HasSizes program.now known.old }
    requires now { state.now.moment ≤ now }
    ensures any { AllowsState timing.AnyMoments (diagram_of program.now) now known.new state.now.held }
    ensures every { (every : ℕ) → AllowsState (timing.Every every) (diagram_of program.now) now known.new state.now.held }
    ensures sizes { HasSizes program.now known.new }
{
    checked(program);
    state.checked();
    known.know(state);
    for inst in 0..program.decls().instances().len() {
        let (kind, preset) = instance(program, inst);
        known.keep(inst, untimed_of(kind, preset, now, state.stored(inst)));
    }
}

/// Whether a timer runs whose time hasn't passed.
fn is_waiting(preset: u32, kept: Untimed) -> bool
    ensures { result ≡ is_waiting preset kept }
{
    match kept {
        Untimed::Timer {
            running,
            elapsed,
            ..
        } => running && elapsed < preset,
        Untimed::Counter { .. } | Untimed::Output(_) | Untimed::Anything => false,
    }
}

/// The first instance from a number on that is a timer that runs and whose time hasn't passed.
pub fn next_waiting(
    program: &Program,
    known: &Knowledge<Tri, Untimed>,
    from: usize,
) -> Option<usize>
    ensures here { IfSome result (λ inst. is_waiting ((diagram_of program.now).preset inst) (kept_at untimed known.now inst) ≡ true) }
    ensures after { IfSome result (λ inst. from ≤ inst) }
    ensures range { IfSome result (λ inst. inst < length program.now.decls.instances) }
    ensures between { IfSome result (λ inst. (i : ℕ) → from ≤ i → i < inst → is_waiting ((diagram_of program.now).preset i) (kept_at untimed known.now i) ≡ false) }
    ensures none { IsNone result → (i : ℕ) → from ≤ i → i < length program.now.decls.instances → is_waiting ((diagram_of program.now).preset i) (kept_at untimed known.now i) ≡ false }
{
    for inst in from..program.decls().instances().len() {
        let (_kind, preset) = instance(program, inst);
        if is_waiting(preset, known.kept(inst)) {
            return Some(inst);
        }
    }
    None
}

/// A timer whose time has passed.
pub fn over(preset: u32, kept: Untimed) -> Untimed
    ensures { result ≡ over preset kept }
{
    match kept {
        Untimed::Timer {
            last,
            running,
            q,
            ..
        } => Untimed::Timer {
            last,
            running,
            elapsed: preset,
            q,
        },
        Untimed::Counter { .. } | Untimed::Output(_) | Untimed::Anything => kept,
    }
}

/// What is kept of an instance after so many milliseconds.
fn aged(every: u64, preset: u32, kept: Untimed) -> Untimed
    ensures { result ≡ aged every preset kept }
{
    match kept {
        Untimed::Timer {
            last,
            running,
            elapsed,
            q,
        } => {
            let ran = u64::from(elapsed)
                .saturating_add(every)
                .min(u64::from(preset));
            Untimed::Timer {
                last,
                running,
                elapsed: if running { ran as u32 } else { 0 },
                q,
            }
        }
        Untimed::Counter { .. } | Untimed::Output(_) | Untimed::Anything => kept,
    }
}

/// So many milliseconds pass.
pub fn age(program: &Program, every: u64, known: &mut Knowledge<Tri, Untimed>)
    requires { HasSizes program.now known.old }
    ensures allows { (now : ℕ) (held : Held) → AllowsState (timing.Every every) (diagram_of program.now) now known.old held
        → AllowsState (timing.Every every) (diagram_of program.now) (now + every) known.new held }
    ensures sizes { HasSizes program.now known.new }
{
    for inst in 0..program.decls().instances().len() {
        let (_kind, preset) = instance(program, inst);
        known.keep(inst, aged(every, preset, known.kept(inst)));
    }
}
