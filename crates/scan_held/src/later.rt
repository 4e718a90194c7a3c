//! Whether a state has come again, up to the passage of time.

ghost use Rattle.std.specs.Prelude.{◌≡◌, ◌↔◌, IsTrue};
ghost use Rattle.scan_cycle.specs.Programs.{diagram_of};
ghost use Rattle.scan_cycle.specs.Standing.{Fits};
ghost use Rattle.scan_held.specs.Shifting.{IsLater, RunAlike};
ghost use Rattle.scan_held.specs.Later.{AreLater, IsLaterState};

use diagram_program::Program;
use scan_cycle::State;
use scan_cycle::scene::instance;
use scan_signals::Stored;

/// Whether both states have the same values of all variables.
fn same_values(program: &Program, before: &State, after: &State) -> bool
    requires before { Fits program.now before.now }
    requires after { Fits program.now after.now }
    ensures { IsTrue result ↔ (before.now.held.values ≡ after.now.held.values) }
{
    for var in 0..program.decls().vars().len() {
        if before.value(var) != after.value(var) {
            return false;
        }
    }
    true
}

/// Whether both states have the same memories of edges.
fn same_memories(program: &Program, before: &State, after: &State) -> bool
    requires before { Fits program.now before.now }
    requires after { Fits program.now after.now }
    ensures { IsTrue result ↔ (before.now.held.kept.memories ≡ after.now.held.kept.memories) }
{
    for number in 0..program.memories() {
        if before.memory(number) != after.memory(number) {
            return false;
        }
    }
    true
}

/// Whether two timers that run go on alike: the second start is later by the shift, or the presets of both have passed.
fn run_alike(preset: u32, moment: u64, shift: u64, start: u64, later: u64) -> bool
    ensures { IsTrue result ↔ RunAlike preset moment shift start later }
{
    if start <= later && later - start == shift {
        return true;
    }
    // the sum stops at 2^64 - 1, and no start is past that
    match moment.checked_sub(u64::from(preset)) {
        Some(latest) => start <= latest && later <= latest.saturating_add(shift),
        None => false,
    }
}

/// Whether two stored blocks go on alike, the second one `shift` ms later: the starts of timers that run may differ by the shift,
/// all else is the same.
fn later_stored(preset: u32, moment: u64, shift: u64, before: Stored, after: Stored) -> bool
    ensures { IsTrue result ↔ IsLater preset moment shift before after }
{
    match (before, after) {
        (
            Stored::Timer {
                last,
                running,
                start,
                q,
            },
            Stored::Timer {
                last: later_last,
                running: later_running,
                start: later_start,
                q: later_q,
            },
        ) => {
            later_last == last
                && later_running == running
                && later_q == q
                && (!running || run_alike(preset, moment, shift, start, later_start))
        }
        (Stored::Counter { .. }, Stored::Counter { .. })
        | (Stored::Bistable { .. }, Stored::Bistable { .. }) => after == before,
        (Stored::Timer { .. } | Stored::Counter { .. } | Stored::Bistable { .. }, _) => false,
    }
}

/// Whether what all instances store goes on alike, the second state `shift` ms later.
fn later_blocks(program: &Program, moment: u64, shift: u64, before: &State, after: &State) -> bool
    requires before { Fits program.now before.now }
    requires after { Fits program.now after.now }
    ensures { IsTrue result ↔ AreLater (diagram_of program.now) moment shift before.now.held.kept.blocks after.now.held.kept.blocks }
{
    before.checked();
    after.checked();
    for inst in 0..program.decls().instances().len() {
        let (_kind, preset) = instance(program, inst);
        if !later_stored(
            preset,
            moment,
            shift,
            before.stored(inst),
            after.stored(inst),
        ) {
            return false;
        }
    }
    true
}

/// Whether the second state is the first one come again, later by `shift`: the same values, memories and stored blocks, but that each
/// timer that runs began later by that time, or that its preset has passed in both, at `moment` and that much later.
///
/// Scans with the same inputs, of the first state from `moment` on and of the second that much later, leave such states again
/// (`later_laws::goes_on_alike`).
pub fn is_later(program: &Program, moment: u64, shift: u64, before: &State, after: &State) -> bool
    requires before { Fits program.now before.now }
    requires after { Fits program.now after.now }
    ensures { IsTrue result ↔ IsLaterState (diagram_of program.now) moment shift before.now.held after.now.held }
{
    same_values(program, before, after)
        && same_memories(program, before, after)
        && later_blocks(program, moment, shift, before, after)
}
