//! Whether what is known has come again, up to the passage of time.

ghost use Rattle.std.specs.Prelude.{◌≡◌, ◌<◌, ◌≤◌, ◌-◌, ◌*◌, ◌⊎◌, ◌↔◌, IsTrue, false, true};
ghost use Rattle.scan_cycle.specs.Programs.{diagram_of};
ghost use Rattle.scan_partial.specs.Sizes.{AreAsLong, HasSizes};
ghost use Rattle.scan_symbolic.specs.KnownLaws.{BothAt};
ghost use Rattle.scan_held.specs.Holding.{are_no_scans, moment_of};
ghost use Rattle.scan_held.specs.Again.{IsLaterKnown, PartlyAlike, StartAlike, StoredAlike};

use crate::partly::Partly;
use crate::scans::Watched;
use diagram_program::Program;
use scan_cycle::scene::instance;
use scan_partial::Knowledge;
use scan_signals::{Stored, Tri};

/// Whether the same is known of all variables.
fn same_values(
    program: &Program,
    before: &Knowledge<Tri, Partly>,
    after: &Knowledge<Tri, Partly>,
) -> bool
    requires before { HasSizes program.now before.now }
    requires after { HasSizes program.now after.now }
    ensures { IsTrue result ↔ (before.now.values ≡ after.now.values) }
{
    for var in 0..program.decls().vars().len() {
        if before.value(var) != after.value(var) {
            return false;
        }
    }
    true
}

/// Whether the same is known of all memories of edges.
fn same_memories(
    program: &Program,
    before: &Knowledge<Tri, Partly>,
    after: &Knowledge<Tri, Partly>,
) -> bool
    requires before { HasSizes program.now before.now }
    requires after { HasSizes program.now after.now }
    ensures { IsTrue result ↔ (before.now.memories ≡ after.now.memories) }
{
    for number in 0..program.memories() {
        if before.memory(Some(number)) != after.memory(Some(number)) {
            return false;
        }
    }
    true
}

/// Whether two timers that run go on alike: the second start is later by the shift, or both are old and the presets have passed.
fn starts_alike(preset: u32, moment: u64, shift: u64, start: u64, later: u64) -> bool
    ensures { IsTrue result ↔ StartAlike preset moment shift start later }
{
    if start <= later && later - start == shift {
        return true;
    }
    if moment <= start || (moment <= later && shift <= later - moment) {
        return false;
    }
    // the sum stops at 2^64 - 1, and no start is past that
    match moment.checked_sub(u64::from(preset)) {
        Some(latest) => start <= latest && later <= latest.saturating_add(shift),
        None => false,
    }
}

/// Whether two stored blocks go on alike, the second one `shift` ms later: starts may differ by the shift, all else is the same.
fn later_stored(preset: u32, moment: u64, shift: u64, before: Stored, after: Stored) -> bool
    ensures { IsTrue result ↔ StoredAlike (StartAlike preset moment shift) before after }
{
    match (before, after) {
        (
            Stored::Timer {
                last,
                running,
                start,
                q,
            },
            Stored::Timer {
                last: later_last,
                running: later_running,
                start: later_start,
                q: later_q,
            },
        ) => {
            later_last == last
                && later_running == running
                && later_q == q
                && (if running {
                    starts_alike(preset, moment, shift, start, later_start)
                } else {
                    later_start == start
                })
        }
        (Stored::Counter { .. }, Stored::Counter { .. })
        | (Stored::Bistable { .. }, Stored::Bistable { .. }) => after == before,
        (Stored::Timer { .. } | Stored::Counter { .. } | Stored::Bistable { .. }, _) => false,
    }
}

/// Whether what is known of an instance goes on alike, the second one `shift` ms later.
fn later_partly(preset: u32, moment: u64, shift: u64, before: Partly, after: Partly) -> bool
    ensures { IsTrue result ↔ PartlyAlike (StartAlike preset moment shift) before after }
{
    match (before, after) {
        (Partly::Exactly(stored), Partly::Exactly(later)) => later_stored(
            preset, moment, shift, stored, later,
        ),
        (
            Partly::Exactly(_)
            | Partly::SomeTimer(_)
            | Partly::SomeCounter(_)
            | Partly::SomeBistable(_)
            | Partly::Anything,
            _,
        ) => after == before,
    }
}

/// Whether what is known of all instances goes on alike, the second one `shift` ms later.
fn later_blocks(
    program: &Program,
    moment: u64,
    shift: u64,
    before: &Knowledge<Tri, Partly>,
    after: &Knowledge<Tri, Partly>,
) -> bool
    requires before { HasSizes program.now before.now }
    requires after { HasSizes program.now after.now }
    ensures { IsTrue result ↔ BothAt (λ inst. PartlyAlike (StartAlike ((diagram_of program.now).preset inst) moment shift)) before.now.blocks after.now.blocks }
{
    for inst in 0..program.decls().instances().len() {
        let (_kind, preset) = instance(program, inst);
        if !later_partly(preset, moment, shift, before.kept(inst), after.kept(inst)) {
            return false;
        }
    }
    true
}

/// Whether the same is known again, later by `shift`: values, memories, and of each instance, but that a timer that is known to run began
/// later by that time, or that both are older than `moment`, and that much later, and the preset has passed.
///
/// Scans with the same inputs, the first from `moment` on and the second that much later, leave such knowledge again
/// (`laws::goes_on_alike`).
pub(crate) fn is_later_known(
    program: &Program,
    moment: u64,
    shift: u64,
    before: &Knowledge<Tri, Partly>,
    after: &Knowledge<Tri, Partly>,
) -> bool
    requires before { HasSizes program.now before.now }
    requires after { HasSizes program.now after.now }
    ensures { IsTrue result ↔ IsLaterKnown (diagram_of program.now) moment shift before.now after.now }
{
    same_values(program, before, after)
        && same_memories(program, before, after)
        && later_blocks(program, moment, shift, before, after)
}

/// Whether what is known after `done` scans is what was marked, come again but for the time between.
pub(crate) fn comes_again(
    program: &Program,
    watched: Watched,
    mark: &Knowledge<Tri, Partly>,
    marked: u64,
    known: &Knowledge<Tri, Partly>,
    done: u64,
) -> bool
    requires mark { HasSizes program.now mark.now }
    requires known { HasSizes program.now known.now }
    requires scans { are_no_scans watched.first watched.scans ≡ false }
    requires done { done ≤ watched.scans.count }
    requires marked { marked < done }
    ensures { result ≡ true → (0 < marked)
        × IsLaterKnown (diagram_of program.now) (moment_of watched.first watched.scans (marked - 1)) (watched.scans.every * (done - marked)) mark.now known.now }
{
    if marked == 0 {
        return false;
    }
    let moment = watched.first + watched.scans.every * (marked - 1);
    is_later_known(
        program,
        moment,
        watched.scans.every * (done - marked),
        mark,
        known,
    )
}

/// Marks what is known after each number of scans that is a power of two, which finds a circle of any length. Returns the number
/// of scans of the mark.
pub(crate) fn renewed(
    mark: &mut Knowledge<Tri, Partly>,
    marked: u64,
    known: &Knowledge<Tri, Partly>,
    done: u64,
) -> u64
    requires long { AreAsLong mark.old known.now }
    requires some { 0 < done }
    ensures { ((result ≡ marked) × (mark.new ≡ mark.old)) ⊎ ((result ≡ done) × (mark.new ≡ known.now)) }
{
    if done & (done - 1) != 0 {
        return marked;
    }
    mark.copy_from(known);
    done
}
