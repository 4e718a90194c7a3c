//! The step of an instance without a moment.

ghost use Rattle.std.specs.Prelude.{◌≡◌, ◌≤◌, ℕ};
ghost use Rattle.diagram_declarations.specs.Kind.{largest_preset};
ghost use Rattle.reach_states.specs.Untimed.{agreed, by_input, capped, merged, q_untimed, step_known, untimed_of};
ghost use Rattle.reach_states.specs.declared.untimed.Untimed.TheVariants as kept;

use crate::untimed::Untimed;
use diagram_declarations::BlockKind::{self, Ctd, Ctu, Rs, Sr, Tof, Ton, Tp};
use scan_signals::{Operations, Stored, Tri, block};

/// What is known of the Q.
pub(crate) fn q_of(kept: Untimed) -> Tri
    ensures { result ≡ q_untimed kept }
{
    match kept {
        Untimed::Timer { q, .. } | Untimed::Counter { q, .. } => Tri::known(q),
        Untimed::Output(q) => q,
        Untimed::Anything => Tri::Unsure,
    }
}

/// What the Qs of both agree on, of an instance of its kind.
fn agreed(one: Untimed, other: Untimed) -> Untimed
    ensures { result ≡ agreed one other }
{
    match (one, other) {
        (Untimed::Anything, _) | (_, Untimed::Anything) => Untimed::Anything,
        (
            Untimed::Timer { .. } | Untimed::Counter { .. } | Untimed::Output(_),
            Untimed::Timer { .. } | Untimed::Counter { .. } | Untimed::Output(_),
        ) => Untimed::Output(Tri::choose(Tri::Unsure, q_of(one), q_of(other))),
    }
}

/// What is known of an instance that is one of two, and which one is open.
pub(crate) fn merged(one: Untimed, other: Untimed) -> Untimed
    ensures { result ≡ merged one other }
{
    match (one, other) {
        (Untimed::Timer { .. }, Untimed::Timer { .. })
        | (Untimed::Counter { .. }, Untimed::Counter { .. })
            if one == other => { one }
        _ => agreed(one, other),
    }
}

/// CV as far as it matters.
fn capped(kind: BlockKind, preset: u32, cv: i16) -> i16
    requires { preset ≤ largest_preset kind }
    ensures { result ≡ capped kind preset cv }
{
    match kind {
        Ctu => cv.min(preset as i16),
        Ctd => cv.max(0),
        Ton | Tof | Tp | Sr | Rs => cv,
    }
}

/// What is kept of a stored block, for a scan at a moment, in milliseconds.
pub(crate) fn untimed_of(kind: BlockKind, preset: u32, now: u64, stored: Stored) -> Untimed
    requires { preset ≤ largest_preset kind }
    ensures { result ≡ untimed_of kind preset now stored }
{
    match stored {
        Stored::Timer {
            last,
            running,
            q,
            ..
        } => Untimed::Timer {
            last,
            running,
            elapsed: stored.elapsed(preset, now) as u32,
            q,
        },
        Stored::Counter { last, cv, q } => Untimed::Counter {
            last,
            cv: capped(kind, preset, cv),
            q,
        },
        Stored::Bistable { q } => Untimed::Output(Tri::known(q)),
    }
}

/// What is known after the step of an instance of which only the Q was known.
#[tactic(auto, unfolding(crate::specs::Untimed::step_known))]
fn step_output(kind: BlockKind, preset: u32, q: Tri, first: bool, second: bool) -> Untimed
    requires { preset ≤ largest_preset kind }
    ensures { result ≡ step_known kind preset (kept.Output q) first second }
{
    let set = Tri::known(first);
    let stays = Tri::known(!second);
    match kind {
        Ton if !first => Untimed::Timer {
            last: false,
            running: false,
            elapsed: 0,
            q: false,
        },
        Tof if first => Untimed::Timer {
            last: true,
            running: false,
            elapsed: 0,
            q: true,
        },
        Ctu if second => Untimed::Counter {
            last: first,
            cv: capped(kind, preset, 0),
            q: preset == 0,
        },
        Ctd if second => Untimed::Counter {
            last: first,
            cv: capped(kind, preset, preset as i16),
            q: preset == 0,
        },
        Sr => Untimed::Output(set.or(stays.and(q))),
        Rs => Untimed::Output(stays.and(set.or(q))),
        Ton | Tof | Tp | Ctu | Ctd => Untimed::Output(Tri::Unsure),
    }
}

/// What is known of an instance after a step whose inputs are both known.
#[tactic(auto, unfolding(crate::specs::Untimed::step_known))]
fn step_known(kind: BlockKind, preset: u32, known: Untimed, first: bool, second: bool) -> Untimed
    requires { preset ≤ largest_preset kind }
    ensures { result ≡ step_known kind preset known first second }
{
    let (stored, now) = match known {
        Untimed::Timer {
            last,
            running,
            elapsed,
            q,
        } => {
            let start = 0;
            let stored = Stored::Timer {
                last,
                running,
                start,
                q,
            };
            (stored, u64::from(elapsed))
        }
        Untimed::Counter { last, cv, q } => (Stored::Counter { last, cv, q }, 0),
        Untimed::Output(q) => return step_output(kind, preset, q, first, second),
        Untimed::Anything => return known,
    };
    let stepped = block::step(kind, preset, stored, first, second, now);
    untimed_of(kind, preset, now, stepped)
}

/// What is known of an instance after a step whose first input is known.
pub(crate) fn step_first(
    kind: BlockKind,
    preset: u32,
    known: Untimed,
    first: bool,
    second: Tri,
) -> Untimed
    requires { preset ≤ largest_preset kind }
    ensures { result ≡ by_input second (λ y. step_known kind preset known first y) }
{
    match second {
        Tri::On => step_known(kind, preset, known, first, true),
        Tri::Off => step_known(kind, preset, known, first, false),
        Tri::Unsure => {
            let on = step_known(kind, preset, known, first, true);
            let off = step_known(kind, preset, known, first, false);
            merged(on, off)
        }
    }
}
