//! The step of an instance that is known in part.

ghost use Rattle.std.specs.Prelude.{◌≡◌, ◌≤◌, ℕ, Bool};
ghost use Rattle.diagram_declarations.specs.Kind.{largest_preset};
ghost use Rattle.scan_held.specs.Partly.{by_input, merged, sort_of, step_known};
ghost use Rattle.scan_held.specs.declared.partly.Partly.TheVariants as sort;

use crate::partly::Partly;
use diagram_declarations::BlockKind::{self, Ctd, Ctu, Rs, Sr, Tof, Ton, Tp};
use scan_signals::{Operations, Stored, Tri, block};

/// What is still known of an instance, if only its sort (timer, counter, bistable) and its Q are kept.
fn sort_of(known: Partly) -> Partly
    ensures { result ≡ sort_of known }
{
    match known {
        Partly::Exactly(Stored::Timer { q, .. }) => Partly::SomeTimer(Tri::known(q)),
        Partly::Exactly(Stored::Counter { q, .. }) => Partly::SomeCounter(Tri::known(q)),
        Partly::Exactly(Stored::Bistable { q }) => Partly::SomeBistable(Tri::known(q)),
        Partly::SomeTimer(_)
        | Partly::SomeCounter(_)
        | Partly::SomeBistable(_)
        | Partly::Anything => known,
    }
}

/// What is known of an instance that stores one of two, and which one is open: what both store, or else their sort and what their
/// Qs agree on; nothing where the sorts differ.
pub(crate) fn merged(one: Partly, other: Partly) -> Partly
    ensures { result ≡ merged one other }
{
    if let (Partly::Exactly(stored), Partly::Exactly(other_stored)) = (one, other)
        && stored == other_stored
    {
        return one;
    }
    match (sort_of(one), sort_of(other)) {
        (Partly::SomeTimer(q), Partly::SomeTimer(r)) => Partly::SomeTimer(Tri::choose(
            Tri::Unsure,
            q,
            r,
        )),
        (Partly::SomeCounter(q), Partly::SomeCounter(r)) => Partly::SomeCounter(Tri::choose(
            Tri::Unsure,
            q,
            r,
        )),
        (Partly::SomeBistable(q), Partly::SomeBistable(r)) => Partly::SomeBistable(Tri::choose(
            Tri::Unsure,
            q,
            r,
        )),
        (
            Partly::SomeTimer(_)
            | Partly::SomeCounter(_)
            | Partly::SomeBistable(_)
            | Partly::Exactly(_)
            | Partly::Anything,
            _,
        ) => Partly::Anything,
    }
}

/// What is known after the step of a timer of which only the Q was known.
#[tactic(auto, unfolding(crate::specs::Partly::step_known))]
fn timer(kind: BlockKind, q: Tri, first: bool) -> Partly
    ensures { (preset now : ℕ) (second : Bool) → result ≡ step_known kind preset (sort.SomeTimer q) first second now }
{
    match kind {
        Ton if !first => Partly::Exactly(Stored::Timer {
            last: false,
            running: false,
            start: 0,
            q: false,
        }),
        Tof if first => Partly::Exactly(Stored::Timer {
            last: true,
            running: false,
            start: 0,
            q: true,
        }),
        Ton | Tof | Tp => Partly::SomeTimer(Tri::Unsure),
        Ctu | Ctd | Sr | Rs => Partly::SomeTimer(q),
    }
}

/// What is known after the step of a counter of which only the Q was known.
#[tactic(auto, unfolding(crate::specs::Partly::step_known))]
fn counter(kind: BlockKind, preset: u32, q: Tri, first: bool, second: bool) -> Partly
    requires { preset ≤ largest_preset kind }
    ensures { (now : ℕ) → result ≡ step_known kind preset (sort.SomeCounter q) first second now }
{
    match kind {
        Ctu if second => Partly::Exactly(Stored::Counter {
            last: first,
            cv: 0,
            q: preset == 0,
        }),
        Ctd if second => Partly::Exactly(Stored::Counter {
            last: first,
            cv: preset as i16,
            q: preset == 0,
        }),
        Ctu | Ctd => Partly::SomeCounter(Tri::Unsure),
        Ton | Tof | Tp | Sr | Rs => Partly::SomeCounter(q),
    }
}

/// What is known after the step of a bistable whose Q may be open.
#[tactic(auto, unfolding(crate::specs::Partly::step_known))]
fn bistable(kind: BlockKind, q: Tri, first: bool, second: bool) -> Partly
    ensures { (preset now : ℕ) → result ≡ step_known kind preset (sort.SomeBistable q) first second now }
{
    let set = Tri::known(first);
    let stays = Tri::known(!second);
    match kind {
        Sr => Partly::SomeBistable(set.or(stays.and(q))),
        Rs => Partly::SomeBistable(stays.and(set.or(q))),
        Ton | Tof | Tp | Ctu | Ctd => Partly::SomeBistable(q),
    }
}

/// What is known of an instance after a step whose inputs are both known.
#[tactic(auto, unfolding(crate::specs::Partly::step_known))]
fn step_known(
    kind: BlockKind,
    preset: u32,
    known: Partly,
    first: bool,
    second: bool,
    now: u64,
) -> Partly
    requires { preset ≤ largest_preset kind }
    ensures { result ≡ step_known kind preset known first second now }
{
    match known {
        Partly::Exactly(stored) => Partly::Exactly(block::step(
            kind, preset, stored, first, second, now,
        )),
        Partly::SomeTimer(q) => timer(kind, q, first),
        Partly::SomeCounter(q) => counter(kind, preset, q, first, second),
        Partly::SomeBistable(q) => bistable(kind, q, first, second),
        Partly::Anything => Partly::Anything,
    }
}

/// What is known of an instance after a step whose first input is known: if the second one is open, what the steps with either
/// value have in common.
pub(crate) fn step_first(
    kind: BlockKind,
    preset: u32,
    known: Partly,
    first: bool,
    second: Tri,
    now: u64,
) -> Partly
    requires { preset ≤ largest_preset kind }
    ensures { result ≡ by_input second (λ y. step_known kind preset known first y now) }
{
    match second {
        Tri::On => step_known(kind, preset, known, first, true, now),
        Tri::Off => step_known(kind, preset, known, first, false, now),
        Tri::Unsure => {
            let on = step_known(kind, preset, known, first, true, now);
            let off = step_known(kind, preset, known, first, false, now);
            merged(on, off)
        }
    }
}
