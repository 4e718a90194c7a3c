//! The steps of the standard function blocks.

ghost use Rattle.std.specs.Prelude.{◌≡◌, ◌≤◌, ℕ, Bool, true, is_some};
ghost use Rattle.diagram_declarations.specs.declared.kind.BlockKind.TheVariants as kind;
ghost use Rattle.diagram_declarations.specs.Kind.{largest_preset, traits_of};
ghost use Rattle.diagram_declarations.specs.declared.limits.TheConstants.{LARGEST_COUNT};
ghost use Rattle.scan_signals.specs.declared.block.Stored.TheVariants.{Timer, Counter, Bistable};
ghost use Rattle.scan_signals.specs.Blocks.{elapsed, step, q_of, new_block};

use diagram_declarations::BlockKind::{self, Ctd, Ctu, Rs, Sr, Tof, Ton, Tp};

/// What an instance stores from step to step.
#[derive(Clone, Copy, Debug, PartialEq, Eq)]
pub enum Stored {
    /// A timer: the last IN, whether it runs, the moment at which it began to (0 where it does not run), and Q.
    Timer {
        last: bool,
        running: bool,
        start: u64,
        q: bool,
    },
    /// A counter: the last count input, the counted value, and Q.
    Counter {
        last: bool,
        cv: i16,
        q: bool,
    },
    /// A bistable: Q1.
    Bistable {
        q: bool,
    },
}

impl Stored {
    /// What an instance of the kind stores before its first step.
    pub fn new(kind: BlockKind) -> Stored
        ensures { result ≡ new_block kind }
    {
        match kind {
            BlockKind::Ton | BlockKind::Tof | BlockKind::Tp => Stored::Timer {
                last: false,
                running: false,
                start: 0,
                q: false,
            },
            BlockKind::Ctu | BlockKind::Ctd => Stored::Counter {
                last: false,
                cv: 0,
                q: false,
            },
            BlockKind::Sr | BlockKind::Rs => Stored::Bistable { q: false },
        }
    }

    /// The output: Q, or Q1 of a bistable.
    pub fn q(self) -> bool
        ensures { result ≡ q_of self }
    {
        match self {
            Stored::Timer { q, .. } | Stored::Counter { q, .. } | Stored::Bistable { q } => q,
        }
    }

    /// The elapsed time of a timer at a moment (ET): how long it has run, at most its preset; 0 where it doesn't run.
    pub fn elapsed(self, preset: u32, now: u64) -> u64
        ensures { result ≡ elapsed preset now self }
    {
        match self {
            Stored::Timer {
                running: true,
                start,
                ..
            } => now.saturating_sub(start).min(preset as u64),
            Stored::Timer { running: false, .. }
            | Stored::Counter { .. }
            | Stored::Bistable { .. } => 0,
        }
    }
}

/// One step of an on-delay: Q is ON once the input has been ON for the preset, in ms.
#[tactic(auto, unfolding(crate::specs::Blocks::step))]
fn ton(preset: u32, running: bool, start: u64, on: bool, now: u64) -> Stored
    ensures { (last q second : Bool) → result ≡ step kind.Ton preset (Timer last running start q) on second now }
{
    if on {
        let start = if running { start } else { now };
        Stored::Timer {
            last: true,
            running: true,
            start,
            q: u64::from(preset) <= now.saturating_sub(start),
        }
    } else {
        Stored::Timer {
            last: false,
            running: false,
            start: 0,
            q: false,
        }
    }
}

/// One step of an off-delay: Q stays ON for the preset, in ms, after the input has become OFF.
#[tactic(auto, unfolding(crate::specs::Blocks::step))]
fn tof(preset: u32, last: bool, running: bool, start: u64, on: bool, now: u64) -> Stored
    ensures { (q second : Bool) → result ≡ step kind.Tof preset (Timer last running start q) on second now }
{
    if on {
        return Stored::Timer {
            last: true,
            running: false,
            start: 0,
            q: true,
        };
    }
    let start = if last { now } else { start };
    let runs = (last | running) & (now.saturating_sub(start) < u64::from(preset));
    Stored::Timer {
        last: false,
        running: runs,
        start: if runs { start } else { 0 },
        q: runs,
    }
}

/// One step of a pulse: a rising edge of the input turns Q ON for the preset, in ms, and no edge starts it anew meanwhile.
#[tactic(auto, unfolding(crate::specs::Blocks::step))]
fn tp(preset: u32, last: bool, running: bool, start: u64, on: bool, now: u64) -> Stored
    ensures { (q second : Bool) → result ≡ step kind.Tp preset (Timer last running start q) on second now }
{
    let stays = running & (now.saturating_sub(start) < u64::from(preset));
    let begins = on & !last & (0 < preset);
    if stays {
        pulse(on, start)
    } else if begins {
        pulse(on, now)
    } else {
        Stored::Timer {
            last: on,
            running: false,
            start: 0,
            q: false,
        }
    }
}

/// What a pulse stores that runs since `start`: its output is ON.
fn pulse(on: bool, start: u64) -> Stored
    ensures { result ≡ Timer on true start true }
{
    Stored::Timer {
        last: on,
        running: true,
        start,
        q: true,
    }
}

/// One step of an up-counter: it counts rising edges up to the largest 16-bit value, and Q is ON from the preset on.
#[tactic(auto, unfolding(crate::specs::Blocks::step))]
fn ctu(preset: u32, last: bool, cv: i16, on: bool, reset: bool) -> Stored
    ensures { (q : Bool) (now : ℕ) → result ≡ step kind.Ctu preset (Counter last cv q) on reset now }
{
    let cv = if reset {
        0
    } else if on && !last && cv < i16::MAX {
        cv + 1
    } else {
        cv
    };
    Stored::Counter {
        last: on,
        cv,
        q: i64::from(preset) <= i64::from(cv),
    }
}

/// One step of a down-counter: it counts rising edges down from the preset, which `load` gives it, and Q is ON from 0 down.
#[tactic(auto, unfolding(crate::specs::Blocks::step))]
fn ctd(preset: u32, last: bool, cv: i16, on: bool, load: bool) -> Stored
    requires { preset ≤ LARGEST_COUNT }
    ensures { (q : Bool) (now : ℕ) → result ≡ step kind.Ctd preset (Counter last cv q) on load now }
{
    let cv = if load {
        preset as i16
    } else if on && !last && cv > i16::MIN {
        cv - 1
    } else {
        cv
    };
    Stored::Counter {
        last: on,
        cv,
        q: cv <= 0,
    }
}

/// One step of a bistable whose set input is the stronger one.
#[tactic(auto, unfolding(crate::specs::Blocks::step))]
fn sr(q: bool, set: bool, reset: bool) -> Stored
    ensures { (preset now : ℕ) → result ≡ step kind.Sr preset (Bistable q) set reset now }
{
    Stored::Bistable {
        q: set | (!reset & q),
    }
}

/// One step of a bistable whose reset input is the stronger one.
#[tactic(auto, unfolding(crate::specs::Blocks::step))]
fn rs(q: bool, set: bool, reset: bool) -> Stored
    ensures { (preset now : ℕ) → result ≡ step kind.Rs preset (Bistable q) set reset now }
{
    Stored::Bistable {
        q: !reset & (set | q),
    }
}

/// Whether a block of the kind has a second input.
pub fn has_second(kind: BlockKind) -> bool
    ensures { result ≡ is_some (traits_of kind).second_input }
{
    kind.traits().second_input.is_some()
}

/// The step of a block. The first input is IN, CU, CD, S1 or S, the second R, LD or R1.
#[tactic(auto, unfolding(crate::specs::Blocks::step))]
pub fn step(
    kind: BlockKind,
    preset: u32,
    stored: Stored,
    first: bool,
    second: bool,
    now: u64,
) -> Stored
    requires { preset ≤ largest_preset kind }
    ensures { result ≡ step kind preset stored first second now }
{
    match stored {
        Stored::Timer {
            last,
            running,
            start,
            ..
        } => {
            match kind {
                Ton => ton(preset, running, start, first, now),
                Tof => tof(preset, last, running, start, first, now),
                Tp => tp(preset, last, running, start, first, now),
                Ctu | Ctd | Sr | Rs => stored,
            }
        }
        Stored::Counter { last, cv, .. } => {
            match kind {
                Ctu => ctu(preset, last, cv, first, second),
                Ctd => ctd(preset, last, cv, first, second),
                Ton | Tof | Tp | Sr | Rs => stored,
            }
        }
        Stored::Bistable { q } => {
            match kind {
                Sr => sr(q, first, second),
                Rs => rs(q, first, second),
                Ton | Tof | Tp | Ctu | Ctd => stored,
            }
        }
    }
}
