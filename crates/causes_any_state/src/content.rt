//! What an instance can store so that it has a Q, and an answer in its next step.

ghost use Rattle.std.specs.Prelude.{◌≤◌};
ghost use Rattle.diagram_declarations.specs.declared.kind.BlockKind.TheVariants as kind;
ghost use Rattle.causes_any_state.specs.declared.content.TheConstants.{MOMENT};
ghost use Rattle.scan_cycle.specs.Standing.{CanStore};

use diagram_declarations::BlockKind;
use invariant_cases::Answer;
use scan_signals::Stored;

/// The moment of the states that are tried, and of their scan, at which each preset may have passed: some 50 days.
pub(crate) const MOMENT: u64 = 4_294_967_296;

/// What a timer stores that runs since the first moment, or has just begun to.
fn running(last: bool, start: u64, q: bool) -> Stored
    requires { start ≤ MOMENT }
    ensures { CanStore kind.Ton MOMENT result }
{
    Stored::Timer {
        last,
        running: true,
        start,
        q,
    }
}

/// What a timer stores that doesn't run.
fn resting(last: bool, q: bool) -> Stored
    ensures { CanStore kind.Ton MOMENT result }
{
    Stored::Timer {
        last,
        running: false,
        start: 0,
        q,
    }
}

/// The counted value of a CTU that answers what its first input is.
fn one_below(preset: u32) -> i16 {
    match i16::try_from(preset) {
        Ok(preset) => preset.saturating_sub(1),
        Err(_) => i16::MAX,
    }
}

/// A counter that answers so, by the value that it has for each answer.
fn counter(answer: Answer, on: i16, off: i16, input: i16, q: bool) -> Stored
    ensures { CanStore kind.Ctu MOMENT result }
{
    let (last, cv) = match answer {
        Answer::On => (true, on),
        Answer::Off => (true, off),
        Answer::Input | Answer::Open => (false, input),
    };
    Stored::Counter { last, cv, q }
}

/// What an instance stores that has this Q and answers so in a step at `MOMENT`.
pub(crate) fn content(kind: BlockKind, preset: u32, answer: Answer, q: bool) -> Stored
    ensures { CanStore kind MOMENT result }
{
    match kind {
        BlockKind::Ton => match answer {
            Answer::On => running(true, 0, q),
            Answer::Off | Answer::Input | Answer::Open => resting(false, q),
        },
        BlockKind::Tof => resting(answer == Answer::On, q),
        BlockKind::Tp => match answer {
            Answer::On => running(false, MOMENT, q),
            Answer::Off => resting(true, q),
            Answer::Input | Answer::Open => resting(false, q),
        },
        BlockKind::Ctu => counter(answer, i16::MAX, i16::MIN, one_below(preset), q),
        BlockKind::Ctd => counter(answer, i16::MIN, i16::MAX, 1, q),
        BlockKind::Sr | BlockKind::Rs => Stored::Bistable { q },
    }
}
