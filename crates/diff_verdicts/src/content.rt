//! What an instance can store so that it has a Q and an answer in its next step, or so that of two presets one alone has passed.

ghost use Rattle.std.specs.Prelude.{◌≤◌};
ghost use Rattle.diagram_declarations.specs.declared.kind.BlockKind.TheVariants as kind;
ghost use Rattle.diff_meaning.specs.declared.verdict.TheConstants.{MOMENT};
ghost use Rattle.scan_cycle.specs.Standing.{CanStore};

use diagram_declarations::BlockKind;
use diff_meaning::MOMENT;
use invariant_cases::Answer;
use scan_signals::Stored;

/// How an instance is to stand to its preset.
#[derive(Clone, Copy)]
pub(crate) enum Form {
    /// It answers as it is to.
    Answering,
    /// A timer has just run for the preset, and a counter has counted so far.
    Reached,
    /// The same of a timer; a counter lacks one.
    NextTo,
}

/// What an instance is to be like.
#[derive(Clone, Copy)]
pub(crate) struct Mould {
    pub form: Form,
    pub preset: u32,
    pub answer: Answer,
    pub q: bool,
}

/// What a timer stores that has run for so long.
fn running(last: bool, time: u64, q: bool) -> Stored
    requires { time ≤ MOMENT }
    ensures { CanStore kind.Ton MOMENT result }
{
    Stored::Timer {
        last,
        running: true,
        start: MOMENT - time,
        q,
    }
}

/// What a timer stores that doesn't run.
fn resting(last: bool, q: bool) -> Stored
    ensures { CanStore kind.Ton MOMENT result }
{
    Stored::Timer {
        last,
        running: false,
        start: 0,
        q,
    }
}

/// The preset as a counted value.
fn counted(preset: u32) -> i16 {
    match i16::try_from(preset) {
        Ok(preset) => preset,
        Err(_) => i16::MAX,
    }
}

/// A counter that answers so, by the value that it has for each answer.
fn counter(answer: Answer, on: i16, off: i16, input: i16, q: bool) -> Stored
    ensures { CanStore kind.Ctu MOMENT result }
{
    let (last, cv) = match answer {
        Answer::On => (true, on),
        Answer::Off => (true, off),
        Answer::Input | Answer::Open => (false, input),
    };
    Stored::Counter { last, cv, q }
}

/// What an instance stores that answers as it is to.
fn answering(kind: BlockKind, mould: Mould) -> Stored
    ensures { CanStore kind MOMENT result }
{
    let Mould {
        preset,
        answer,
        q,
        ..
    } = mould;
    match kind {
        BlockKind::Ton => match answer {
            Answer::On => running(true, MOMENT, q),
            Answer::Off | Answer::Input | Answer::Open => resting(false, q),
        },
        BlockKind::Tof => resting(answer == Answer::On, q),
        BlockKind::Tp => match answer {
            Answer::On => running(false, 0, q),
            Answer::Off => resting(true, q),
            Answer::Input | Answer::Open => resting(false, q),
        },
        BlockKind::Ctu => {
            let input = counted(preset).saturating_sub(1);
            counter(answer, i16::MAX, i16::MIN, input, q)
        }
        BlockKind::Ctd => counter(answer, i16::MIN, i16::MAX, 1, q),
        BlockKind::Sr | BlockKind::Rs => Stored::Bistable { q },
    }
}

/// What an instance stores that has reached its preset, or lacks one count.
fn reaching(kind: BlockKind, preset: u32, lacks_one: bool, q: bool) -> Stored
    ensures { CanStore kind MOMENT result }
{
    match kind {
        BlockKind::Ton | BlockKind::Tp => running(true, u64::from(preset), q),
        BlockKind::Tof => running(false, u64::from(preset), q),
        BlockKind::Ctu | BlockKind::Ctd => {
            let cv = counted(preset);
            Stored::Counter {
                last: !lacks_one,
                cv: if lacks_one { cv.saturating_sub(1) } else { cv },
                q,
            }
        }
        BlockKind::Sr | BlockKind::Rs => Stored::Bistable { q },
    }
}

/// What an instance of a kind stores that is like this at `MOMENT`.
pub(crate) fn content(kind: BlockKind, mould: Mould) -> Stored
    ensures { CanStore kind MOMENT result }
{
    match mould.form {
        Form::Answering => answering(kind, mould),
        Form::Reached => reaching(kind, mould.preset, false, mould.q),
        Form::NextTo => reaching(kind, mould.preset, true, mould.q),
    }
}
