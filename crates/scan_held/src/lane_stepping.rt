//! Steps and choices lane by lane.

ghost use Rattle.std.specs.Prelude.{◌≡◌, ◌≤◌, ◌<◌, ℕ, slice_index_or};
ghost use Rattle.diagram_declarations.specs.Kind.{largest_preset};
ghost use Rattle.diagram_declarations.specs.declared.kind.BlockKind.TheVariants.{Ton};
ghost use Rattle.scan_signals.specs.declared.block.Stored.{Stored};
ghost use Rattle.scan_signals.specs.Blocks.{new_block, step};
ghost use Rattle.scan_held.specs.declared.lanes.TheConstants.{LANES};
ghost use Rattle.scan_held.specs.Lanes.{all_on, any_on, apart, bit, chosen, stored_in, stepped, two};

use crate::lanes::{LANES, Lanes};
use diagram_declarations::BlockKind;
use scan_signals::{Operations, Stored, Word64, block};

/// The truth value of a lane in a word.
pub(crate) fn bit(word: Word64, lane: usize) -> bool
    requires { lane < LANES }
    ensures { result ≡ bit word lane }
{
    (word.0 >> lane) & 1 == 1
}

/// What the instance of a lane stores.
fn stored_in(lanes: &Lanes, lane: usize) -> Stored
    requires { lane < LANES }
    ensures { result ≡ stored_in lanes.now lane }
{
    match lanes {
        Lanes::Alike(stored) => *stored,
        Lanes::Two { word, on, off, .. } => if bit(*word, lane) { *on } else { *off },
        Lanes::Apart { stored, .. } => stored[lane],
    }
}

/// What the lanes store, where they may all differ.
pub(crate) fn apart(stored: &[Stored; LANES]) -> Lanes
    ensures { (f : ℕ → Stored) → ((i : ℕ) → i < LANES → slice_index_or stored.now i (new_block Ton) ≡ f i) → result ≡ apart f }
{
    let mut q = 0u64;
    for lane in 0..LANES {
        if stored[lane].q() {
            q |= 1 << lane;
        }
    }
    Lanes::Apart {
        q: Word64(q),
        stored: *stored,
    }
}

/// The stored block of each lane.
fn spread(lanes: &Lanes) -> [Stored; LANES]
    ensures { (i : ℕ) → i < LANES → slice_index_or result i (new_block Ton) ≡ stored_in lanes.now i }
{
    match lanes {
        Lanes::Alike(stored) => [*stored; LANES],
        Lanes::Two { word, on, off, .. } => choices(*word, &Lanes::Alike(*on), &Lanes::Alike(*off)),
        Lanes::Apart { stored, .. } => *stored,
    }
}

/// The step of an instance, lane by lane.
pub(crate) fn step_each(
    kind: BlockKind,
    preset: u32,
    before: &Lanes,
    first: Word64,
    second: Word64,
    now: u64,
) -> Lanes
    requires { preset ≤ largest_preset kind }
    ensures { result ≡ apart (stepped kind preset before.now first second now) }
{
    let mut stored = spread(before);
    let mut q = 0u64;
    for lane in 0..LANES {
        let (on, other) = (bit(first, lane), bit(second, lane));
        let after = block::step(kind, preset, stored[lane], on, other, now);
        stored[lane] = after;
        if after.q() {
            q |= 1 << lane;
        }
    }
    Lanes::Apart {
        q: Word64(q),
        stored,
    }
}

/// What lanes store if each stores one of two: the ones that are ON in a word, and the others.
#[derive(Clone, Copy)]
pub(crate) struct TwoStored {
    pub word: Word64,
    pub on: Stored,
    pub off: Stored,
}

/// The step of two blocks: that of the lanes that are ON in a word, and that of the others.
pub(crate) fn step_two(
    kind: BlockKind,
    preset: u32,
    before: TwoStored,
    first: Word64,
    second: Word64,
    now: u64,
) -> Lanes
    requires { preset ≤ largest_preset kind }
    ensures { result ≡ two before.word (step kind preset before.on (any_on first) (any_on second) now) (step kind preset before.off (all_on first) (all_on second) now) }
{
    let TwoStored { word, on, off } = before;
    let on = block::step(kind, preset, on, first.0 != 0, second.0 != 0, now);
    let (first_is_whole, second_is_whole) = (first.0 == u64::MAX, second.0 == u64::MAX);
    let off = block::step(kind, preset, off, first_is_whole, second_is_whole, now);
    let q = Word64::choose(word, Word64::known(on.q()), Word64::known(off.q()));
    Lanes::Two { q, word, on, off }
}

/// What each lane stores after a choice between two, by its bit of the condition.
pub(crate) fn choices(condition: Word64, on: &Lanes, off: &Lanes) -> [Stored; LANES]
    ensures { (i : ℕ) → i < LANES → slice_index_or result i (new_block Ton) ≡ chosen condition on.now off.now i }
{
    let mut stored = [Stored::new(BlockKind::Ton); LANES];
    for lane in 0..LANES {
        stored[lane] = if bit(condition, lane) {
            stored_in(on, lane)
        } else {
            stored_in(off, lane)
        };
    }
    stored
}
