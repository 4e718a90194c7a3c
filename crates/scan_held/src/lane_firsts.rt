//! The first of several scans after which a variable is ON, for each of 64 lanes.

ghost use Rattle.std.specs.Prelude.{◌≡◌, ◌<◌, ℕ, Bool, List, All, None, false, length, slice_index_or};
ghost use Rattle.scan_signals.specs.Relations.{AllowsAt, Both};
ghost use Rattle.scan_partial.specs.Sizes.{HasSizes, IsSpareFor};
ghost use Rattle.scan_held.specs.Holding.{are_no_scans, first_on, moment_of};
ghost use Rattle.scan_held.specs.declared.lanes.TheConstants.{LANES};
ghost use Rattle.scan_held.specs.SeveralLanes.{first_in_lane};
ghost use Rattle.scan_cycle.specs.Programs.{diagram_of};
ghost use Rattle.scan_cycle.specs.Standing.{Fits};
ghost use Rattle.scan_signals.specs.Words.{IsBit, IsWord, word_allows};

use crate::beginning::begin;
use crate::lane_laws::go_alone;
use crate::lane_noting::{clear, have_all, note};
use crate::lanes::Lanes;
use crate::scans::Watched;
use diagram_program::Program;
use scan_cycle::State;
use scan_partial::{Knowledge, Room, scan_known};
use scan_signals::{Operations, Word64};

/// Does nothing: its contract is what holds of any words.
fn are_words(inputs: &[Word64])
    ensures { All IsWord inputs.now }
{
    for input in inputs {
        let _is_word = input.is_value();
    }
}

/// Makes scans over words, and notes for each lane the first after which the variable is ON in it; it ends where each lane has one.
fn scan_lanes(
    program: &Program,
    state: &State,
    inputs: &[Word64],
    watched: Watched,
    known: &mut Knowledge<Word64, Lanes>,
    room: &mut Room<Word64>,
    firsts: &mut [Option<u64>],
)
    requires state { Fits program.now state.now }
    requires scans { are_no_scans watched.first watched.scans ≡ false }
    requires known { HasSizes program.now known.old }
    requires room { IsSpareFor program.now room.old }
    requires inputs { All IsWord inputs.now }
    requires firsts { length firsts.old ≡ LANES }
    ensures firsts { (lane : ℕ) → lane < LANES → slice_index_or firsts.new lane None
        ≡ first_in_lane (diagram_of program.now) (moment_of watched.first watched.scans) inputs.now state.now.held watched.coil lane watched.scans.count }
    ensures sizes { HasSizes program.now known.new }
    ensures room { room.new ≡ room.old }
{
    begin(program, state, known);
    clear(firsts);
    for done in 0..watched.scans.count {
        let moment = watched.first + watched.scans.every * done;
        scan_known(program, known, inputs, moment, room);
        let value = known.value(watched.coil);
        note(value, done + 1, firsts);
        if have_all(firsts) {
            return;
        }
    }
}

/// For each lane the first of some scans, counted from 1, after which the variable is ON: that of the scans from the state on whose inputs
/// are the lane's. None where there is none. `known` is written over, and it needs no memory.
///
/// It ends where each lane has its scan, so that it takes no longer than the latest of them.
pub fn first_in_lanes(
    program: &Program,
    state: &State,
    inputs: &[Word64],
    watched: Watched,
    known: &mut Knowledge<Word64, Lanes>,
    room: &mut Room<Word64>,
    firsts: &mut [Option<u64>],
)
    requires state { Fits program.now state.now }
    requires scans { are_no_scans watched.first watched.scans ≡ false }
    requires known { HasSizes program.now known.old }
    requires room { IsSpareFor program.now room.old }
    requires firsts { length firsts.old ≡ LANES }
    ensures firsts { (lane : ℕ) → lane < LANES → (vs : List Bool) → Both (AllowsAt IsWord IsBit word_allows lane) inputs.now vs
        → slice_index_or firsts.new lane None
        ≡ first_on (diagram_of program.now) (moment_of watched.first watched.scans) vs state.now.held watched.coil watched.scans.count }
    ensures count { length firsts.new ≡ LANES }
    ensures sizes { HasSizes program.now known.new }
    ensures room { room.new ≡ room.old }
{
    go_alone(program);
    are_words(inputs);
    scan_lanes(program, state, inputs, watched, known, room, firsts);
}
