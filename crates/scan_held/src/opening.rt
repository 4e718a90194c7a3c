//! The first of several scans after which a variable isn't known to be OFF.

ghost use Rattle.std.specs.Prelude.{◌≡◌, false, option_map, IfSome};
ghost use Rattle.scan_cycle.specs.Programs.{diagram_of};
ghost use Rattle.scan_cycle.specs.Standing.{Fits};
ghost use Rattle.scan_partial.specs.Sizes.{HasSizes, IsSpareFor};
ghost use Rattle.scan_held.specs.Holding.{are_no_scans, moment_of};
ghost use Rattle.scan_held.specs.SeveralLaws.{first_open, known_after};

use crate::again::{comes_again, renewed};
use crate::beginning::begin;
use crate::partly::Partly;
use crate::partly_laws::repeats;
use crate::scans::Watched;
use diagram_program::Program;
use scan_cycle::State;
use scan_partial::{Knowledge, Room, scan_known};
use scan_signals::Tri;

/// A scan, counted from 1, after which a variable isn't known to be OFF, and what is known of it then: ON or open.
#[derive(Clone, Copy, Debug, PartialEq, Eq)]
pub struct Opening {
    pub scan: u64,
    pub value: Tri,
}

/// Makes scans over three values, from the state on, each with these inputs, and ends with the first after which the variable isn't
/// known to be OFF, or where what is known has come again up to the passage of time. `known` and `mark` are written over.
///
/// Where there is none, no scan switches the variable on for any completion of the inputs; where it is known to be ON, this is the first
/// scan that does for each completion (`laws::several`).
pub fn first_open(
    program: &Program,
    state: &State,
    inputs: &[Tri],
    watched: Watched,
    known: &mut Knowledge<Tri, Partly>,
    mark: &mut Knowledge<Tri, Partly>,
    room: &mut Room<Tri>,
) -> Option<Opening>
    requires state { Fits program.now state.now }
    requires scans { are_no_scans watched.first watched.scans ≡ false }
    requires known { HasSizes program.now known.old }
    requires mark { HasSizes program.now mark.old }
    requires room { IsSpareFor program.now room.old }
    ensures scan { option_map (λ o. o.scan) result
        ≡ first_open (diagram_of program.now) (moment_of watched.first watched.scans) inputs.now state.now.held watched.coil watched.scans.count }
    ensures value { IfSome result (λ o. o.value ≡ known_after (diagram_of program.now) (moment_of watched.first watched.scans) inputs.now state.now.held watched.coil o.scan) }
    ensures sizes { HasSizes program.now known.new }
    ensures mark { HasSizes program.now mark.new }
    ensures room { room.new ≡ room.old }
{
    repeats();
    begin(program, state, known);
    let mut marked = 0;
    for done in 0..watched.scans.count {
        let moment = watched.first + watched.scans.every * done;
        scan_known(program, known, inputs, moment, room);
        let value = known.value(watched.coil);
        match value {
            Tri::Off => {}
            Tri::On | Tri::Unsure => {
                return Some(Opening {
                    scan: done + 1,
                    value,
                });
            }
        }
        if comes_again(program, watched, mark, marked, known, done + 1) {
            return None;
        }
        marked = renewed(mark, marked, known, done + 1);
    }
    None
}
