//! When the scans are, and the first of them after which a variable is ON.

ghost use Rattle.std.specs.Prelude.{◌≡◌, ◌<◌, ◌≤◌, ◌-◌, ◌*◌, ◌⊎◌, false, length, true};
ghost use Rattle.scan_held.specs.Later.{IsLaterState};
ghost use Rattle.scan_cycle.specs.Programs.{diagram_of};
ghost use Rattle.scan_cycle.specs.Standing.{Fits};
ghost use Rattle.scan_held.specs.Holding.{are_no_scans, first_on, moment_of};

use crate::later::is_later;
use crate::laws::repeats;
use diagram_program::Program;
use scan_cycle::{State, scan};

/// How many scans a list has at most.
pub const SCANS_LIMIT: u64 = 1_000_000;

/// How many scans there are, and the time from each to the next, in milliseconds.
#[derive(Clone, Copy, Debug, PartialEq, Eq)]
pub struct Scans {
    pub count: u64,
    pub every: u64,
}

/// What is asked of some scans: of which variable, at which moment the first of them is, in milliseconds, and when the others are.
#[derive(Clone, Copy, Debug, PartialEq, Eq)]
pub struct Watched {
    pub coil: usize,
    pub first: u64,
    pub scans: Scans,
}

/// A row: a number, and the first scan, counted from 1, after which the coil's variable is ON.
#[derive(Clone, Copy, Debug, PartialEq, Eq)]
pub struct HeldCause {
    pub number: u64,
    pub scan: u64,
}

/// Whether there are no such scans, the first at this moment: none, too many, or one whose moment is none.
pub fn are_no_scans(first: u64, scans: Scans) -> bool
    ensures { result ≡ are_no_scans first scans }
{
    if scans.count < 1 || scans.count > SCANS_LIMIT {
        return true;
    }
    match scans.every.checked_mul(scans.count - 1) {
        Some(later) => first.checked_add(later).is_none(),
        None => true,
    }
}

/// Whether the state after a number of scans is the marked one come again, but for the time between.
fn comes_again(
    program: &Program,
    first: u64,
    scans: Scans,
    mark: &State,
    marked: u64,
    state: &State,
    done: u64,
) -> bool
    requires mark { Fits program.now mark.now }
    requires state { Fits program.now state.now }
    requires scans { are_no_scans first scans ≡ false }
    requires done { done ≤ scans.count }
    requires marked { marked < done }
    ensures { result ≡ true → (0 < marked)
        × IsLaterState (diagram_of program.now) (moment_of first scans (marked - 1)) (scans.every * (done - marked)) mark.now.held state.now.held }
{
    if marked == 0 {
        return false;
    }
    let moment = first + scans.every * (marked - 1);
    is_later(program, moment, scans.every * (done - marked), mark, state)
}

/// Marks the state after each number of scans that is a power of two, which finds a circle of states of any length. Returns the
/// number of scans of the mark.
fn renewed(program: &Program, mark: &mut State, marked: u64, state: &State, done: u64) -> u64
    requires mark { Fits program.now mark.old }
    requires state { Fits program.now state.now }
    requires some { 0 < done }
    ensures { ((result ≡ marked) × (mark.new ≡ mark.old)) ⊎ ((result ≡ done) × (mark.new ≡ state.now)) }
{
    if done & (done - 1) != 0 {
        return marked;
    }
    mark.checked();
    state.checked();
    mark.copy_from(state);
    done
}

/// The first of some scans after which a variable is ON, counted from 1, each with these inputs. The state is the one that the last of them
/// left, and `mark` is written over. It needs no memory.
pub fn first_on(
    program: &Program,
    state: &mut State,
    mark: &mut State,
    inputs: &[bool],
    first: u64,
    scans: Scans,
    coil: usize,
) -> Option<u64>
    requires fits { Fits program.now state.old }
    requires mark { Fits program.now mark.old }
    requires coil { coil < length program.now.decls.vars }
    requires later { state.old.moment ≤ first }
    requires scans { are_no_scans first scans ≡ false }
    ensures first { result ≡ first_on (diagram_of program.now) (moment_of first scans) inputs.now state.old.held coil scans.count }
    ensures fits { Fits program.now state.new }
    ensures mark { Fits program.now mark.new }
{
    repeats(program);
    let mut marked = 0;
    for done in 0..scans.count {
        let Ok(()) = scan(program, state, inputs, first + scans.every * done) else {
            return None;
        };
        if state.value(coil) {
            return Some(done + 1);
        }
        if comes_again(program, first, scans, mark, marked, state, done + 1) {
            return None;
        }
        marked = renewed(program, mark, marked, state, done + 1);
    }
    None
}
