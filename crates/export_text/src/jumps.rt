//! The jumps that pass over rungs.

use diagram_program::Program;
use diagram_program::gates::Leap;
use io_table::Table;
use std::alloc::Global;

/// The jumps to rungs, in the order of the rungs that they are in. Each has a flag.
pub(crate) fn jumps_of(alloc: Global, program: &Program) -> Table<Leap> {
    let mut jumps = Table::new(alloc);
    for leap in program.leaps() {
        if leap.target < program.rungs() {
            jumps.push(*leap);
        }
    }
    jumps
}

/// Whether a jump passes over a rung.
pub(crate) fn is_over(jump: &Leap, rung: usize) -> bool {
    jump.rung < rung && rung < jump.target
}

/// Whether some jump passes over a rung.
pub(crate) fn are_over(jumps: &[Leap], rung: usize) -> bool {
    for jump in jumps {
        if is_over(jump, rung) {
            return true;
        }
    }
    false
}

/// Whether the same jumps pass over two rungs.
pub(crate) fn are_alike(jumps: &[Leap], first: usize, second: usize) -> bool {
    for jump in jumps {
        if is_over(jump, first) != is_over(jump, second) {
            return false;
        }
    }
    true
}

/// The number of the flag of a rung's jump: so many jumps are above it.
pub(crate) fn flag_of(jumps: &[Leap], rung: usize) -> usize {
    let mut flag: usize = 0;
    for jump in jumps {
        if jump.rung < rung {
            flag = flag.saturating_add(1);
        }
    }
    flag
}
