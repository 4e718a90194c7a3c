//! Jumps to a rung, and the rungs that they pass over.

ghost use Rattle.std.specs.Prelude.{◌≡◌, ◌<◌, IfSome, IsTrue, length, slice_get};
ghost use Rattle.std.specs.List.{All};
ghost use Rattle.diagram_program.specs.Program.{jump_of};
ghost use Rattle.export_check.specs.Jumps.{Counts, IsAlike, IsAside, IsNumbered, passes, passes_there};

use diagram_program::Program;
use std::alloc::{AllocError, Global};

/// A jump to a rung: the rung that has it, and the one that it goes to.
#[derive(Clone, Copy)]
pub(crate) struct Jump {
    pub rung: usize,
    pub target: usize,
}

/// The jumps of a program to a rung, from the first rung on.
pub(crate) fn jumps_of(alloc: Global, program: &Program) -> Result<Vec<Jump>, AllocError> {
    let mut jumps = Vec::new(alloc);
    for rung in 0..program.rungs() {
        match program.jump(rung) {
            Some((_, _, target)) if target != program.rungs() => jumps.push(Jump { rung, target })?,
            _ => {}
        }
    }
    Ok(jumps)
}

/// Whether a rung is between that of a jump and its target.
pub(crate) fn passes(jump: Jump, rung: usize) -> bool
    ensures { result ≡ passes rung jump }
{
    jump.rung < rung && rung < jump.target
}

/// Whether there is a jump with this number and it passes over a rung.
pub(crate) fn passes_there(jumps: &[Jump], number: usize, rung: usize) -> bool
    ensures { result ≡ passes_there rung (slice_get jumps.now number) }
{
    match jumps.get(number) {
        Some(jump) => passes(*jump, rung),
        None => false,
    }
}

/// Whether none of the jumps passes over a rung.
pub(crate) fn are_aside(jumps: &[Jump], rung: usize) -> bool
    ensures { IsTrue result → All (IsAside rung) jumps.now }
{
    jumps.iter().all(|jump| !passes(*jump, rung))
}

/// Whether the same jumps pass over two rungs.
pub(crate) fn are_alike(jumps: &[Jump], rung: usize, other: usize) -> bool
    ensures { IsTrue result → All (IsAlike rung other) jumps.now }
{
    jumps
        .iter()
        .all(|jump| passes(*jump, rung) == passes(*jump, other))
}

/// Whether the jump with a number is that of a rung to its target, which is below.
fn is_numbered(jumps: &[Jump], rung: usize, number: usize, target: usize) -> bool
    ensures within { IsTrue result → number < length jumps.now }
    ensures is { IsTrue result → IsNumbered jumps.now rung number target }
{
    match jumps.get(number) {
        Some(jump) => jump.rung == rung && jump.target == target && rung < target,
        None => false,
    }
}

/// How many jumps there are down to a rung, where so many are above it; none where its own isn't the next one.
pub(crate) fn count_below(
    program: &Program,
    jumps: &[Jump],
    rung: usize,
    number: usize,
) -> Option<usize>
    requires { rung < program.now.rungs }
    ensures { IfSome result (λ next. Counts jumps.now program.now.rungs rung number next (jump_of program.now rung)) }
{
    let Some((_, _, target)) = program.jump(rung) else {
        return Some(number);
    };
    if target == program.rungs() {
        return Some(number);
    }
    if !is_numbered(jumps, rung, number, target) {
        return None;
    }
    Some(number + 1)
}
