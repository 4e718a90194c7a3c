//! Waking: a rung that is known to rest is so no more when something that it uses has changed.

ghost use Rattle.std.specs.Prelude.{◌≡◌, ℕ, Some, slice_index_or, slice_set, true, false};
ghost use Rattle.scan_cycle.specs.Cells.{Diagram};
ghost use Rattle.scan_cycle.specs.Rung.{Held};
ghost use Rattle.scan_incremental.specs.Resting.{known_next, AllRest, IsWoken};

use crate::marks::Users;

/// Whether a rung is marked; what has no mark counts as marked.
fn is_marked(marks: &[bool], rung: usize) -> bool
    ensures { result ≡ slice_index_or marks.now rung true }
{
    match marks.get(rung) {
        Some(mark) => *mark,
        None => true,
    }
}

/// Wakes the rungs that are marked: they are no longer known to rest.
fn wake(marks: &[bool], next: &mut [Option<usize>])
    ensures { (j n : ℕ) → known_next next.new j ≡ Some n → (known_next next.old j ≡ Some n) × (slice_index_or marks.now j true ≡ false) }
{
    for rung in 0..next.len() {
        if is_marked(marks, rung) {
            next[rung] = None;
        }
    }
}

/// Wakes all rungs.
pub(crate) fn wake_all(next: &mut [Option<usize>])
    ensures { (d : Diagram) (moment : ℕ) (h : Held) → AllRest d moment h next.new }
{
    wake(&[], next);
}

/// Wakes the rungs that use a variable.
pub(crate) fn wake_variable(users: &Users, var: usize, next: &mut [Option<usize>])
    ensures { IsWoken users.now.variables var next.old next.new }
{
    wake(users.of_variable(var), next);
}

/// Wakes the rungs that read the output of an instance.
pub(crate) fn wake_output(users: &Users, inst: usize, next: &mut [Option<usize>])
    ensures { IsWoken users.now.outputs inst next.old next.new }
{
    wake(users.of_output(inst), next);
}

/// The rung that comes after one that is known to rest; None where it isn't known to.
pub(crate) fn known_next(next: &[Option<usize>], rung: usize) -> Option<usize>
    ensures { result ≡ known_next next.now rung }
{
    match next.get(rung) {
        Some(after) => *after,
        None => None,
    }
}

/// Notes that a rung rests from now on, and which rung comes after it.
pub(crate) fn put_to_rest(next: &mut [Option<usize>], rung: usize, after: usize)
    ensures { next.new ≡ slice_set next.old rung (Some after) }
{
    if rung < next.len() {
        next[rung] = Some(after);
    }
}
