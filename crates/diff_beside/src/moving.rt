//! The numbers of what a program has in a program with more in it.

ghost use Rattle.std.specs.Prelude.{◌≡◌, ◌<◌, ◌^◌, slice_index_or};

/// The numbers of what a program has in a program with more in it.
#[derive(Clone, Copy)]
pub(crate) struct Moving<'a> {
    /// The number there of each of its variables.
    pub vars: &'a [usize],
    /// How many instances stand there before its first one.
    pub instances: usize,
    /// How many memories.
    pub memories: usize,
    /// How many rungs.
    pub rungs: usize,
    /// The rung to which its returns lead there, where they don't lead past the last one.
    pub past: Option<usize>,
    ghost few_instances: { instances < 2 ^ 32 },
    ghost few_memories: { memories < 2 ^ 32 },
    ghost few_rungs: { rungs < 2 ^ 32 },
}

/// The number of a variable; 0 where there is none.
pub(crate) fn number_of(vars: &[usize], var: usize) -> usize
    ensures { result ≡ slice_index_or vars.now var 0 }
{
    match vars.get(var) {
        Some(number) => *number,
        None => 0,
    }
}
