//! Whether given pairs are of what can belong together in two programs.

ghost use Rattle.std.specs.Prelude.{◌≡◌, ◌≢◌, ◌<◌, IfSome, IsTrue, Some, false, map, slice_get, true};
ghost use Rattle.std.specs.List.{All};
ghost use Rattle.diagram_declarations.specs.Decls.{is_input};
ghost use Rattle.diagram_declarations.specs.declared.kind.BlockKind.{BlockKind};
ghost use Rattle.diagram_program.specs.Program.{memories_of};
ghost use Rattle.diff_matching.specs.Runs.{HaveNoInput};
ghost use Rattle.diff_matching.specs.Suited.{AreBoth, AreOfKind, AreOnce, IsSuited};

use diagram_declarations::BlockKind;
use diagram_program::Program;
use diff_matching::{Matching, Pair};

/// Whether a number is of an input of a program, or of another variable.
fn is_var_of(program: &Program, var: usize, input: bool) -> bool
    ensures { IsTrue result → slice_get (map is_input program.now.decls.vars) var ≡ Some input }
{
    match program.decls().vars().get(var) {
        Some(var) => var.is_input() == input,
        None => false,
    }
}

/// Whether pairs are of inputs of both programs, or of other variables of both.
fn are_vars(pairs: &[Pair], old: &Program, new: &Program, input: bool) -> bool
    ensures { IsTrue result → All (AreBoth input old.now new.now) pairs.now }
{
    pairs.iter().all(|pair| is_var_of(old, pair.old, input) && is_var_of(new, pair.new, input))
}

/// The kind of an instance of a program.
fn kind_of(program: &Program, inst: usize) -> Option<BlockKind>
    ensures { IfSome result (λ kind. slice_get (map (λ i. i.kind) program.now.decls.instances) inst ≡ Some kind) }
{
    let instance = program.decls().instances().get(inst)?;
    Some(instance.kind)
}

/// Whether a pair is of instances of one kind.
fn is_of_kind(pair: Pair, old: &Program, new: &Program) -> bool
    ensures { IsTrue result → (kind : BlockKind) × AreOfKind kind old.now new.now pair }
{
    match (kind_of(old, pair.old), kind_of(new, pair.new)) {
        (Some(of_old), Some(of_new)) => of_old == of_new,
        _ => false,
    }
}

/// Whether each pair is of instances of one kind.
fn are_of_kinds(pairs: &[Pair], old: &Program, new: &Program) -> bool
    ensures { IsTrue result → All (λ x. (kind : BlockKind) × AreOfKind kind old.now new.now x) pairs.now }
{
    for pair in pairs {
        if !is_of_kind(*pair, old, new) {
            return false;
        }
    }
    true
}

/// Whether pairs are of memories of both programs.
fn are_memories(pairs: &[Pair], old: &Program, new: &Program) -> bool
    ensures { IsTrue result → All (λ x. (x.old < memories_of old.now) × (x.new < memories_of new.now)) pairs.now }
{
    let olds = old.memories();
    let news = new.memories();
    pairs.iter().all(|pair| pair.old < olds && pair.new < news)
}

/// Whether a number of NEW is in none of the pairs.
fn is_alone(number: usize, pairs: &[Pair]) -> bool
    ensures { IsTrue result → All (λ x. x.new ≢ number) pairs.now }
{
    pairs.iter().all(|pair| pair.new != number)
}

/// Whether no number of NEW is in two pairs.
fn are_once(pairs: &[Pair]) -> bool
    ensures { IsTrue result → AreOnce pairs.now }
{
    for number in 0..pairs.len() {
        if !is_alone(pairs[number].new, &pairs[..number]) {
            return false;
        }
    }
    true
}

/// Whether no number of NEW is in two pairs of a list.
fn are_all_once(matching: &Matching) -> bool
    ensures inputs { IsTrue result → AreOnce matching.now.inputs }
    ensures variables { IsTrue result → AreOnce matching.now.variables }
    ensures instances { IsTrue result → AreOnce matching.now.instances }
    ensures memories { IsTrue result → AreOnce matching.now.memories }
{
    are_once(matching.inputs())
        && are_once(matching.variables())
        && are_once(matching.instances())
        && are_once(matching.memories())
}

/// Whether the pairs of inputs are of inputs, and those of other variables of others.
fn are_all_vars(matching: &Matching, old: &Program, new: &Program) -> bool
    ensures inputs { IsTrue result → All (AreBoth true old.now new.now) matching.now.inputs }
    ensures variables { IsTrue result → All (AreBoth false old.now new.now) matching.now.variables }
{
    are_vars(matching.inputs(), old, new, true) && are_vars(matching.variables(), old, new, false)
}

/// Whether the pairs of instances are of instances of one kind, and those of memories of memories.
fn are_all_stored(matching: &Matching, old: &Program, new: &Program) -> bool
    ensures instances { IsTrue result → All (λ x. (kind : BlockKind) × AreOfKind kind old.now new.now x) matching.now.instances }
    ensures memories { IsTrue result → All (λ x. (x.old < memories_of old.now) × (x.new < memories_of new.now)) matching.now.memories }
{
    are_of_kinds(matching.instances(), old, new) && are_memories(matching.memories(), old, new)
}

/// Whether given pairs suit two programs.
fn suits(matching: &Matching, old: &Program, new: &Program) -> bool
    ensures { IsTrue result → IsSuited matching.now old.now new.now }
{
    are_all_vars(matching, old, new) && are_all_stored(matching, old, new) && are_all_once(matching)
}

/// Whether given pairs suit two programs: inputs are with inputs, other variables with other variables, instances with instances of the same kind,
/// memories with memories, and what NEW has is in one pair at most.
pub fn is_suited(matching: &Matching, old: &Program, new: &Program) -> bool
    ensures suited { IsTrue result → IsSuited matching.now old.now new.now }
    ensures no_input { IsTrue result → HaveNoInput matching.now old.now new.now }
{
    suits(matching, old, new)
}
