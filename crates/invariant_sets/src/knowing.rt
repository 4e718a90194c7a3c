//! What is known of a state in which a set is so.

ghost use Rattle.std.specs.Prelude.{◌≡◌, length, map, replicate};
ghost use Rattle.diagram_program.specs.Program.{memories_of};
ghost use Rattle.scan_partial.specs.Sizes.{HasSizes};
ghost use Rattle.invariant_sets.specs.Never.{knowing, IsSetOf};
ghost use Rattle.invariant_cases.specs.declared.answer.Answer.TheVariants as answer;
ghost use Rattle.invariant_cases.specs.declared.outcome.Outcome.TheVariants as outcome;
ghost use Rattle.scan_signals.specs.declared.tri.Tri.TheVariants.{Unsure};

use crate::set::Set;
use diagram_program::Program;
use invariant_cases::{Answer, Outcome};
use scan_partial::Knowledge;
use scan_signals::Tri;

/// Knows of variables what is claimed of them.
fn know_values(variables: &[Tri], known: &mut Knowledge<Tri, Outcome>)
    requires { length known.old.values ≡ length variables.now }
    ensures { known.new ≡ record known.old { values = variables.now } }
{
    for var in 0..variables.len() {
        known.put_value(var, variables[var]);
    }
}

/// Knows nothing of the memories of edges.
fn open_memories(count: usize, known: &mut Knowledge<Tri, Outcome>)
    requires { length known.old.memories ≡ count }
    ensures { known.new ≡ record known.old { memories = replicate count Unsure } }
{
    for number in 0..count {
        known.put_memory(number, Tri::Unsure);
    }
}

/// Knows of the outputs of blocks what is claimed of them, and nothing of what the blocks answer.
fn know_blocks(instances: &[Tri], known: &mut Knowledge<Tri, Outcome>)
    requires { length known.old.blocks ≡ length instances.now }
    ensures { known.new ≡ record known.old { blocks = map (λ t. outcome.OfKind t answer.Open) instances.now } }
{
    for inst in 0..instances.len() {
        let of_kind = Outcome::OfKind {
            q: instances[inst],
            answer: Answer::Open,
        };
        known.keep(inst, of_kind);
    }
}

/// Becomes what is known of a state of the program in which all that the set claims is so.
pub fn know(program: &Program, set: &Set, known: &mut Knowledge<Tri, Outcome>)
    requires set { IsSetOf program.now set.now }
    requires known { HasSizes program.now known.old }
    ensures known { known.new ≡ knowing program.now set.now }
    ensures sizes { HasSizes program.now known.new }
{
    know_values(&set.variables, known);
    open_memories(program.memories(), known);
    know_blocks(&set.instances, known);
}
