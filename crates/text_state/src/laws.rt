//! Laws of the texts of states: each function changes nothing, and its contract is the law.

ghost use Rattle.diagram_program.specs.Program.{Drawing};
ghost use Rattle.text_state.specs.Laws.{ReadsBack, TellsOneState};
ghost use Rattle.text_state.specs.Named.{AreNamed};

use diagram_declarations::{Instance, Var};
use diagram_program::Program;

/// The names of variables need no quotes in a record: they have letters, digits and underscores. Each is looked at for its contract.
fn named_vars(vars: &[Var])
    ensures { AreNamed (λ v. v.name) vars.now }
{
    for number in 0..vars.len() {
        let _name = vars[number].name.bytes();
    }
}

/// The names of instances need no quotes in a record.
fn named_instances(instances: &[Instance])
    ensures { AreNamed (λ i. i.name) instances.now }
{
    for number in 0..instances.len() {
        let _name = instances[number].name.bytes();
    }
}

/// What `write_state` writes, `read_state` reads back as that state, unless out of memory.
pub fn reads_back(program: &Program)
    ensures { ReadsBack program.now }
{
    let _rungs = program.rungs();
    named_vars(program.decls().vars());
    named_instances(program.decls().instances());
}

/// No text is that of two states.
pub fn one_state()
    ensures { (p : Drawing) → TellsOneState p }
{}
