//! The laws of the text of a run: the functions change nothing, and their contracts are the laws.

ghost use Rattle.text_runs.specs.Laws.{AreNamed, IsBriefRun, IsStimulusOfRun};
ghost use Rattle.text_runs.specs.Making.{IsBriefSimulated, IsSimulated};

use diagram_declarations::Var;
use diagram_program::Program;

/// The names of variables are well formed. Each is looked at for its contract.
fn named(vars: &[Var])
    ensures { AreNamed vars.now }
{
    for number in 0..vars.len() {
        let _name = vars[number].name.bytes();
    }
}

/// The text that `write_run` writes of scans of the program is a stimulus: a simulation reads it back as a header that names all inputs
/// and a row for each scan, which gives the inputs at the moment of the scan what the scan gives them.
pub fn is_stimulus(program: &Program)
    ensures { IsStimulusOfRun program.now }
{
    named(program.decls().vars());
}

/// The brief text that `write_brief_run` writes of scans in a rhythm is a stimulus too. A simulation with a scan every so many ms reads it
/// as the text of all scans.
pub fn is_brief_stimulus(program: &Program)
    ensures { IsBriefRun program.now }
{
    is_stimulus(program);
}

/// A simulation of the text of scans that are in time makes these scans, from each state that isn't later than the first: its records are
/// without a fault, and the first of them leave what the first scans leave.
pub fn is_simulated(program: &Program)
    ensures { IsSimulated program.now }
{
    is_stimulus(program);
}

/// So does a simulation of the brief text, with a scan every so many ms.
pub fn is_brief_simulated(program: &Program)
    ensures { IsBriefSimulated program.now }
{
    is_brief_stimulus(program);
    is_simulated(program);
}
