//! The names of what something is said of.

ghost use Rattle.std.specs.Prelude.{◌≡◌};
ghost use Rattle.text_findings.specs.FindingText.{edge_name, mark_of, name_of};

use diagram_program::Program;
use diff_findings::{Sort, Subject};
use diff_matching::{Owner, owner_of};

/// The name of what an edge contact reads, or an edge coil writes.
fn edge_name(program: &Program, owner: Option<Owner>) -> &[u8]
    ensures { result.now ≡ edge_name program.now owner }
{
    match owner {
        Some(Owner::Variable(var) | Owner::Coil(var)) => program.decls().var_name(var),
        Some(Owner::Output(inst)) => program.decls().instance_name(inst),
        None => b"",
    }
}

/// The name of a subject.
pub fn name_of<'a>(old: &'a Program, new: &'a Program, subject: Subject) -> &'a [u8]
    ensures { result.now ≡ name_of old.now new.now subject }
{
    let number = subject.number;
    match subject.sort {
        Sort::NewVariable => new.decls().var_name(number),
        Sort::NewInstance => new.decls().instance_name(number),
        Sort::OldVariable => old.decls().var_name(number),
        Sort::OldInstance => old.decls().instance_name(number),
        Sort::NewEdge => edge_name(new, owner_of(new, number)),
    }
}

/// What stands behind the name.
pub fn mark_of(sort: Sort) -> &'static [u8]
    ensures { result.now ≡ mark_of sort }
{
    match sort {
        Sort::NewEdge => b" edge",
        Sort::NewVariable | Sort::NewInstance | Sort::OldVariable | Sort::OldInstance => b"",
    }
}
