//! Laws over the definitions, each the contract of a function without effect.

ghost use Rattle.std.specs.Prelude.{ℕ, All, List};
ghost use Rattle.scan_cycle.specs.declared.seen.Mark.{Mark};
ghost use Rattle.text_drawing.specs.Browser.{HasPlainTitles, IsPlain, KeepsCharacters};

use diagram_declarations::{Instance, Var};
use diagram_program::Program;

/// The elements of a page change no character of a line.
pub fn keeps_characters()
    ensures { (marks : List Mark) (rung line : ℕ) (text : List ℕ) → KeepsCharacters marks rung line text }
{}

/// The titles of variables have no character that HTML escapes: each one is looked at for its contract.
fn plain_vars(vars: &[Var])
    ensures { All (λ v. IsPlain v.title) vars.now }
{
    for number in 0..vars.len() {
        let _title = vars[number].title.bytes();
    }
}

/// The titles of instances have no character that HTML escapes.
fn plain_instances(instances: &[Instance])
    ensures { All (λ i. IsPlain i.title) instances.now }
{
    for number in 0..instances.len() {
        let _title = instances[number].title.bytes();
    }
}

/// The titles of a program have no character that HTML escapes.
pub fn plain_names(program: &Program)
    ensures { HasPlainTitles program.now.decls }
{
    plain_vars(program.decls().vars());
    plain_instances(program.decls().instances());
}
