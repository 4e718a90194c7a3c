//! What the declarations of both programs say.

ghost use Rattle.std.specs.Prelude.{◌≡◌};
ghost use Rattle.diagram_declarations.specs.Decls.{same_address};
ghost use Rattle.diff_findings.specs.Findings.{address_of, initial_of, is_same_bit, is_same_place, is_written, preset_of};

use diagram_declarations::Address;
use diagram_program::Program;
use diff_matching::Pair;
use scan_cycle::scene::instance;

/// The initial value of a variable.
pub(crate) fn initial_of(program: &Program, var: usize) -> bool
    ensures { result ≡ initial_of program.now var }
{
    match program.decls().vars().get(var) {
        Some(var) => var.initial,
        None => false,
    }
}

/// The address of a variable, where it has one.
pub(crate) fn address_of(program: &Program, var: usize) -> Option<Address>
    ensures { result ≡ address_of program.now var }
{
    match program.decls().vars().get(var) {
        Some(var) => var.address,
        None => None,
    }
}

/// The preset of an instance.
pub(crate) fn preset_of(program: &Program, inst: usize) -> u32
    ensures { result ≡ preset_of program.now inst }
{
    instance(program, inst).1
}

/// Whether a coil of either program writes the variable.
pub(crate) fn is_written(old: &Program, new: &Program, pair: Pair) -> bool
    ensures { result ≡ is_written old.now new.now pair }
{
    old.has_coil(pair.old) || new.has_coil(pair.new)
}

/// Whether two values are the same.
pub(crate) fn is_same_bit(old: bool, new: bool) -> bool
    ensures { result ≡ is_same_bit old new }
{
    old == new
}

/// Whether two addresses are the same.
fn is_same_address(old: Address, new: Address) -> bool
    ensures { result ≡ same_address old new }
{
    old == new
}

/// Whether both have one address, or neither has any.
pub(crate) fn is_same_place(old: Option<Address>, new: Option<Address>) -> bool
    ensures { result ≡ is_same_place old new }
{
    match (old, new) {
        (Some(old), Some(new)) => is_same_address(old, new),
        (None, None) => true,
        (Some(_), None) | (None, Some(_)) => false,
    }
}
