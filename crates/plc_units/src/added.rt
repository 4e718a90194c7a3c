//! Variables of a program behind those that an interface declares.

ghost use Rattle.std.specs.Prelude.{◌≡◌, IsTrue, None, drop};
ghost use Rattle.st_program.specs.declared.symbols.Section.TheVariants.{Input};
ghost use Rattle.plc_units.specs.Doing.{AreAdded, AreOpenInputs, IsOpenInput, IsTriggerFor};

use plc_declarations::{is_bool, is_trigger_sort};
use plc_elements::{Body, falling_at};
use st_program::{Section, StVariable};

/// Whether a variable has no address.
fn has_no_address(x: StVariable) -> bool
    ensures { IsTrue result → x.address ≡ None }
{
    x.address.is_none()
}

/// Whether a variable is the output of a trigger for the edge of the part with a number.
fn is_trigger_for(body: Body<'_>, number: usize, x: StVariable) -> bool
    ensures { IsTrue result → IsTriggerFor body.entry number x }
{
    match falling_at(body, number) {
        Some(falling) => is_trigger_sort(x, falling) && has_no_address(x) && !x.initial,
        None => false,
    }
}

/// Whether a variable is in the section of inputs.
fn is_input(x: StVariable) -> bool
    ensures { IsTrue result → x.section ≡ Input }
{
    matches!(x.section, Section::Input)
}

/// Whether a variable is an input, which may have any value.
fn is_open_input(x: StVariable) -> bool
    ensures { IsTrue result → IsOpenInput x }
{
    is_bool(x) && is_input(x) && has_no_address(x)
}

/// Whether variables are inputs, one for each output that is open.
fn are_open_inputs(opened: &[usize], variables: &[StVariable]) -> bool
    ensures { IsTrue result → AreOpenInputs opened.now variables.now }
{
    match (opened, variables) {
        ([], []) => true,
        ([_, opened @ ..], [x, variables @ ..]) => {
            is_open_input(*x) && are_open_inputs(opened, variables)
        }
        _ => false,
    }
}

/// Whether variables are the outputs of triggers for edges, and then inputs for outputs that are open.
pub(crate) fn are_added(
    body: Body<'_>,
    edges: &[usize],
    opened: &[usize],
    variables: &[StVariable],
) -> bool
    ensures { IsTrue result → AreAdded body.entry edges.now opened.now variables.now }
{
    let [number, edges @ ..] = edges else {
        return are_open_inputs(opened, variables);
    };
    match variables {
        [x, variables @ ..] => {
            is_trigger_for(body, *number, *x) && are_added(body, edges, opened, variables)
        }
        [] => false,
    }
}
