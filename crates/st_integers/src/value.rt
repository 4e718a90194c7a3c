//! The values of INT variables.

ghost use Rattle.std.specs.Prelude.{◌≡◌, None, slice_index_or};
ghost use Rattle.st_integers.specs.Values.{is_of_integer, is_value, variable_with};

/// A value of an INT. An INT goes by the number of the first variable that stands for a value of it.
#[derive(Clone, Copy, Debug, PartialEq, Eq)]
pub struct IntegerValue {
    pub integer: usize,
    pub value: u32,
}

/// Whether it is a value of this INT.
pub(crate) fn is_of_integer(integer: usize, of: Option<IntegerValue>) -> bool
    ensures { result ≡ is_of_integer integer of }
{
    match of {
        Some(of) => of.integer == integer,
        None => false,
    }
}

/// The value that a variable stands for.
pub(crate) fn value_of(values: &[Option<IntegerValue>], variable: usize) -> Option<IntegerValue>
    ensures { result ≡ slice_index_or values.now variable None }
{
    match values.get(variable) {
        Some(of) => *of,
        None => None,
    }
}

/// Whether it is this value of this INT.
fn is_value(integer: usize, value: u32, of: Option<IntegerValue>) -> bool
    ensures { result ≡ is_value integer value of }
{
    match of {
        Some(of) => of.integer == integer && of.value == value,
        None => false,
    }
}

/// The number of the variable that is ON while the INT has this value.
pub fn variable_with(values: &[Option<IntegerValue>], integer: usize, value: u32) -> Option<usize>
    ensures { result ≡ variable_with values.now integer value }
{
    values.iter().position(|of| is_value(integer, value, *of))
}
