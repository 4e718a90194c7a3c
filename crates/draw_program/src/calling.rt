//! What the variables of a program are called.

ghost use Rattle.std.specs.Prelude.{◌≡◌, IfOk};
ghost use Rattle.draw_program.specs.Declarations.{called};

use itoa::Buffer;
use st_program::{Sort, StVariable, bytes_of};
use std::alloc::{AllocError, Global};

/// What a variable is called: its name in the text, and behind it the value of an INT that it stands for.
pub(crate) fn full_name(
    alloc: Global,
    text: &[u8],
    variable: StVariable,
) -> Result<Vec<u8>, AllocError>
    ensures { IfOk result (λ name. name.items ≡ called text.now variable) }
{
    let mut name = Vec::new(alloc);
    name.extend_from_slice(bytes_of(text, variable.name))?;
    if let Sort::Value(of) = variable.sort {
        let mut digits = Buffer::new();
        name.extend_from_slice(b"_")?;
        name.extend_from_slice(digits.format(of.value).as_bytes())?;
    }
    Ok(name)
}

/// What the variables are called.
pub(crate) fn full_names(
    alloc: Global,
    text: &[u8],
    variables: &[StVariable],
) -> Result<Vec<Vec<u8>>, AllocError> {
    let mut names = Vec::new(alloc);
    for variable in variables {
        names.push(full_name(alloc, text, *variable)?)?;
    }
    Ok(names)
}
