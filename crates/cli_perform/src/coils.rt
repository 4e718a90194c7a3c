//! The coils of a program, by the names of the variables that they write.

ghost use Rattle.std.specs.Prelude.{◌≡◌, IfOk, map, string_bytes};
ghost use Rattle.cli_perform.specs.CoilNames.{coil_names};

use diagram_declarations::Name;
use diagram_program::Program;
use std::alloc::{AllocError, Global};

/// The name of a variable as text, as a request has it.
fn text_of(alloc: Global, name: &Name) -> Result<String, AllocError>
    ensures { IfOk result (λ text. string_bytes text ≡ name.now) }
{
    String::from_utf8_lossy(alloc, name.bytes())
}

/// The names of the variables that coils write, as they are declared and in that order.
///
/// # Errors
///
/// An error when out of memory.
pub fn coil_names(alloc: Global, program: &Program) -> Result<Vec<String>, AllocError>
    ensures { IfOk result (λ names. map string_bytes names.items ≡ coil_names program.now) }
{
    let vars = program.decls().vars();
    let mut names = Vec::new(alloc);
    for var in 0..vars.len() {
        if !program.has_coil(var) {
            continue;
        }
        let name = text_of(alloc, &vars[var].name)?;
        names.push(name)?;
    }
    Ok(names)
}
