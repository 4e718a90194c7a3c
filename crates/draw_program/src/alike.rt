//! Names that are one in a drawing, where the first 32 characters of a name count.

use crate::matching::shown_of;
use diagram_declarations::same_letters;
use st_program::{StProgram, bytes_of};

/// Whether one of the names is this one, whatever the case of letters.
fn is_among(names: &[Vec<u8>], name: &[u8]) -> bool {
    names
        .iter()
        .any(|other| same_letters(shown_of(other), shown_of(name)))
}

/// Where the first of the variables stands whose name is that of an earlier one.
fn alike_variable(program: &StProgram, words: &[Vec<u8>]) -> Option<usize> {
    for (number, word) in words.iter().enumerate() {
        if is_among(&words[..number.min(words.len())], word) {
            return program.variables.get(number).map(|v| v.name.start);
        }
    }
    None
}

/// Whether an instance before this number has the name.
fn is_instance(text: &[u8], program: &StProgram, number: usize, name: &[u8]) -> bool {
    program.instances.iter().take(number).any(|other| same_letters(
        shown_of(bytes_of(text, other.name)),
        shown_of(name),
    ))
}

/// Where the first of the instances stands whose name is that of a variable or of an earlier instance.
fn alike_instance(text: &[u8], program: &StProgram, words: &[Vec<u8>]) -> Option<usize> {
    for (number, instance) in program.instances.iter().enumerate() {
        let name = bytes_of(text, instance.name);
        if is_among(words, name) || is_instance(text, program, number, name) {
            return Some(instance.name.start);
        }
    }
    None
}

/// Where a name stands that is that of an earlier variable or instance, if there is one; these are the names of the variables.
pub(crate) fn alike_name(text: &[u8], program: &StProgram, words: &[Vec<u8>]) -> Option<usize> {
    alike_variable(program, words).or(alike_instance(text, program, words))
}
