//! The declarations of a drawing, as text.

use crate::address::address_of;
use crate::matching::shown_of;
use crate::names::DrawnNames;
use diagram_declarations::{BlockKind, Parameter};
use itoa::Buffer;
use st_program::{Section, StInstance, StProgram, StVariable, bytes_of};
use std::alloc::AllocError;

/// The units of a duration, the largest first, with how many milliseconds each has.
const UNITS: [(u32, &[u8]); 4] = [
    (86_400_000, b"d"),
    (3_600_000, b"h"),
    (60_000, b"m"),
    (1_000, b"s"),
];

/// What declarations are written from.
#[derive(Clone, Copy)]
pub(crate) struct Declaring<'t> {
    pub text: &'t [u8],
    pub program: &'t StProgram,
    pub names: &'t DrawnNames,
    pub helpers: usize,
}

/// The next free numbers of addresses.
#[derive(Clone, Copy)]
struct FreeNumbers {
    input: u32,
    output: u32,
}

/// Adds bytes to a text.
fn add(out: &mut Vec<u8>, bytes: &[u8]) -> Result<(), AllocError> {
    out.extend_from_slice(bytes)
}

/// Adds a number in decimal.
fn add_number(out: &mut Vec<u8>, number: usize) -> Result<(), AllocError> {
    let mut buffer = Buffer::new();
    add(out, buffer.format(number).as_bytes())
}

/// Whether a variable of the program has an address with this letter and first number.
fn is_used(declaring: Declaring<'_>, letter: char, first: u32) -> bool {
    declaring
        .program
        .variables
        .iter()
        .any(|variable| match variable.address {
            Some(word) => match address_of(bytes_of(declaring.text, word)) {
                Some((_, address)) => address.letter == letter && address.first == first,
                None => false,
            },
            None => false,
        })
}

/// The first number from one on that no address with the letter begins with.
fn free_number(declaring: Declaring<'_>, letter: char, from: u32) -> u32 {
    for number in from..100_000 {
        if !is_used(declaring, letter, number) {
            return number;
        }
    }
    from
}

/// Adds ` AT ` and an address with one number.
fn add_free(out: &mut Vec<u8>, start: &[u8], number: u32) -> Result<(), AllocError> {
    add(out, start)?;
    add_number(out, number as usize)
}

/// Adds the place of a variable: that of the text, or a free one for what a section says is an input or an output.
fn add_place(
    out: &mut Vec<u8>,
    declaring: Declaring<'_>,
    variable: StVariable,
    free: &mut FreeNumbers,
) -> Result<(), AllocError> {
    match (variable.address, variable.section) {
        (Some(word), _) => {
            add(out, b" AT ")?;
            add(out, bytes_of(declaring.text, word))
        }
        (None, Section::Input) => {
            let number = free_number(declaring, 'I', free.input);
            free.input = number.saturating_add(1);
            add_free(out, b" AT %IX", number)
        }
        (None, Section::Output) => {
            let number = free_number(declaring, 'Q', free.output);
            free.output = number.saturating_add(1);
            add_free(out, b" AT %QX", number)
        }
        (None, Section::Local) => Ok(()),
    }
}

/// Adds two spaces, a name, and the word of the text as its alias where that is another one.
fn add_name(out: &mut Vec<u8>, name: &[u8], word: &[u8]) -> Result<(), AllocError> {
    add(out, b"  ")?;
    add(out, name)?;
    if name != word {
        add(out, b" (* ")?;
        add(out, shown_of(word))?;
        add(out, b" *)")?;
    }
    Ok(())
}

/// Adds the declaration of a variable.
fn add_variable(
    out: &mut Vec<u8>,
    declaring: Declaring<'_>,
    number: usize,
    variable: StVariable,
    free: &mut FreeNumbers,
) -> Result<(), AllocError> {
    if let (Some(name), Some(word)) = (
        declaring.names.variables.get(number),
        declaring.names.words.get(number),
    ) {
        add_name(out, name.bytes(), word)?;
    }
    add_place(out, declaring, variable, free)?;
    add(out, b" : BOOL")?;
    if variable.initial {
        add(out, b" := TRUE")?;
    }
    add(out, b";\n")
}

/// Adds a duration in the largest unit that it is a whole number of.
fn add_time(out: &mut Vec<u8>, milliseconds: u32) -> Result<(), AllocError> {
    add(out, b"T#")?;
    for (size, unit) in UNITS {
        if milliseconds >= size && milliseconds % size == 0 {
            add_number(out, (milliseconds / size) as usize)?;
            return add(out, unit);
        }
    }
    add_number(out, milliseconds as usize)?;
    add(out, b"ms")
}

/// Adds the type of an instance, and its preset where it has one.
fn add_type(out: &mut Vec<u8>, kind: BlockKind, preset: u32) -> Result<(), AllocError> {
    let traits = kind.traits();
    add(out, b" : ")?;
    add(out, traits.word)?;
    match traits.parameter {
        Some(Parameter::Time) => {
            add(out, b" := (PT := ")?;
            add_time(out, preset)?;
            add(out, b")")
        }
        Some(Parameter::Count) => {
            add(out, b" := (PV := ")?;
            add_number(out, preset as usize)?;
            add(out, b")")
        }
        None => Ok(()),
    }
}

/// Adds the declaration of an instance.
fn add_instance(
    out: &mut Vec<u8>,
    declaring: Declaring<'_>,
    number: usize,
    instance: StInstance,
) -> Result<(), AllocError> {
    if let Some(name) = declaring.names.instances.get(number) {
        add_name(
            out,
            name.name.bytes(),
            bytes_of(declaring.text, instance.name),
        )?;
    }
    add_type(out, instance.kind, instance.preset)?;
    add(out, b";\n")
}

/// Adds the declarations of the helpers.
fn add_helpers(out: &mut Vec<u8>, declaring: Declaring<'_>) -> Result<(), AllocError> {
    for number in 0..declaring.helpers {
        add(out, b"  ")?;
        add(out, declaring.names.helper)?;
        add_number(out, number.saturating_add(1))?;
        add(out, b" : BOOL;\n")?;
    }
    Ok(())
}

/// Adds the declarations of the instances whose names stand between two places of the text.
fn add_instances(
    out: &mut Vec<u8>,
    declaring: Declaring<'_>,
    from: usize,
    to: usize,
) -> Result<(), AllocError> {
    for (number, instance) in declaring.program.instances.iter().enumerate() {
        if from <= instance.name.start && instance.name.start < to {
            add_instance(out, declaring, number, *instance)?;
        }
    }
    Ok(())
}

/// Adds the declarations of a program and of the helpers of its drawing, in the order of its text.
pub(crate) fn add_declarations(
    out: &mut Vec<u8>,
    declaring: Declaring<'_>,
) -> Result<(), AllocError> {
    let mut free = FreeNumbers {
        input: 0,
        output: 0,
    };
    let mut from = 0;
    add(out, b"VAR\n")?;
    for (number, variable) in declaring.program.variables.iter().enumerate() {
        add_instances(out, declaring, from, variable.name.start)?;
        add_variable(out, declaring, number, *variable, &mut free)?;
        // A value of an INT has the place of its INT, behind which other names may stand that are declared already.
        from = variable.name.start.max(from);
    }
    add_instances(out, declaring, from, usize::MAX)?;
    add_helpers(out, declaring)?;
    add(out, b"END_VAR\n\n")
}
