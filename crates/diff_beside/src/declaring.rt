//! The declarations of two programs in one block. Declarations come of a text alone, so the text of the block is written and read: then all rules of
//! declarations hold of them.

use crate::moving::number_of;
use diagram_declarations::{Decls, Instance, Parameter, Var, VarFault, VarRule, read_decls};
use itoa::Buffer;
use scan_cycle::Memory;
use std::alloc::{AllocError, Global};

/// Adds bytes, and after them a number in decimal.
fn add_number(text: &mut Vec<u8>, before: &[u8], number: usize) -> Result<(), AllocError> {
    let mut digits = Buffer::new();
    text.extend_from_slice(before)?;
    text.extend_from_slice(digits.format(number).as_bytes())
}

/// How the declaration of a variable ends.
fn end_of(initial: bool) -> &'static [u8] {
    if initial {
        b" : BOOL := TRUE;\n"
    } else {
        b" : BOOL;\n"
    }
}

/// Adds the declaration of a variable: its name and the address of an input are made of its number.
fn add_variable(text: &mut Vec<u8>, number: usize, var: &Var) -> Result<(), AllocError> {
    add_number(text, b"v", number)?;
    if var.is_input() {
        add_number(text, b" AT %I", number)?;
    }
    text.extend_from_slice(end_of(var.initial))
}

/// Adds the declarations of the variables of a program whose numbers are from `from` on.
fn add_variables(
    text: &mut Vec<u8>,
    vars: &[Var],
    numbers: &[usize],
    from: usize,
) -> Result<(), AllocError> {
    for var in 0..vars.len() {
        let number = number_of(numbers, var);
        if number >= from {
            add_variable(text, number, &vars[var])?;
        }
    }
    Ok(())
}

/// Adds the preset of an instance, where its kind has one.
fn add_preset(text: &mut Vec<u8>, instance: &Instance) -> Result<(), AllocError> {
    let preset = instance.preset as usize;
    match instance.kind.traits().parameter {
        Some(Parameter::Time) => {
            add_number(text, b" := (PT := T#", preset)?;
            text.extend_from_slice(b"ms)")
        }
        Some(Parameter::Count) => {
            add_number(text, b" := (PV := ", preset)?;
            text.extend_from_slice(b")")
        }
        None => Ok(()),
    }
}

/// Adds the declarations of instances; their names are made of their numbers, from `from` on.
fn add_instances(
    text: &mut Vec<u8>,
    instances: &[Instance],
    from: usize,
) -> Result<(), AllocError> {
    for inst in 0..instances.len() {
        let instance = &instances[inst];
        add_number(text, b"f", from.saturating_add(inst))?;
        text.extend_from_slice(b" : ")?;
        text.extend_from_slice(instance.kind.traits().word)?;
        add_preset(text, instance)?;
        text.extend_from_slice(b";\n")?;
    }
    Ok(())
}

/// The text of the declarations.
fn text_of(
    alloc: Global,
    old: &Decls,
    new: &Decls,
    old_numbers: &[usize],
    new_numbers: &[usize],
) -> Result<Vec<u8>, AllocError> {
    let mut text: Vec<u8> = Vec::new(alloc);
    text.extend_from_slice(b"VAR\n")?;
    add_variables(&mut text, old.vars(), old_numbers, 0)?;
    add_variables(&mut text, new.vars(), new_numbers, old.vars().len())?;
    add_instances(&mut text, old.instances(), 0)?;
    add_instances(&mut text, new.instances(), old.instances().len())?;
    text.extend_from_slice(b"END_VAR\n")?;
    Ok(text)
}

/// The declarations of both programs, with names and addresses that are made up. `None` where they are too many for one program.
///
/// # Errors
///
/// `Memory` when out of memory.
pub(crate) fn declared(
    alloc: Global,
    old: &Decls,
    new: &Decls,
    old_numbers: &[usize],
    new_numbers: &[usize],
) -> Result<Option<Decls>, Memory> {
    let text = text_of(alloc, old, new, old_numbers, new_numbers)?;
    match read_decls(alloc, &text) {
        Ok((decls, _)) => Ok(Some(decls)),
        Err(
            VarFault {
                rule: VarRule::Memory,
                ..
            },
        ) => Err(Memory),
        Err(_) => Ok(None),
    }
}
