//! The declarations of the text.

use crate::form::Form;
use crate::names::Names;
use crate::symbol::Symbol;
use crate::text::Text;
use diagram_declarations::{Address, BlockKind, Decls, Instance, Parameter, Var};
use diagram_program::{Cell, Program};

/// The units of a duration, the largest first, with how many milliseconds each has.
const UNITS: [(u32, &[u8]); 4] = [
    (86_400_000, b"d"),
    (3_600_000, b"h"),
    (60_000, b"m"),
    (1_000, b"s"),
];

/// Adds a duration in the largest unit that it is a whole number of.
fn add_time(out: &mut Text, milliseconds: u32) {
    out.add(b"T#");
    for (size, unit) in UNITS {
        if milliseconds >= size && milliseconds % size == 0 {
            out.add_number((milliseconds / size) as usize);
            return out.add(unit);
        }
    }
    out.add_number(milliseconds as usize);
    out.add(b"ms");
}

/// Adds the preset of a timer or a counter behind these bytes, and whether there is one.
pub(crate) fn add_preset(out: &mut Text, before: &[u8], kind: BlockKind, preset: u32) -> bool {
    match kind.traits().parameter {
        Some(Parameter::Time) => {
            out.add(before);
            out.add(b"PT := ");
            add_time(out, preset);
            true
        }
        Some(Parameter::Count) => {
            out.add(before);
            out.add(b"PV := ");
            out.add_number(preset as usize);
            true
        }
        None => false,
    }
}

/// Adds ` AT ` and an address.
fn add_address(out: &mut Text, address: Address, bits: bool) {
    out.add(match address.letter {
        'I' => b" AT %IX",
        'Q' => b" AT %QX",
        _ => b" AT %MX",
    });
    let first = address.first as usize;
    match address.second {
        Some(second) => {
            out.add_number(first);
            out.add(b".");
            out.add_number(second as usize);
        }
        None if bits => {
            out.add_number(first / 8);
            out.add(b".");
            out.add_number(first % 8);
        }
        None => out.add_number(first),
    }
}

/// Adds a name, and the alias behind it where that is another word.
fn add_name(out: &mut Text, word: &[u8], name: &[u8], title: &[u8]) {
    out.add(b"  ");
    out.add(word);
    if title != name && title != word {
        out.add(b" (* ");
        out.add(title);
        out.add(b" *)");
    }
}

/// Adds the declaration of a variable.
fn add_variable(out: &mut Text, word: &[u8], var: &Var, bits: bool) {
    add_name(out, word, var.name.bytes(), var.title.bytes());
    if let Some(address) = var.address {
        add_address(out, address, bits);
    }
    out.add(b" : BOOL");
    if var.initial {
        out.add(b" := TRUE");
    }
    out.end_with(b";");
}

/// Whether a rung calls an instance.
fn is_called_in(program: &Program, rung: usize, number: usize) -> bool {
    if rung >= program.rungs() {
        return false;
    }
    for action in program.actions(rung) {
        if let Cell::Block { inst } = action.cell {
            if inst == number {
                return true;
            }
        }
    }
    false
}

/// Whether the program calls an instance.
fn is_called(program: &Program, number: usize) -> bool {
    for rung in 0..program.rungs() {
        if is_called_in(program, rung, number) {
            return true;
        }
    }
    false
}

/// Adds the declaration of an instance: with its preset where no call has it.
fn add_instance(out: &mut Text, word: &[u8], instance: &Instance, called: bool) {
    add_name(out, word, instance.name.bytes(), instance.title.bytes());
    out.add(b" : ");
    out.add(instance.kind.traits().word);
    if !called && add_preset(out, b" := (", instance.kind, instance.preset) {
        out.add(b")");
    }
    out.end_with(b";");
}

/// Adds the declarations of the variables and the instances of a program.
fn add_declared(out: &mut Text, program: &Program, names: &Names<'_>, bits: bool) {
    let decls: &Decls = program.decls();
    for (number, var) in decls.vars().iter().enumerate() {
        add_variable(out, names.name(Symbol::Variable(number)), var, bits);
    }
    for (number, instance) in decls.instances().iter().enumerate() {
        let word = names.name(Symbol::Output(number));
        add_instance(out, word, instance, is_called(program, number));
    }
}

/// Adds the name of the program and all declarations.
pub(crate) fn add_declarations(
    out: &mut Text,
    program: &Program,
    names: &Names<'_>,
    form: Form<'_>,
) {
    out.add(b"PROGRAM ");
    out.end_with(form.name);
    out.end_with(b"VAR");
    add_declared(out, program, names, form.bits);
    names.declare_to(out);
    out.end_with(b"END_VAR");
}
