//! Calls of blocks.

use crate::diagram::{Diagram, START, Spot};
use crate::elements::{PRESET_HEIGHT, PRESET_WIDTH};
use crate::power::{Power, rows_of};
use crate::text::Text;
use diagram_declarations::{BlockKind, Output, Parameter, same_letters};
use io_table::{NOTHING, Part};
use st_expression::Expression;
use st_program::{StInstance, bytes_of};

/// How wide a block is, and how high one with two inputs or with three.
const BLOCK_WIDTH: usize = 60;

const SMALL: usize = 60;

const LARGE: usize = 80;

/// How far below the top of a block its first input is, and how far apart two inputs are.
const FIRST_PIN: usize = 30;

const PIN: usize = 20;

/// The units of a duration, the largest first, with how many milliseconds each has.
const UNITS: [(u32, &[u8]); 4] = [
    (86_400_000, b"d"),
    (3_600_000, b"h"),
    (60_000, b"m"),
    (1_000, b"s"),
];

/// What is connected with the inputs of a block.
#[derive(Clone, Copy)]
struct Inputs {
    first: Part,
    /// None where the block has no second input.
    second: Option<Part>,
    /// None where it has no preset.
    preset: Option<Part>,
}

/// How many rows the power of one input takes, or of two.
fn rows_of_both(first: &Expression, second: Option<&Expression>) -> usize {
    match second {
        Some(second) => rows_of(first).saturating_add(rows_of(second)),
        None => rows_of(first),
    }
}

/// How the two inputs of a block are spelled, of which the first one has this name in the text; no bytes where it has one input.
fn spelled(kind: BlockKind, first: &[u8]) -> (&'static [u8], &'static [u8]) {
    match kind {
        BlockKind::Ton | BlockKind::Tof | BlockKind::Tp => (b"IN", b""),
        BlockKind::Ctu => (b"CU", b"R"),
        BlockKind::Ctd => (b"CD", b"LD"),
        BlockKind::Sr if same_letters(first, b"SET1") => (b"SET1", b"RESET"),
        BlockKind::Sr => (b"S1", b"R"),
        BlockKind::Rs if same_letters(first, b"SET") => (b"SET", b"RESET1"),
        BlockKind::Rs => (b"S", b"R1"),
    }
}

/// How the output of a block is spelled.
fn output_of(kind: BlockKind) -> &'static [u8] {
    match kind.traits().output {
        Output::Q => b"Q",
        Output::Q1 => b"Q1",
    }
}

/// How the preset of a block and the output beside it are spelled.
fn preset_of(parameter: Parameter) -> (&'static [u8], &'static [u8]) {
    match parameter {
        Parameter::Time => (b"PT", b"ET"),
        Parameter::Count => (b"PV", b"CV"),
    }
}

/// The letters and digits that a text begins with.
fn name_in(text: &[u8]) -> &[u8] {
    for at in 0..text.len() {
        if !text[at].is_ascii_alphanumeric() {
            return &text[..at];
        }
    }
    text
}

/// Adds a duration in the largest unit that it is a whole number of.
fn add_time(out: &mut Text, milliseconds: u32) {
    out.add(b"T#");
    for (size, unit) in UNITS {
        if milliseconds >= size && milliseconds % size == 0 {
            out.add_number((milliseconds / size) as usize);
            return out.add(unit);
        }
    }
    out.add_number(milliseconds as usize);
    out.add(b"ms");
}

/// Adds the value of a preset.
fn add_preset(out: &mut Text, parameter: Parameter, preset: u32) {
    match parameter {
        Parameter::Time => add_time(out, preset),
        Parameter::Count => out.add_number(preset as usize),
    }
}

impl Diagram<'_> {
    /// The name of the first argument of the call that is the statement come to last.
    fn first_argument(&self) -> &[u8] {
        let Some(word) = self.program.places.get(self.statements.saturating_sub(1)) else {
            return b"";
        };
        match self.text.get(word.end..self.text.len()) {
            Some([b'(', rest @ ..]) => name_in(rest),
            _ => b"",
        }
    }

    /// Writes the preset of a block at a place of the network, and that it is connected.
    fn write_preset(&mut self, parameter: Parameter, preset: u32, spot: Spot) -> Part {
        let number = self.begin(b"inVariable");
        self.size(PRESET_WIDTH, PRESET_HEIGHT);
        self.out.attribute(b"negated", b"false");
        let x = spot.x().saturating_sub(PRESET_WIDTH.saturating_add(PIN));
        let y = self.wire(spot).saturating_sub(PRESET_HEIGHT / 2);
        self.stand(x, y);
        self.write_right(PRESET_WIDTH, PRESET_HEIGHT / 2);
        self.out.add(b"<expression>");
        add_preset(&mut self.out, parameter, preset);
        self.out.add(b"</expression></inVariable>\n");
        self.alone(number)
    }

    /// Writes an input of a block with what is connected there, below so many others.
    fn write_input(&mut self, name: &[u8], above: usize, left: Part) {
        self.out.add(b"<variable");
        self.out.attribute(b"formalParameter", name);
        self.out.add(b">");
        self.write_left(above.saturating_mul(PIN).saturating_add(FIRST_PIN), left);
        self.out.add(b"</variable>");
    }

    /// Writes an output of a block, below so many others.
    fn write_output(&mut self, name: &[u8], above: usize) {
        self.out.add(b"<variable");
        self.out.attribute(b"formalParameter", name);
        self.out.add(b">");
        self.write_right(
            BLOCK_WIDTH,
            above.saturating_mul(PIN).saturating_add(FIRST_PIN),
        );
        self.out.add(b"</variable>");
    }

    /// Writes the inputs of a block.
    fn write_inputs(&mut self, kind: BlockKind, inputs: Inputs) {
        let (first, second) = spelled(kind, self.first_argument());
        let mut above = 1;
        self.out.add(b"<inputVariables>");
        self.write_input(first, 0, inputs.first);
        if let Some(left) = inputs.second {
            self.write_input(second, above, left);
            above = 2;
        }
        if let (Some(parameter), Some(left)) = (kind.traits().parameter, inputs.preset) {
            let (name, _) = preset_of(parameter);
            self.write_input(name, above, left);
        }
        self.out.add(b"</inputVariables><inOutVariables/>");
    }

    /// Writes the outputs of a block.
    fn write_outputs(&mut self, kind: BlockKind) {
        self.out.add(b"<outputVariables>");
        self.write_output(output_of(kind), 0);
        if let Some(parameter) = kind.traits().parameter {
            let (_, name) = preset_of(parameter);
            self.write_output(name, 1);
        }
        self.out.add(b"</outputVariables>");
    }

    /// Writes a block at a place of the network.
    fn write_block(&mut self, instance: StInstance, inputs: Inputs, spot: Spot) {
        let height = if inputs.second.is_some() && inputs.preset.is_some() {
            LARGE
        } else {
            SMALL
        };
        let _number = self.begin(b"block");
        self.size(BLOCK_WIDTH, height);
        self.out.attribute(b"typeName", instance.kind.traits().word);
        self.out
            .attribute(b"instanceName", bytes_of(self.text, instance.name));
        self.order();
        self.stand(spot.x(), self.wire(spot).saturating_sub(FIRST_PIN));
        self.write_inputs(instance.kind, inputs);
        self.write_outputs(instance.kind);
        self.out.add(b"</block>\n");
    }

    /// Writes the power of the second input of a block, if it has one, below that of the first.
    fn write_second(
        &mut self,
        second: Option<&Expression>,
        rail: Part,
        first: Power,
    ) -> Option<Power> {
        match second {
            Some(power) => Some(self.write_power(power, rail, START.below(first.rows))),
            None => None,
        }
    }

    /// Writes the preset of an instance at a place of the network, if it has one.
    fn write_parameter(&mut self, instance: StInstance, spot: Spot) -> Option<Part> {
        match instance.kind.traits().parameter {
            Some(parameter) => Some(self.write_preset(parameter, instance.preset, spot)),
            None => None,
        }
    }

    /// Writes the network of the call of an instance.
    fn write_called(
        &mut self,
        instance: StInstance,
        first: &Expression,
        second: Option<&Expression>,
    ) {
        let rail = self.write_rail(rows_of_both(first, second));
        let upper = self.write_power(first, rail, START);
        let lower = self.write_second(second, rail, upper);
        let both = upper.beside(lower);
        // A column is free for the preset.
        let spot = START.right(both.columns.max(1));
        let preset = self.write_parameter(instance, spot.below(both.rows));
        let inputs = Inputs {
            first: upper.ends,
            second: match lower {
                Some(power) => Some(power.ends),
                None => None,
            },
            preset,
        };
        self.write_block(instance, inputs, spot);
        self.end_network(both.rows.saturating_add(1));
    }

    /// Writes the network of a call.
    pub(crate) fn write_call(&mut self, number: usize, first: &Expression, second: &Expression) {
        if let Some(instance) = self.instance(number) {
            match instance.kind.traits().second_input {
                Some(_) => self.write_called(instance, first, Some(second)),
                None => self.write_called(instance, first, None),
            }
        }
    }
}
