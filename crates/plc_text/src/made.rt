//! Variables that the text declares besides those of the interface.

use crate::edge::Edge;
use crate::symbols::Symbols;
use diagram_declarations::same_letters;
use xml_document::Span;
use xml_parts::bytes_at;

/// Names have no larger number than this.
const LARGEST: usize = 99_999;

/// The words of Structured Text that a name might be. None of them ends in a digit.
const WORDS: [&[u8]; 8] = [
    b"R_TRIG",
    b"F_TRIG",
    b"VAR_INPUT",
    b"VAR_OUTPUT",
    b"END_VAR",
    b"END_IF",
    b"END_CASE",
    b"END_PROGRAM",
];

/// What a variable is that the text declares besides.
#[derive(Clone, Copy)]
pub(crate) enum Purpose {
    /// It is the trigger of an edge.
    Trigger(Edge),
    /// It is an input for an output of a block that isn't known.
    Input,
}

/// A variable that the text declares besides.
#[derive(Clone, Copy)]
pub(crate) struct Made {
    /// Where its name is among the spellings.
    pub name: Span,
    pub purpose: Purpose,
}

/// What an input is called after.
#[derive(Clone, Copy)]
pub(crate) struct Origin<'a> {
    /// The instance; no bytes where the block has none.
    pub instance: &'a [u8],
    pub type_name: &'a [u8],
    /// The number of the element.
    pub number: &'a [u8],
    pub output: &'a [u8],
}

/// Whether a word is one of Structured Text.
fn is_reserved(name: &[u8]) -> bool {
    for word in &WORDS {
        if same_letters(word, name) {
            return true;
        }
    }
    false
}

impl<'d> Symbols<'d> {
    /// The name of the variable with a number among those that the text declares besides.
    pub(crate) fn made_name(&self, place: usize) -> &[u8] {
        match self.made.at(place) {
            Some(made) => bytes_at(self.spellings.items(), made.name),
            None => b"",
        }
    }

    /// Whether that variable is a trigger.
    pub(crate) fn is_made_trigger(&self, place: usize) -> bool {
        match self.made.at(place) {
            Some(made) => matches!(made.purpose, Purpose::Trigger(_)),
            None => false,
        }
    }

    /// Whether the text declares a name besides.
    fn is_made(&self, name: &[u8]) -> bool {
        for made in self.made.items() {
            if same_letters(bytes_at(self.spellings.items(), made.name), name) {
                return true;
            }
        }
        false
    }

    /// Whether a name is that of the program, also where the text gives it a number.
    fn is_program(&self, name: &[u8]) -> bool {
        let program = self.program_name();
        match name {
            [front @ .., b'_', b'1'] if same_letters(front, program) => true,
            _ => same_letters(name, program),
        }
    }

    /// Whether nothing has the name that the spellings end with, from a place on.
    fn is_free(&self, start: usize) -> bool {
        let name = bytes_at(self.spellings.items(), self.spelling(start));
        self.find(name).is_none()
            && !self.is_foreign(name)
            && !self.is_made(name)
            && !self.is_program(name)
            && !is_reserved(name)
    }

    /// What the spellings end with, from a place on.
    fn spelling(&self, start: usize) -> Span {
        Span {
            start,
            end: self.spellings.len(),
        }
    }

    /// Adds the last digit of a number to the spellings; nothing of 0.
    fn add_digit(&mut self, number: usize) {
        if number == 0 {
            return;
        }
        if let Some(byte) = b"0123456789".get(number % 10) {
            self.spellings.push(*byte);
        }
    }

    /// Adds the digits of a number below 100,000 to the spellings.
    fn add_number(&mut self, number: usize) {
        self.add_digit(number / 10_000);
        self.add_digit(number / 1_000);
        self.add_digit(number / 100);
        self.add_digit(number / 10);
        self.add_digit(number);
    }

    /// Declares the variable besides whose name the spellings end with, from a place on.
    fn make(&mut self, start: usize, purpose: Purpose) {
        let name = self.spelling(start);
        self.made.push(Made { name, purpose });
    }

    /// Spells the first free name of a trigger that has a larger number than another one, and gives the number.
    fn spell_trigger(&mut self, start: usize, edge: Edge, last: usize) -> usize {
        for number in last.saturating_add(1)..LARGEST {
            self.spellings.truncate(start);
            self.spellings.add(edge.word());
            self.add_number(number);
            if self.is_free(start) || !self.spellings.is_whole {
                return number;
            }
        }
        LARGEST
    }

    /// Declares the trigger of an edge besides.
    pub(crate) fn make_trigger(&mut self, edge: Edge) {
        let start = self.spellings.len();
        match edge {
            Edge::Rising => self.last_rising = self.spell_trigger(start, edge, self.last_rising),
            Edge::Falling => self.last_falling = self.spell_trigger(start, edge, self.last_falling),
        }
        self.make(start, Purpose::Trigger(edge));
    }

    /// Adds a word to the spellings, with `_` in place of what is no letter and no digit.
    fn add_letters(&mut self, word: &[u8]) {
        for byte in word {
            self.spellings.push(if byte.is_ascii_alphanumeric() {
                *byte
            } else {
                b'_'
            });
        }
    }

    /// Adds the word to the spellings that a name begins with.
    fn add_first(&mut self, word: &[u8]) {
        match word {
            [first, ..] if !first.is_ascii_digit() => {}
            _ => self.spellings.push(b'_'),
        }
        self.add_letters(word);
    }

    /// Adds what an input is called after to the spellings.
    fn add_origin(&mut self, origin: Origin<'_>) {
        let has_instance = !origin.instance.is_empty();
        if has_instance {
            self.add_first(origin.instance);
        } else {
            self.add_first(origin.type_name);
            self.add_letters(origin.number);
        }
        let is_plain = !has_instance && same_letters(origin.output, b"OUT");
        if !is_plain && !origin.output.is_empty() {
            self.spellings.push(b'_');
            self.add_letters(origin.output);
        }
    }

    /// Adds a number to the name that the spellings end with, from a place on, if it isn't free.
    fn add_free_number(&mut self, start: usize) {
        let end = self.spellings.len();
        for number in 0..LARGEST {
            self.spellings.truncate(end);
            if number > 0 {
                self.spellings.push(b'_');
                self.add_number(number);
            }
            if self.is_free(start) || !self.spellings.is_whole {
                return;
            }
        }
    }

    /// Declares the input besides that stands for an output of a block that isn't known.
    pub(crate) fn make_input(&mut self, origin: Origin<'_>) {
        let start = self.spellings.len();
        self.add_origin(origin);
        self.add_free_number(start);
        self.make(start, Purpose::Input);
    }
}
