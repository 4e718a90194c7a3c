//! The names of the text.

use crate::keywords::{is_declared, is_name};
use crate::symbol::Symbol;
use crate::text::Text;
use diagram_declarations::{Decls, same_letters};
use io_table::{Part, Table};
use itoa::Buffer;
use std::alloc::Global;

/// More than the names that a program can have.
const MOST_ALIKE: usize = 1000;

/// The names of what the text declares: of variables, instances, memories, flags and helpers.
#[derive(Drop)]
pub(crate) struct Names<'p> {
    /// The name of the program.
    program: &'p [u8],
    decls: &'p Decls,
    pub bytes: Table<u8>,
    pub words: Table<Part>,
    /// The numbers of the first names of memories, of flags and of helpers.
    memories: usize,
    flags: usize,
    helpers: usize,
    /// The first numbers that no helper has: of those that keep a value, and of the others.
    next_old: usize,
    next_power: usize,
}

impl<'p> Names<'p> {
    /// No names.
    pub(crate) fn new(alloc: Global, program: &'p [u8], decls: &'p Decls) -> Names<'p> {
        Names {
            program,
            decls,
            bytes: Table::new(alloc),
            words: Table::new(alloc),
            memories: 0,
            flags: 0,
            helpers: 0,
            next_old: 1,
            next_power: 1,
        }
    }

    /// The name with a number.
    fn word(&self, number: usize) -> &[u8] {
        match self.words.at(number) {
            Some(part) => self.bytes.part(part),
            None => b"",
        }
    }

    /// Whether something has this name in the text, whatever the case of its letters.
    fn is_used(&self, word: &[u8]) -> bool {
        for number in 0..self.words.len() {
            if same_letters(self.word(number), word) {
                return true;
            }
        }
        false
    }

    /// Whether nothing has this name.
    fn is_new(&self, part: Part) -> bool {
        let word = self.bytes.part(part);
        !same_letters(self.program, word) && !is_declared(self.decls, word) && !self.is_used(word)
    }

    /// Adds a name.
    fn add(&mut self, word: &[u8]) {
        let from = self.bytes.len();
        self.bytes.add(word);
        self.words.push(self.bytes.since(from));
    }

    /// Adds a name of letters and a number, unless something has it already; whether it was added.
    fn add_numbered(&mut self, letters: &[u8], between: &[u8], number: usize) -> bool {
        let mut digits = Buffer::new();
        let from = self.bytes.len();
        self.bytes.add(letters);
        self.bytes.add(between);
        self.bytes.add(digits.format(number).as_bytes());
        let part = self.bytes.since(from);
        let is_new = self.is_new(part);
        if is_new {
            self.words.push(part);
        } else {
            self.bytes.truncate(from);
        }
        is_new
    }

    /// Adds these letters and the first number from one on that makes a new name of them. The number.
    fn add_next(&mut self, letters: &[u8], between: &[u8], from: usize) -> usize {
        for more in 0..MOST_ALIKE {
            let number = from.saturating_add(more);
            if self.add_numbered(letters, between, number) {
                return number;
            }
        }
        self.add(letters);
        from
    }

    /// Adds the name of a declaration: its alias where that is wanted and is a name, otherwise its short name, with a number where that is none.
    fn add_declared(&mut self, name: &[u8], title: &[u8], titles: bool) {
        for word in [title, name] {
            let is_wanted = titles || same_letters(word, name);
            if is_wanted && is_name(word) && !self.is_used(word) {
                return self.add(word);
            }
        }
        let _number = self.add_next(name, b"_", 1);
    }

    /// Adds names of letters and numbers, so many.
    fn add_row(&mut self, letters: &[u8], count: usize) {
        let mut number: usize = 0;
        for _ in 0..count {
            number = self.add_next(letters, b"", number.saturating_add(1));
        }
    }

    /// Adds the names of the variables and the instances.
    fn add_declarations(&mut self, titles: bool) {
        let decls = self.decls;
        for var in decls.vars() {
            self.add_declared(var.name.bytes(), var.title.bytes(), titles);
        }
        for instance in decls.instances() {
            self.add_declared(instance.name.bytes(), instance.title.bytes(), titles);
        }
    }

    /// Adds the names of what is declared, and of memories and flags, so many.
    pub(crate) fn fill(&mut self, titles: bool, memories: usize, flags: usize) {
        self.add_declarations(titles);
        self.memories = self.words.len();
        self.add_row(b"M", memories);
        self.flags = self.words.len();
        self.add_row(b"J", flags);
        self.helpers = self.words.len();
    }

    /// The helper that was added last.
    fn helper(&self) -> Symbol {
        Symbol::Helper(
            self.words
                .len()
                .saturating_sub(self.helpers.saturating_add(1)),
        )
    }

    /// A new helper that keeps a value.
    pub(crate) fn add_old(&mut self) -> Symbol {
        self.next_old = self.add_next(b"old", b"", self.next_old).saturating_add(1);
        self.helper()
    }

    /// A new helper with another letter before its number.
    pub(crate) fn add_power(&mut self, letter: &[u8]) -> Symbol {
        self.next_power = self
            .add_next(letter, b"", self.next_power)
            .saturating_add(1);
        self.helper()
    }

    /// The name of a symbol, without what is behind it for an output.
    pub(crate) fn name(&self, symbol: Symbol) -> &[u8] {
        match symbol {
            Symbol::Variable(number) => self.word(number),
            Symbol::Output(number) | Symbol::Called(number) => {
                self.word(self.decls.vars().len().saturating_add(number))
            }
            Symbol::Memory(number) => self.word(self.memories.saturating_add(number)),
            Symbol::Flag(number) => self.word(self.flags.saturating_add(number)),
            Symbol::Edge(number) | Symbol::Helper(number) => {
                self.word(self.helpers.saturating_add(number))
            }
        }
    }

    /// What is behind the name of a symbol.
    pub(crate) fn suffix(&self, symbol: Symbol) -> &'static [u8] {
        match symbol {
            Symbol::Output(number) | Symbol::Called(number) => self.decls.output_suffix(number),
            Symbol::Variable(_)
            | Symbol::Memory(_)
            | Symbol::Flag(_)
            | Symbol::Edge(_)
            | Symbol::Helper(_) => b"",
        }
    }

    /// Adds the declarations of memories, flags and helpers to a text.
    pub(crate) fn declare_to(&self, out: &mut Text) {
        for number in self.memories..self.words.len() {
            out.add(b"  ");
            out.add(self.word(number));
            out.end_with(b" : BOOL;");
        }
    }
}
