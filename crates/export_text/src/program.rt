//! The text of a program.

use crate::declaring::add_declarations;
use crate::form::Form;
use crate::jumps::{are_alike, are_over, flag_of, is_over, jumps_of};
use crate::names::Names;
use crate::paragraphs::Paragraphs;
use crate::piece::{Piece, positive};
use crate::rung::Rung;
use crate::symbol::Symbol;
use crate::text::Text;
use diagram_program::Program;
use diagram_program::gates::Leap;
use io_table::{Part, Table};
use std::alloc::{AllocError, Global};

/// The statements of all rungs, while they are written.
#[derive(Drop)]
struct Course<'p> {
    jumps: Table<Leap>,
    rung: Rung<'p>,
    /// The statements that come next.
    text: Text,
    /// The rungs at hand that jumps pass over.
    guarded: Paragraphs,
    paragraphs: Paragraphs,
}

/// Adds where a jump was taken that passes over a rung.
fn taken(pieces: &mut Table<Piece>, jumps: &[Leap], rung: usize) -> Part {
    let from = pieces.len();
    for (number, jump) in jumps.iter().enumerate() {
        if is_over(jump, rung) {
            if pieces.len() > from {
                pieces.push(Piece::Or);
            }
            pieces.push(positive(Symbol::Flag(number)));
        }
    }
    pieces.since(from)
}

impl Course<'_> {
    /// Writes that no jump was taken yet.
    fn write_start(&mut self) {
        for number in 0..self.jumps.len() {
            let (style, symbol) = (self.rung.style(), Symbol::Flag(number));
            style.assign(&mut self.text, symbol, &[Piece::Constant(false)]);
        }
        self.paragraphs.add(&self.text);
    }

    /// Writes the rungs at hand in an `IF`, if jumps pass over them. One of them is given.
    fn write_guarded(&mut self, rung: usize) {
        if !are_over(self.jumps.items(), rung) {
            return;
        }
        let expressions = &mut self.rung.expressions;
        let taken = taken(&mut expressions.pieces, self.jumps.items(), rung);
        let condition = expressions.inverse(taken);
        self.rung.indent = 0;
        self.text.clear();
        self.text.add(b"IF ");
        let style = self.rung.style();
        style.expression(&mut self.text, self.rung.pieces(condition));
        self.text.end_with(b" THEN");
        self.guarded.add_inner(&mut self.text);
        self.text.end_with(b"END_IF;");
        self.paragraphs.add(&self.text);
    }

    /// Writes a rung.
    fn write_rung(&mut self, program: &Program, rung: usize) {
        let before = rung.saturating_sub(1);
        if !are_alike(self.jumps.items(), before, rung) {
            self.write_guarded(before);
        }
        let is_guarded = are_over(self.jumps.items(), rung);
        let indent = if is_guarded { 2 } else { 0 };
        let flag = flag_of(self.jumps.items(), rung);
        self.rung.write(program, rung, indent, flag);
        self.text.clear();
        self.rung.add_to(&mut self.text);
        if is_guarded {
            self.guarded.add(&self.text);
        } else {
            self.paragraphs.add(&self.text);
        }
    }

    /// Writes all rungs.
    fn write(&mut self, program: &Program) {
        self.write_start();
        for rung in 0..program.rungs() {
            self.write_rung(program, rung);
        }
        self.write_guarded(program.rungs().saturating_sub(1));
    }

    /// Adds the whole text of a program.
    fn add_to(&self, out: &mut Text, program: &Program, form: Form<'_>) {
        add_declarations(out, program, &self.rung.names, form);
        out.end_line();
        self.paragraphs.add_to(out);
        out.end_with(b"END_PROGRAM");
    }

    /// Whether memory never ran out.
    fn is_whole(&self) -> bool {
        self.jumps.is_whole
            && self.rung.is_whole()
            && self.text.bytes.is_whole
            && self.guarded.text.bytes.is_whole
            && self.paragraphs.text.bytes.is_whole
    }
}

/// The statements of a program.
fn course_of<'p>(alloc: Global, program: &'p Program, form: Form<'p>) -> Course<'p> {
    let jumps = jumps_of(alloc, program);
    let mut names = Names::new(alloc, form.name, program.decls());
    names.fill(form.titles, program.memories(), jumps.len());
    let mut course = Course {
        jumps,
        rung: Rung::new(alloc, names, form),
        text: Text::new(alloc),
        guarded: Paragraphs::new(alloc),
        paragraphs: Paragraphs::new(alloc),
    };
    course.write(program);
    course
}

/// The whole text of a program.
fn text_of(alloc: Global, program: &Program, form: Form<'_>) -> Text {
    let course = course_of(alloc, program, form);
    let mut out = Text::new(alloc);
    course.add_to(&mut out, program, form);
    out.bytes.is_whole = course.is_whole() && out.bytes.is_whole;
    out
}

/// The program as Structured Text.
///
/// # Errors
///
/// `AllocError` when out of memory.
pub fn write_st(alloc: Global, program: &Program, form: Form<'_>) -> Result<Vec<u8>, AllocError> {
    let Table { items, is_whole } = text_of(alloc, program, form).bytes;
    if is_whole { Ok(items) } else { Err(AllocError) }
}
