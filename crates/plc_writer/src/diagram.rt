//! A diagram as it is written, and where its elements stand.

use crate::text::Text;
use diagram_declarations::Output;
use io_table::{Part, Table};
use st_expression::Operand;
use st_program::{StInstance, StProgram, StVariable, bytes_of};
use std::alloc::Global;

/// How far across the left rail is, and the first column of elements.
pub(crate) const RAIL: usize = 40;

const FIRST: usize = 100;

/// How far down the first network is.
const TOP: usize = 60;

/// How wide a column and how high a row is.
pub(crate) const COLUMN: usize = 100;

pub(crate) const ROW: usize = 40;

/// How far below the top of a row its wire is.
pub(crate) const WIRE: usize = 20;

/// How many rows are left free between two networks.
const GAP: usize = 1;

/// A place in a network: columns from the left, and rows from above.
#[derive(Clone, Copy)]
pub(crate) struct Spot {
    pub column: usize,
    pub row: usize,
}

/// The first place of a network.
pub(crate) const START: Spot = Spot { column: 0, row: 0 };

/// A diagram while it is written.
#[derive(Drop)]
pub(crate) struct Diagram<'p> {
    /// The text of the program.
    pub text: &'p [u8],
    pub program: &'p StProgram,
    pub out: Text,
    /// The numbers of elements that are connected on the left of something, one after the other.
    pub links: Table<usize>,
    /// How many elements there are, how many of them have a number in the order, and how many labels there are.
    pub elements: usize,
    pub ordered: usize,
    pub labels: usize,
    /// How many statements were come to.
    pub statements: usize,
    /// Where the network at hand begins.
    pub top: usize,
}

impl Spot {
    /// The place so many columns to the right.
    pub(crate) fn right(self, columns: usize) -> Spot {
        Spot {
            column: self.column.saturating_add(columns),
            row: self.row,
        }
    }

    /// The place so many rows below.
    pub(crate) fn below(self, rows: usize) -> Spot {
        Spot {
            column: self.column,
            row: self.row.saturating_add(rows),
        }
    }

    /// How far across it is.
    pub(crate) fn x(self) -> usize {
        self.column.saturating_mul(COLUMN).saturating_add(FIRST)
    }
}

impl<'p> Diagram<'p> {
    /// A diagram of no elements.
    pub(crate) fn new(alloc: Global, text: &'p [u8], program: &'p StProgram) -> Diagram<'p> {
        Diagram {
            text,
            program,
            out: Text::new(alloc),
            links: Table::new(alloc),
            elements: 0,
            ordered: 0,
            labels: 0,
            statements: 0,
            top: TOP,
        }
    }

    /// Whether memory never ran out.
    pub(crate) fn is_whole(&self) -> bool {
        self.out.bytes.is_whole && self.links.is_whole
    }

    /// How far down the wire of a place is.
    pub(crate) fn wire(&self, spot: Spot) -> usize {
        spot.row
            .saturating_mul(ROW)
            .saturating_add(self.top)
            .saturating_add(WIRE)
    }

    /// Goes on below a network of so many rows.
    pub(crate) fn end_network(&mut self, rows: usize) {
        let height = rows.saturating_add(GAP).saturating_mul(ROW);
        self.top = self.top.saturating_add(height);
    }

    /// Connects something with one element alone.
    pub(crate) fn alone(&mut self, element: usize) -> Part {
        self.links.alone(element)
    }

    /// A variable of the program.
    fn variable(&self, number: usize) -> Option<StVariable> {
        self.program.variables.get(number).copied()
    }

    /// An instance of the program.
    pub(crate) fn instance(&self, number: usize) -> Option<StInstance> {
        self.program.instances.get(number).copied()
    }

    /// Writes the name of a variable.
    pub(crate) fn write_name(&mut self, number: usize) {
        if let Some(variable) = self.variable(number) {
            self.out.add(bytes_of(self.text, variable.name));
        }
    }

    /// Writes the name of a variable, or of an output.
    pub(crate) fn write_operand(&mut self, operand: Operand) {
        match operand {
            Operand::Variable(number) => self.write_name(number),
            Operand::Output(number) => {
                if let Some(instance) = self.instance(number) {
                    self.out.add(bytes_of(self.text, instance.name));
                    self.out.add(match instance.kind.traits().output {
                        Output::Q => b".Q",
                        Output::Q1 => b".Q1",
                    });
                }
            }
        }
    }
}
