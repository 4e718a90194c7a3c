//! The elements of a diagram.

use crate::diagram::{Diagram, RAIL, ROW, START, Spot, WIRE};
use io_table::Part;
use st_expression::Operand;

/// How wide and how high a contact and a coil is, and how far below its top its wire is.
const WIDTH: usize = 21;

const HEIGHT: usize = 15;

const MIDDLE: usize = 8;

/// How wide a rail is.
const RAIL_WIDTH: usize = 10;

/// How wide and how high a label, a jump and a return is.
const FLAG_WIDTH: usize = 60;

const FLAG_HEIGHT: usize = 20;

/// How wide and how high a preset is.
pub(crate) const PRESET_WIDTH: usize = 70;

pub(crate) const PRESET_HEIGHT: usize = 30;

/// What a coil does.
#[derive(Clone, Copy)]
pub(crate) enum Coil {
    Plain,
    Negated,
    Set,
    Reset,
}

impl Diagram<'_> {
    /// Begins an element. Its number.
    pub(crate) fn begin(&mut self, name: &[u8]) -> usize {
        self.elements = self.elements.saturating_add(1);
        self.out.add(b"          <");
        self.out.add(name);
        self.out.number(b"localId", self.elements);
        self.elements
    }

    /// Writes how large an element is.
    pub(crate) fn size(&mut self, width: usize, height: usize) {
        self.out.number(b"width", width);
        self.out.number(b"height", height);
    }

    /// Writes the next number in the order of execution.
    pub(crate) fn order(&mut self) {
        self.ordered = self.ordered.saturating_add(1);
        self.out.number(b"executionOrderId", self.ordered);
    }

    /// Ends the attributes of an element, and writes where it stands.
    pub(crate) fn stand(&mut self, x: usize, y: usize) {
        self.out.add(b">");
        self.out.place(b"position", x, y);
    }

    /// Writes what is connected on the left of something, at a place of the element.
    pub(crate) fn write_left(&mut self, y: usize, left: Part) {
        self.out.add(b"<connectionPointIn>");
        self.out.place(b"relPosition", 0, y);
        for place in left.from..left.to {
            if let Some(element) = self.links.at(place) {
                self.out.add(b"<connection");
                self.out.number(b"refLocalId", element);
                self.out.add(b"/>");
            }
        }
        self.out.add(b"</connectionPointIn>");
    }

    /// Writes where the right of something is.
    pub(crate) fn write_right(&mut self, x: usize, y: usize) {
        self.out.add(b"<connectionPointOut>");
        self.out.place(b"relPosition", x, y);
        self.out.add(b"</connectionPointOut>");
    }

    /// Writes a left rail beside so many rows, and that it is connected.
    pub(crate) fn write_rail(&mut self, rows: usize) -> Part {
        let rail = self.begin(b"leftPowerRail");
        self.size(RAIL_WIDTH, rows.saturating_mul(ROW));
        self.stand(RAIL, self.top);
        self.out.add(b"<connectionPointOut formalParameter=\"\">");
        self.out.place(b"relPosition", RAIL_WIDTH, WIRE);
        self.out.add(b"</connectionPointOut></leftPowerRail>\n");
        self.alone(rail)
    }

    /// Writes a right rail, with a coil on its left.
    pub(crate) fn write_right_rail(&mut self, spot: Spot, coil: usize) {
        let left = self.alone(coil);
        let _rail = self.begin(b"rightPowerRail");
        self.size(RAIL_WIDTH, ROW);
        self.stand(spot.x(), self.top);
        self.write_left(WIRE, left);
        self.out.add(b"</rightPowerRail>\n");
    }

    /// Writes a contact, and that it is connected.
    pub(crate) fn write_contact(
        &mut self,
        negated: bool,
        operand: Operand,
        left: Part,
        spot: Spot,
    ) -> Part {
        let contact = self.begin(b"contact");
        self.size(WIDTH, HEIGHT);
        self.out
            .attribute(b"negated", if negated { b"true" } else { b"false" });
        self.stand(spot.x(), self.wire(spot).saturating_sub(MIDDLE));
        self.write_left(MIDDLE, left);
        self.write_right(WIDTH, MIDDLE);
        self.out.add(b"<variable>");
        self.write_operand(operand);
        self.out.add(b"</variable></contact>\n");
        self.alone(contact)
    }

    /// Writes a coil. Its number.
    pub(crate) fn write_coil(
        &mut self,
        coil: Coil,
        variable: usize,
        left: Part,
        spot: Spot,
    ) -> usize {
        let number = self.begin(b"coil");
        self.size(WIDTH, HEIGHT);
        self.order();
        self.out.add(match coil {
            Coil::Plain => b" negated=\"false\" storage=\"none\"",
            Coil::Negated => b" negated=\"true\" storage=\"none\"",
            Coil::Set => b" negated=\"false\" storage=\"set\"",
            Coil::Reset => b" negated=\"false\" storage=\"reset\"",
        });
        self.stand(spot.x(), self.wire(spot).saturating_sub(MIDDLE));
        self.write_left(MIDDLE, left);
        self.write_right(WIDTH, MIDDLE);
        self.out.add(b"<variable>");
        self.write_name(variable);
        self.out.add(b"</variable></coil>\n");
        number
    }

    /// Writes a return.
    pub(crate) fn write_return(&mut self, left: Part, spot: Spot) {
        let _number = self.begin(b"return");
        self.size(FLAG_WIDTH, FLAG_HEIGHT);
        self.order();
        self.stand(spot.x(), self.wire(spot).saturating_sub(FLAG_HEIGHT / 2));
        self.write_left(FLAG_HEIGHT / 2, left);
        self.out.add(b"</return>\n");
    }

    /// Writes the name of a label as an attribute.
    fn label(&mut self, label: usize) {
        self.out.add(b" label=\"L");
        self.out.add_number(label);
        self.out.add(b"\"");
    }

    /// Writes a jump to the label with a number.
    pub(crate) fn write_jump(&mut self, label: usize, left: Part, spot: Spot) {
        let _number = self.begin(b"jump");
        self.size(FLAG_WIDTH, FLAG_HEIGHT);
        self.order();
        self.label(label);
        self.stand(spot.x(), self.wire(spot).saturating_sub(FLAG_HEIGHT / 2));
        self.write_left(FLAG_HEIGHT / 2, left);
        self.out.add(b"</jump>\n");
    }

    /// Writes the label with a number, as a network of its own.
    pub(crate) fn write_label(&mut self, label: usize) {
        let _number = self.begin(b"label");
        self.size(FLAG_WIDTH, FLAG_HEIGHT);
        self.order();
        self.label(label);
        self.stand(RAIL, self.wire(START).saturating_sub(FLAG_HEIGHT / 2));
        self.out.add(b"</label>\n");
        self.end_network(1);
    }
}
