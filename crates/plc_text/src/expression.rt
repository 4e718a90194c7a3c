//! Expressions that have the power on the left of something.

use crate::blocks::{TRIGGERED, output_of};
use crate::diagram::{Diagram, refused};
use crate::fault::{PlcFault, PlcReason};
use crate::text::Text;
use network_power::{Element, Links};
use st_expression::Operand;

/// Expressions aren't nested deeper than this.
const DEPTH: usize = 200;

/// What begins at a place of a network.
#[derive(Clone, Copy)]
enum Literal {
    Rail,
    Read { operand: Operand, negated: bool },
}

/// Where power comes from.
#[derive(Clone, Copy)]
enum Origin<'a> {
    /// The left end.
    End,
    Elements(&'a [usize]),
}

/// An element by what it is in an expression.
#[derive(Clone, Copy)]
struct Term<'a> {
    literal: Literal,
    origin: Origin<'a>,
}

/// Neighbours with the same origin.
#[derive(Clone, Copy)]
struct Run<'a> {
    ids: &'a [usize],
    origin: Origin<'a>,
    /// The elements behind them.
    rest: &'a [usize],
}

/// Whether both are the left end, or the same elements.
fn is_one_origin(first: Origin<'_>, second: Origin<'_>) -> bool {
    match (first, second) {
        (Origin::End, Origin::End) => true,
        (Origin::Elements(ids), Origin::Elements(others)) => ids == others,
        _ => false,
    }
}

impl<'d> Diagram<'d> {
    /// What is connected on the left of a coil that is the only one of some elements.
    fn before_coil<'a>(&'a self, ids: &[usize]) -> Option<&'a [usize]> {
        let [id] = ids else {
            return None;
        };
        match self.elements.at(*id)? {
            Element::Coil { left } => Some(self.left(left)),
            _ => None,
        }
    }

    /// The elements from which coils alone lead to these.
    fn unwired<'a>(&'a self, ids: &'a [usize]) -> &'a [usize] {
        let mut near = ids;
        for _ in 0..self.elements.len() {
            let Some(left) = self.before_coil(near) else {
                return near;
            };
            near = left;
        }
        near
    }

    /// Whether a rail is among some elements.
    fn has_rail(&self, ids: &[usize]) -> bool {
        for id in ids {
            if let Some(Element::Rail) = self.elements.at(*id) {
                return true;
            }
        }
        false
    }

    /// Where the power of a contact comes from. There has to be something.
    fn origin_of<'a>(&'a self, id: usize, left: Links) -> Result<Origin<'a>, PlcFault> {
        let ids = self.unwired(self.left(left));
        if ids.is_empty() {
            return Err(refused(self.number(id), PlcReason::Unconnected));
        }
        if self.has_rail(ids) {
            Ok(Origin::End)
        } else {
            Ok(Origin::Elements(ids))
        }
    }

    /// The first of some elements.
    fn term_of<'a>(&'a self, ids: &'a [usize]) -> Result<Term<'a>, PlcFault> {
        let [first, ..] = ids else {
            return Err(PlcFault::TooLarge);
        };
        let [id] = self.unwired(&ids[..1]) else {
            return Err(refused(self.number(*first), PlcReason::Parallel));
        };
        match self.elements.at(*id) {
            Some(Element::Rail) if id == first => Ok(Term {
                literal: Literal::Rail,
                origin: Origin::End,
            }),
            Some(Element::Output { operand }) => Ok(Term {
                literal: Literal::Read {
                    operand,
                    negated: false,
                },
                origin: Origin::End,
            }),
            Some(
                Element::Contact {
                    negated,
                    operand,
                    left,
                },
            ) => Ok(Term {
                literal: Literal::Read { operand, negated },
                origin: self.origin_of(*id, left)?,
            }),
            _ => Err(refused(self.number(*first), PlcReason::Parallel)),
        }
    }

    /// The first ones of some elements that have the same origin.
    fn run_of<'a>(&'a self, ids: &'a [usize]) -> Result<Run<'a>, PlcFault> {
        let origin = self.term_of(ids)?.origin;
        for at in 1..ids.len() {
            let other = self.term_of(&ids[at..])?.origin;
            if !is_one_origin(origin, other) {
                return Ok(Run {
                    ids: &ids[..at],
                    origin,
                    rest: &ids[at..],
                });
            }
        }
        Ok(Run {
            ids,
            origin,
            rest: &[],
        })
    }

    /// Writes an operand.
    fn write_operand(&self, out: &mut Text, operand: Operand) {
        match operand {
            Operand::Variable(number) => {
                out.add(self.symbols.variable_name(number));
                if self.symbols.is_trigger(number) {
                    out.add(b".");
                    out.add(TRIGGERED);
                }
            }
            Operand::Output(number) => {
                out.add(self.symbols.block_name(number));
                out.add(b".");
                if let Some(kind) = self.symbols.block(number) {
                    out.add(output_of(kind));
                }
            }
        }
    }

    /// Writes a literal.
    fn write_literal(&self, out: &mut Text, literal: Literal) {
        match literal {
            Literal::Rail => out.add(b"TRUE"),
            Literal::Read { operand, negated } => {
                out.add_if(negated, b"NOT ");
                self.write_operand(out, operand);
            }
        }
    }

    /// Writes the elements of a run, without what leads to them. Rails that are neighbours are written once.
    fn write_run(&self, out: &mut Text, ids: &[usize]) -> Result<(), PlcFault> {
        let mut behind_rail = false;
        for at in 0..ids.len() {
            let literal = self.term_of(&ids[at..])?.literal;
            let is_rail = matches!(literal, Literal::Rail);
            if !(is_rail && behind_rail) {
                out.add_if(at > 0, b" OR ");
                self.write_literal(out, literal);
            }
            behind_rail = is_rail;
        }
        Ok(())
    }

    /// Whether the expression of some elements is an OR.
    fn is_sum(&self, ids: &[usize]) -> Result<bool, PlcFault> {
        let run = self.run_of(ids)?;
        Ok(match run.origin {
            Origin::End => ids.len() > 1,
            Origin::Elements(_) => !run.rest.is_empty(),
        })
    }

    /// Writes the expression of some elements, which has so many others within one another.
    fn write_sum(&self, out: &mut Text, ids: &[usize], left: usize) -> Result<(), PlcFault> {
        if left == 0 || out.is_full() {
            return Err(PlcFault::TooLarge);
        }
        let mut rest = ids;
        for _ in 0..ids.len() {
            let run = self.run_of(rest)?;
            let mut is_joined = false;
            if let Origin::Elements(before) = run.origin {
                let is_sum = self.is_sum(before)?;
                out.add_if(is_sum, b"(");
                self.write_sum(out, before, left - 1)?;
                out.add(if is_sum { b") AND " } else { b" AND " });
                is_joined = run.ids.len() > 1;
            }
            out.add_if(is_joined, b"(");
            self.write_run(out, run.ids)?;
            out.add_if(is_joined, b")");
            rest = run.rest;
            if rest.is_empty() {
                return Ok(());
            }
            out.add(b" OR ");
        }
        Ok(())
    }

    /// Writes the expression that has the power on the left of something.
    pub(crate) fn write_power(&self, out: &mut Text, links: Links) -> Result<(), PlcFault> {
        let ids = self.left(links);
        if ids.is_empty() {
            out.add(b"FALSE");
            return Ok(());
        }
        self.write_sum(out, self.unwired(ids), DEPTH)
    }
}
