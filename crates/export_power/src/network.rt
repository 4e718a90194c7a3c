//! A rung, and how far its statements have come.

use crate::known::Known;
use diagram_program::Program;
use diagram_program::gates::Action;

/// A rung of a program, the variables that stand for something in it, and the cells whose effects the statements have had.
#[derive(Clone, Copy)]
pub struct Network<'a> {
    pub program: &'a Program,
    pub rung: usize,
    pub known: &'a [Known],
    pub done: &'a [Action],
}
