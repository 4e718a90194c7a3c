//! What is written of a simulation.

use crate::column::Column;
use text_drawing::Style;

/// How a film is drawn.
#[derive(Clone, Copy)]
pub struct Film<'a> {
    pub style: Style,
    /// The name that the page of a film has as its title.
    pub title: &'a [u8],
    /// The text of the program.
    pub text: &'a [u8],
    /// The variable of whose coils it is written why they have power, or none.
    pub coil: Option<usize>,
}

/// What a trace has beside its outputs, which of its scans are held and which of its rows are written.
#[derive(Clone, Copy)]
pub struct Watched<'a> {
    pub columns: &'a [Column],
    /// Whether of the rows after the first those are written that aren't like the row before but for the moment; otherwise all are.
    pub changes: bool,
    /// The time between two scans while a record is held, in ms; 0 holds none.
    pub every: u64,
    /// Whether lines tell how far the simulation is.
    pub tells: bool,
}

/// What is written of each scan.
#[derive(Clone, Copy)]
pub(crate) enum Recording<'a> {
    /// A row of the trace.
    Trace,
    /// A row of the trace that has these columns after the outputs.
    Watched(&'a [Column]),
    /// The same of the first scan, and of later ones where something after the moment has changed.
    Changes(&'a [Column]),
    /// A drawing.
    Film(Film<'a>),
    /// What it has changed.
    Waves,
}
