//! The codes of docs/user/faults.md, with their pages. `tests/pages.py --write` writes this file.

use crate::{declarations, drawing, exports, files, projects, questions, statements, units, words};

/// The codes, in the order of the document.
pub(crate) const CODES: [&str; 72] = [
    "V1", "V2", "V3", "V4", "V5", "V6", "V7", "V8", "V9", "A1", "G1", "G2", "G3", "G4", "G5", "G6",
    "G7", "G8", "G9", "G10", "G11", "G12", "G13", "G14", "G15", "C1", "C2", "C3", "C4", "C5", "C6",
    "C7", "C8", "C9", "S1", "X1", "X2", "X3", "X4", "X5", "X6", "X7", "P1", "P2", "P3", "P4", "P5",
    "P6", "P7", "P8", "N1", "N2", "N3", "N4", "N5", "N6", "N7", "T1", "T2", "T3", "T4", "T5", "T6",
    "T7", "T8", "T9", "T10", "E1", "E2", "E3", "E4", "usage",
];

/// The page of each code.
pub(crate) const PAGES: [&str; 72] = [
    declarations::V1,
    declarations::V2,
    declarations::V3,
    declarations::V4,
    declarations::V5,
    declarations::V6,
    declarations::V7,
    declarations::V8,
    declarations::V9,
    declarations::A1,
    drawing::G1,
    drawing::G2,
    drawing::G3,
    drawing::G4,
    drawing::G5,
    drawing::G6,
    drawing::G7,
    drawing::G8,
    drawing::G9,
    drawing::G10,
    drawing::G11,
    drawing::G12,
    drawing::G13,
    drawing::G14,
    drawing::G15,
    questions::C1,
    questions::C2,
    questions::C3,
    questions::C4,
    questions::C5,
    questions::C6,
    questions::C7,
    questions::C8,
    questions::C9,
    questions::S1,
    files::X1,
    files::X2,
    files::X3,
    files::X4,
    files::X5,
    files::X6,
    files::X7,
    projects::P1,
    projects::P2,
    projects::P3,
    projects::P4,
    projects::P5,
    projects::P6,
    projects::P7,
    projects::P8,
    units::N1,
    units::N2,
    units::N3,
    units::N4,
    units::N5,
    units::N6,
    units::N7,
    statements::T1,
    statements::T2,
    statements::T3,
    statements::T4,
    statements::T5,
    statements::T6,
    statements::T7,
    statements::T8,
    statements::T9,
    statements::T10,
    exports::E1,
    exports::E2,
    exports::E3,
    exports::E4,
    words::USAGE,
];

/// The titles of all pages, a line each.
pub(crate) const TITLES: &str = "\
V1: a character that is allowed in comments only
V2: a word or mark that isn't allowed here
V3: no name
V4: a name that was declared before
V5: an address that was declared before
V6: no preset for this block
V7: too many variables or instances
V8: the text ends too early
V9: out of memory
A1: an alias that is a name or another alias
G1: something past the right rail
G2: too many lines in a rung
G3: no cell
G4: no joint
G5: a vertical link with a loose end
G6: a cell that nothing feeds
G7: a symbol without a name
G8: a name without a symbol
G9: a name that isn't declared
G10: a name that this symbol can't have
G11: a block without its lower cell, or a lower cell without its block
G12: an instance that is drawn twice
G13: a label or a jump that isn't allowed here
G14: a second jump in a rung
G15: too many rungs
C1: the moment is before the stored one
C2: no coil writes this variable
C3: too many inputs are listed
C4: a listed variable is no input
C5: an input is listed twice
C6: there is no such number
C7: out of memory
C8: there are no such scans
C9: what is assumed is never true
S1: a scan before the stored moment
X1: a file can't be read
X2: a record of the state or the stimulus, or an expression, is bad
X3: an argument is no name of a variable, or no input in a stimulus or an expression
X4: a moment that goes back
X5: a text is too long
X6: a write failed
X7: out of memory
P1: this is no project
P2: a rung that can't be read
P3: a table that can't be read
P4: a section that is no ladder diagram
P5: a section whose rungs don't lead to its last
P6: an element that can't be carried over
P7: too many rungs, variables or blocks
P8: the text isn't the project
N1: this is no PLCopen project
N2: this is no XML document that can be read
N3: no program, or several
N4: the program isn't a ladder diagram
N5: what a program can't have
N6: a program that would be too large
N7: the drawing isn't the diagram
T1: a character that isn't allowed here
T2: another word is due
T3: a name that isn't declared, or is declared twice
T4: a type that a drawing can't have
T5: a statement or an operator that can't be drawn
T6: what a drawing can't read or write of a block
T7: an input that is written
T8: a block that is called twice, or whose preset is missing
T9: a drawing that would be too large
T10: the drawing isn't the statements
E1: the program can't have this name
E2: an address that has two numbers already
E3: a text that would be too large
E4: the text isn't the program
usage: the arguments are not those of a request
";
