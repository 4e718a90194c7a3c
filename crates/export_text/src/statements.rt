//! How statements are written.

use crate::names::Names;
use crate::piece::Piece;
use crate::symbol::Symbol;
use crate::text::Text;

/// A line has no more bytes than this where it can be broken before an operator.
pub(crate) const WIDTH: usize = 96;

/// A short argument of a call needs no more bytes than this.
const ARGUMENT: usize = 24;

/// What statements are written with.
#[derive(Clone, Copy)]
pub(crate) struct Style<'n> {
    pub names: &'n Names<'n>,
    /// How many spaces each line begins with.
    pub indent: usize,
}

/// Whether a piece stands between two operands.
fn is_operator(piece: Piece) -> bool {
    matches!(piece, Piece::And | Piece::Or)
}

impl Style<'_> {
    /// How wide the name of a symbol is.
    fn name_width(self, symbol: Symbol) -> usize {
        let (name, suffix) = (self.names.name(symbol), self.names.suffix(symbol));
        name.len().saturating_add(suffix.len())
    }

    /// How wide a piece is.
    fn width(self, piece: Piece) -> usize {
        match piece {
            Piece::Constant(_) => 5,
            Piece::Literal { symbol, is_on } => {
                let width = self.name_width(symbol);
                if is_on {
                    width
                } else {
                    width.saturating_add(4)
                }
            }
            Piece::And | Piece::Or | Piece::Not => 4,
            Piece::Open | Piece::Close => 1,
        }
    }

    /// How wide the operand is that pieces begin with.
    fn operand_width(self, pieces: &[Piece]) -> usize {
        let mut width: usize = 0;
        for piece in pieces {
            if is_operator(*piece) {
                break;
            }
            width = width.saturating_add(self.width(*piece));
        }
        width
    }

    /// Adds an operator: on a new line, where the operand behind it needs one.
    fn operator(self, out: &mut Text, word: &[u8], behind: &[Piece]) {
        let width = out.width().saturating_add(self.operand_width(behind));
        if width.saturating_add(5) > WIDTH {
            out.end_line();
            out.indent(self.indent.saturating_add(2));
        } else {
            out.add(b" ");
        }
        out.add(word);
        out.add(b" ");
    }

    /// Adds the name of a symbol.
    pub(crate) fn name(self, out: &mut Text, symbol: Symbol) {
        out.add(self.names.name(symbol));
        out.add(self.names.suffix(symbol));
    }

    /// Adds a piece of an expression, before others.
    fn piece(self, out: &mut Text, piece: Piece, behind: &[Piece]) {
        match piece {
            Piece::Constant(true) => out.add(b"TRUE"),
            Piece::Constant(false) => out.add(b"FALSE"),
            Piece::Literal { symbol, is_on } => {
                if !is_on {
                    out.add(b"NOT ");
                }
                self.name(out, symbol);
            }
            Piece::And => self.operator(out, b"AND", behind),
            Piece::Or => self.operator(out, b"OR", behind),
            Piece::Open => out.add(b"("),
            Piece::Close => out.add(b")"),
            Piece::Not => out.add(b"NOT "),
        }
    }

    /// Adds an expression.
    pub(crate) fn expression(self, out: &mut Text, pieces: &[Piece]) {
        for number in 0..pieces.len() {
            self.piece(out, pieces[number], &pieces[number + 1..]);
        }
    }

    /// Adds a comma, and begins a new line where little room is left behind it.
    pub(crate) fn comma(self, out: &mut Text) {
        out.add(b",");
        if out.width() > WIDTH - ARGUMENT {
            out.end_line();
            out.indent(self.indent.saturating_add(2));
        } else {
            out.add(b" ");
        }
    }

    /// Begins a line.
    pub(crate) fn begin(self, out: &mut Text, bytes: &[u8]) {
        out.indent(self.indent);
        out.add(bytes);
    }

    /// Adds an assignment.
    pub(crate) fn assign(self, out: &mut Text, symbol: Symbol, pieces: &[Piece]) {
        self.begin(out, b"");
        self.name(out, symbol);
        out.add(b" := ");
        self.expression(out, pieces);
        out.end_with(b";");
    }

    /// Adds an assignment of a constant behind what is on the line already.
    pub(crate) fn latch(self, out: &mut Text, symbol: Symbol, is_set: bool) {
        self.name(out, symbol);
        out.add(if is_set { b" := TRUE;" } else { b" := FALSE;" });
    }

    /// Adds an argument of a call.
    pub(crate) fn argument(self, out: &mut Text, input: &[u8], pieces: &[Piece]) {
        out.add(input);
        out.add(b" := ");
        self.expression(out, pieces);
    }

    /// How much room is left in the line beside the name of a symbol.
    pub(crate) fn room(self, out: &Text, symbol: Symbol) -> usize {
        let width = out.width().saturating_add(self.name_width(symbol));
        WIDTH.saturating_sub(width)
    }
}
