//! Expressions, piece by piece.

use crate::symbol::Symbol;

/// A piece of an expression.
#[derive(Clone, Copy, PartialEq)]
pub(crate) enum Piece {
    /// `TRUE` or `FALSE`.
    Constant(bool),
    /// What has the value of a symbol, or the inverse.
    Literal { symbol: Symbol, is_on: bool },
    And,
    Or,
    Open,
    Close,
    /// `NOT` in front of a parenthesis or a constant.
    Not,
}

/// What a symbol has the value of.
pub(crate) fn positive(symbol: Symbol) -> Piece {
    Piece::Literal {
        symbol,
        is_on: true,
    }
}

/// Where a symbol is OFF.
pub(crate) fn negative(symbol: Symbol) -> Piece {
    Piece::Literal {
        symbol,
        is_on: false,
    }
}

/// The symbol that a piece reads.
pub(crate) fn symbol_in(piece: Piece) -> Option<Symbol> {
    match piece {
        Piece::Literal { symbol, .. } => Some(symbol),
        Piece::Constant(_) | Piece::And | Piece::Or | Piece::Open | Piece::Close | Piece::Not => {
            None
        }
    }
}

/// The piece that is all of an expression.
pub(crate) fn only(pieces: &[Piece]) -> Option<Piece> {
    match pieces {
        [piece] => Some(*piece),
        _ => None,
    }
}
