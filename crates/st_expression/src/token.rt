//! The tokens of an expression.

use crate::expression::Operand;

/// A token. `And` is `AND` or `&`, `Unequal` is `<>`. `Other` is whatever no expression has.
#[derive(Clone, Copy)]
pub enum Token {
    Operand(Operand),
    Constant(bool),
    Not,
    Equal,
    Unequal,
    And,
    Exclusive,
    Or,
    Open,
    Close,
    Other,
}
