//! Expressions as trees.

/// What an expression takes its value from, by its number.
#[derive(Clone, Copy)]
pub enum Operand {
    Variable(usize),
    /// An output of a block.
    Output(usize),
}

/// An expression over BOOL values. `<>` between two of them is `Exclusive`, since it has the value of XOR.
#[derive(Drop)]
pub enum Expression {
    Constant(bool),
    Operand(Operand),
    Not(Box<Expression>),
    Equal(Box<Expression>, Box<Expression>),
    And(Box<Expression>, Box<Expression>),
    Exclusive(Box<Expression>, Box<Expression>),
    Or(Box<Expression>, Box<Expression>),
}
