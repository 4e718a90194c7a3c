//! What a trace can have beside its outputs.

/// A column of a trace: what of a variable or of an instance, by its number in order of declaration.
#[derive(Clone, Copy, Debug, PartialEq, Eq)]
pub enum Column {
    /// The value of a variable.
    Value(usize),
    /// The output of an instance: Q, of a bistable Q1.
    Output(usize),
    /// The elapsed time of a timer (ET), in ms.
    Elapsed(usize),
    /// The count of a counter (CV).
    Count(usize),
}
