//! How a program is written.

/// The form of a program in Structured Text.
#[derive(Clone, Copy)]
pub struct Form<'f> {
    /// The name of the program.
    pub name: &'f [u8],
    /// An address with one number is written with two: that of its byte and that of its bit.
    pub bits: bool,
    /// The inputs of bistables are spelled `SET1`, `RESET`, `SET` and `RESET1`, as CODESYS has them.
    pub codesys: bool,
    /// Aliases are written as names.
    pub titles: bool,
    /// Each statement is one that an element of a ladder diagram does by itself.
    pub elements: bool,
}
