//! What a contact or a coil does with what it has.

/// How a contact reads its operand (IEC 61131-3:2013, contacts).
#[derive(Clone, Copy, Debug, PartialEq, Eq)]
pub enum Mode {
    /// `| |`: closed where the operand is ON.
    Plain,
    /// `|/|`: closed where the operand is OFF.
    Negated,
    /// `|P|`: closed where the operand has become ON.
    Rising,
    /// `|N|`: closed where the operand has become OFF.
    Falling,
}

/// What a coil does with its link (IEC 61131-3:2013, coils).
#[derive(Clone, Copy, Debug, PartialEq, Eq)]
pub enum CoilMode {
    /// `( )`: the variable takes the link.
    Store,
    /// `(/)`: the variable takes the inverse of the link.
    Inverse,
    /// `(S)`: the variable becomes ON where the link is ON.
    Set,
    /// `(R)`: the variable becomes OFF where the link is ON.
    Reset,
    /// `(P)`: the variable is ON where the link has become ON.
    Rising,
    /// `(N)`: the variable is ON where the link has become OFF.
    Falling,
}
