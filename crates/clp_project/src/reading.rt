//! How a project is read.

/// How a project is read. Where both are false, a program has what the engine runs.
#[derive(Clone, Copy)]
pub struct ReadingOptions {
    /// Whether numbers and sequential charts, which a program can't have, are opened: what they give may be any value, and what they
    /// alone need is left out. They are refused otherwise.
    pub opened: bool,
    /// Whether the second input of an old timer, its control, is taken as ON where nothing is drawn to it. The engine takes it as OFF:
    /// it never lets the time of such a timer pass.
    pub control_on: bool,
}
