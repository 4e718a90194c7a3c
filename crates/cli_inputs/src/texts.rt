//! The texts that a request is about.

/// The texts that a request is about, and how much is said of a fault and of a declaration.
#[derive(Drop)]
pub struct Texts {
    pub program: Vec<u8>,
    /// The text of the state, where the request names one.
    pub state: Option<Vec<u8>>,
    /// The text of the stimulus, where the request names one; where it is missing, there are no records.
    pub stimulus: Option<Vec<u8>>,
    /// The text of the trace that is expected, where the request names one; where it is missing, there are no records.
    pub trace: Option<Vec<u8>>,
    /// The text of a HAL file, where the request names one.
    pub hal: Option<Vec<u8>>,
    /// Whether a fault is explained, after its line.
    pub why: bool,
    /// Whether aliases are printed in place of names.
    pub aliases: bool,
}
