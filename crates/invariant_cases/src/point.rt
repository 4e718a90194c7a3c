//! What cases can be made of.

/// What a scan begins with: the value of a variable, which for an input is the one that it is given, the Q of an instance, the memory of an
/// edge contact or an edge coil, or what an instance answers in the scan.
#[derive(Clone, Copy, Debug, PartialEq, Eq)]
pub enum Point {
    Variable(usize),
    Output(usize),
    Memory(usize),
    Answer(usize),
}
