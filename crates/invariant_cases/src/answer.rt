//! What an instance answers in its next step.

/// What Q is after the step of a timer or a counter, where neither its preset nor its second input tells it: OFF, ON, or what its first
/// input is, as what is stored and the moment decide; or open, where that isn't known.
#[derive(Clone, Copy, Debug, PartialEq, Eq)]
pub enum Answer {
    Off,
    On,
    Input,
    Open,
}
