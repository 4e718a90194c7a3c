//! What a look left of a variable.

/// What a look left of a variable. Only a look hands it out.
#[derive(Clone, Copy)]
pub struct Outcome<S> {
    pub(crate) value: S,
}
