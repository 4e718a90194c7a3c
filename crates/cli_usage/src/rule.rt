//! What a rule says of the words of a command line.

/// A word of a command line, as a rule speaks of it.
#[derive(Debug)]
pub enum Term {
    /// An option without a value, by its name.
    Flag(&'static str),
    /// An option with a value, by its name.
    Valued(&'static str),
    /// An option with this value.
    Value(&'static str, &'static str),
    /// A word that is known by its place, and what it is called in help.
    Place(&'static str, &'static str),
}

/// A rule, which is about the words where all the terms of its first list are there.
#[derive(Debug)]
pub enum Rule {
    /// One of the other terms has to be there.
    Wants(&'static [Term], &'static [Term]),
    /// None of the other terms may be there.
    Excludes(&'static [Term], &'static [Term]),
}
