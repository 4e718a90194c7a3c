//! A law over the definitions: the function does nothing, and its contract is the law.

ghost use Rattle.st_words.specs.Words.{IsUnambiguous};

/// A text has one list of words.
pub fn unambiguous()
    ensures { IsUnambiguous }
{}
