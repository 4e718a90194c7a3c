//! Laws over the definitions: the functions do nothing, their contracts are the laws.

ghost use Rattle.assume_comments.specs.Comments.{HaveComments, IsUnambiguous};

/// A text has one list of comments.
pub fn unambiguous()
    ensures { IsUnambiguous }
{}

/// A text that begins with declarations has a list of comments.
pub fn have_comments()
    ensures { HaveComments }
{}
