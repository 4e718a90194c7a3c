//! Laws over the definitions: each function does nothing, and its contract is the law.

ghost use Rattle.st_expression.specs.Laws.{HasTokens, IsEitherWay, IsUnambiguous};

/// The same tokens are no two expressions of different value.
pub fn unambiguous()
    ensures { IsUnambiguous }
{}

/// It doesn't matter from which end a chain of operators of one level is read.
pub fn either_way()
    ensures { IsEitherWay }
{}

/// The tokens of an expression are those before the rest.
pub fn tokens()
    ensures { HasTokens }
{}
