//! How close an operator binds.

ghost use Rattle.std.specs.Prelude.{◌≡◌};
ghost use Rattle.st_expression.specs.Grammar.{closer, level_of};

use crate::token::Token;

/// The levels of binding, the closest first: operands and parentheses, NOT, `=` and `<>`, AND, XOR, OR.
#[derive(Clone, Copy, PartialEq, Eq)]
pub(crate) enum Level {
    Primary,
    Complement,
    Equality,
    Conjunction,
    Exclusion,
    Disjunction,
}

/// The next closer level.
pub(crate) fn closer_than(level: Level) -> Option<Level>
    ensures { result ≡ closer level }
{
    match level {
        Level::Primary => None,
        Level::Complement => Some(Level::Primary),
        Level::Equality => Some(Level::Complement),
        Level::Conjunction => Some(Level::Equality),
        Level::Exclusion => Some(Level::Conjunction),
        Level::Disjunction => Some(Level::Exclusion),
    }
}

/// The level of an operator between two expressions; other tokens have none.
pub(crate) fn level_at(token: Token) -> Option<Level>
    ensures { result ≡ level_of token }
{
    match token {
        Token::Equal | Token::Unequal => Some(Level::Equality),
        Token::And => Some(Level::Conjunction),
        Token::Exclusive => Some(Level::Exclusion),
        Token::Or => Some(Level::Disjunction),
        _ => None,
    }
}
