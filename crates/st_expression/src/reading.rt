//! An expression, read from the left.

ghost use Rattle.std.specs.Prelude.{◌≡◌, ◌∷◌, [], ◌+◌, ◌<◌, ◌↔◌, List, length, None, Some, Err, IfErr, IfOk, IfSome, IsSome, IsTrue};
ghost use Rattle.st_expression.specs.Grammar.{IsExpression, IsNot, Joins, NoOperator, level_of, nesting};
ghost use Rattle.st_expression.specs.Steps.{Begins, Fails, NotAt};
ghost use Rattle.st_expression.specs.declared.expression.Expression.{Expression};
ghost use Rattle.st_expression.specs.declared.fault.ReadFault.TheVariants.{Memory, NoExpression, TooDeep};
ghost use Rattle.st_expression.specs.declared.level.Level.TheVariants.{Complement};
ghost use Rattle.st_expression.specs.declared.token.Token.{Token};
ghost use Rattle.st_expression.specs.declared.token.Token.TheVariants.{Close, Not};

use crate::expression::Expression;
use crate::fault::ReadFault;
use crate::level::{Level, closer_than, level_at};
use crate::token::Token;
use std::alloc::Global;

/// How many parentheses, NOTs and operators may stand within one another. The operators of a chain do, from the right.
pub const DEPTH: usize = 100;

/// The first token and those behind it.
fn first_of(tokens: &[Token]) -> Result<(Token, &[Token]), ReadFault>
    ensures first { IfOk result (λ x. tokens.now ≡ x.0 ∷ x.1.now) }
    ensures none { IfErr result (λ f. (f ≡ NoExpression) × (tokens.now ≡ [])) }
{
    match tokens {
        [token, rest @ ..] => Ok((*token, rest)),
        [] => Err(ReadFault::NoExpression),
    }
}

/// One less.
fn fewer(left: usize) -> Result<usize, ReadFault>
    ensures fewer { IfOk result (λ n. n + 1 ≡ left) }
    ensures none { IfErr result (λ f. (f ≡ TooDeep) × (left ≡ 0)) }
{
    if left == 0 {
        return Err(ReadFault::TooDeep);
    }
    Ok(left - 1)
}

/// The tokens behind a closing parenthesis.
fn behind_close(tokens: &[Token]) -> Result<&[Token], ReadFault>
    ensures close { IfOk result (λ rest. tokens.now ≡ Close ∷ rest.now) }
    ensures none { IfErr result (λ f. (f ≡ NoExpression) × ((rest : List Token) → tokens.now ≡ Close ∷ rest → ⊥)) }
{
    match tokens {
        [Token::Close, rest @ ..] => Ok(rest),
        _ => Err(ReadFault::NoExpression),
    }
}

/// The operator of a level that begins the tokens, and the tokens behind it.
fn operator_of(level: Level, tokens: &[Token]) -> Option<(Token, &[Token])>
    ensures operator { IfSome result (λ x. tokens.now ≡ x.0 ∷ x.1.now) }
    ensures level { IfSome result (λ x. level_of x.0 ≡ Some level) }
    ensures none { result ≡ None → NotAt level tokens.now }
{
    let [token, rest @ ..] = tokens else {
        return None;
    };
    match level_at(*token) {
        Some(found) if found == level => Some((*token, rest)),
        _ => None,
    }
}

/// The token is a NOT where one may stand.
fn begins_complement(level: Level, token: Token) -> bool
    ensures { IsTrue result ↔ (level ≡ Complement) × (token ≡ Not) }
{
    matches!((level, token), (Level::Complement, Token::Not))
}

/// NOT of an expression.
fn complement_of(alloc: Global, negated: Expression) -> Result<Expression, ReadFault>
    ensures not { IfOk result (λ e. IsNot negated e) }
    ensures memory { IfErr result (λ f. f ≡ Memory) }
{
    Ok(Expression::Not(Box::new(alloc, negated)?))
}

/// Two expressions with an operator between them.
fn join(
    alloc: Global,
    operator: Token,
    first: Expression,
    second: Expression,
) -> Result<Expression, ReadFault>
    requires { IsSome (level_of operator) }
    ensures joined { IfOk result (λ e. Joins operator first second e) }
    ensures memory { IfErr result (λ f. f ≡ Memory) }
{
    let first = Box::new(alloc, first)?;
    let second = Box::new(alloc, second)?;
    Ok(match operator {
        Token::Equal => Expression::Equal(first, second),
        Token::And => Expression::And(first, second),
        Token::Or => Expression::Or(first, second),
        _ => Expression::Exclusive(first, second),
    })
}

/// The expression of a level at the start of the tokens, and the tokens behind it; `left` more may stand within one another.
fn read_level(
    alloc: Global,
    level: Level,
    left: usize,
    tokens: &[Token],
) -> Result<(Expression, &[Token]), ReadFault>
    ensures read { IfOk result (λ x. Begins level tokens.now x.1.now x.0) }
    ensures shorter { IfOk result (λ x. length x.1.now < length tokens.now) }
    ensures fault { IfErr result (Fails level left tokens.now) }
{
    let (token, inside) = first_of(tokens)?;
    let Some(tight) = closer_than(level) else {
        return match token {
            Token::Operand(operand) => Ok((Expression::Operand(operand), inside)),
            Token::Constant(on) => Ok((Expression::Constant(on), inside)),
            Token::Open => {
                let within = fewer(left)?;
                let (expression, after) = read_level(alloc, Level::Disjunction, within, inside)?;
                Ok((expression, behind_close(after)?))
            }
            _ => Err(ReadFault::NoExpression),
        };
    };
    if begins_complement(level, token) {
        let within = fewer(left)?;
        let (negated, rest) = read_level(alloc, Level::Complement, within, inside)?;
        return Ok((complement_of(alloc, negated)?, rest));
    }
    let (first, after) = read_level(alloc, tight, left, tokens)?;
    let Some((operator, others)) = operator_of(level, after) else {
        return Ok((first, after));
    };
    let within = fewer(left)?;
    let (second, rest) = read_level(alloc, level, within, others)?;
    Ok((join(alloc, operator, first, second)?, rest))
}

/// The expression at the start of the tokens, the longest one, and the tokens behind it.
pub fn read_expression(alloc: Global, tokens: &[Token]) -> Result<(Expression, &[Token]), ReadFault>
    ensures read { IfOk result (λ x. IsExpression tokens.now x.1.now x.0) }
    ensures longest { IfOk result (λ x. NoOperator x.1.now) }
    ensures none { result ≡ Err NoExpression → (rest : List Token) (e : Expression)
        → IsExpression tokens.now rest e → NoOperator rest → ⊥ }
    ensures too_deep { result ≡ Err TooDeep → DEPTH < nesting tokens.now }
{
    read_level(alloc, Level::Disjunction, DEPTH, tokens)
}
