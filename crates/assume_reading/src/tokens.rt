//! What the words of a text are in an expression over the inputs of a program.

ghost use Rattle.std.specs.Prelude.{◌≡◌, ◌==◌, ◌∷◌, [], IfErr, IfNone, IfOk, IfSome, position};
ghost use Rattle.assume_reading.specs.Reading.{AreKnown, is_other, named_among, tokens_of};
ghost use Rattle.assume_reading.specs.Words.{RefusesWords, token_among};
ghost use Rattle.st_words.specs.Places.{spellings};

use crate::fault::AssumptionFault;
use causes_query::source::input_variables;
use diagram_declarations::{Decls, Name, Symbol};
use st_expression::{Operand, Token};
use st_program::{bytes_of, mark_of, token_by};
use st_words::Word;
use std::alloc::Global;

/// Where a number is among some, counted from 0.
fn place_of(numbers: &[usize], number: usize) -> Option<usize>
    ensures { result ≡ position (λ n. n == number) numbers.now }
{
    numbers.iter().position(|n| *n == number)
}

/// The place, among some variables, of the one that a word names.
fn named_among(vars: &[usize], decls: &Decls, word: &[u8]) -> Option<usize>
    ensures { result ≡ named_among vars.now decls.now word.now }
{
    match Name::new(word) {
        Some(name) => match decls.find(&name) {
            Some(Symbol::Var(number)) => place_of(vars, number),
            Some(Symbol::Instance(_)) | None => None,
        },
        None => None,
    }
}

/// What a word is in an expression over some variables.
fn token_among(vars: &[usize], decls: &Decls, word: &[u8]) -> Token
    ensures { result ≡ token_among vars.now decls.now word.now }
{
    let operand = named_among(vars, decls, word).map(Operand::Variable);
    token_by(mark_of(word), operand)
}

/// Whether no expression has the token.
fn is_other(token: Token) -> bool
    ensures { result ≡ is_other token }
{
    matches!(token, Token::Other)
}

/// The first of some words, and what is behind it.
fn first_word(words: &[Word]) -> Option<(Word, &[Word])>
    ensures first { IfSome result (λ x. words.now ≡ x.0 ∷ x.1.now) }
    ensures none { IfNone result (words.now ≡ []) }
{
    match words {
        [word, rest @ ..] => Some((*word, rest)),
        [] => None,
    }
}

/// What each word is in an expression over the inputs; refused is the first that is nothing there.
pub(crate) fn tokens_of(
    alloc: Global,
    decls: &Decls,
    text: &[u8],
    words: &[Word],
) -> Result<Vec<Token>, AssumptionFault>
    ensures tokens { IfOk result (λ tokens. tokens.items ≡ tokens_of decls.now (spellings text.now words.now)) }
    ensures known { IfOk result (λ tokens. AreKnown tokens.items) }
    ensures refused { IfErr result (RefusesWords decls.now text.now words.now) }
{
    let inputs = input_variables(alloc, decls.vars())?;
    let mut tokens = Vec::new(alloc);
    let mut rest = words;
    while let Some((word, behind)) = first_word(rest) {
        let token = token_among(&inputs, decls, bytes_of(text, word));
        if is_other(token) {
            return Err(AssumptionFault::NotAnInput {
                start: word.start,
                end: word.end,
            });
        }
        tokens.push(token)?;
        rest = behind;
    }
    Ok(tokens)
}
