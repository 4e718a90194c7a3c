//! Reads one declaration of a block.

ghost use Rattle.std.specs.Prelude.{◌≡◌, ◌≤◌, ◌<◌, ◌||◌, ◌==◌, if◌then◌else◌, length, IfOk, IfSome, Some, None};
ghost use Rattle.diagram_declarations.specs.Kind.{largest_value};
ghost use Rattle.diagram_declarations.specs.Grammar.{bit_word};
ghost use Rattle.diagram_declarations.specs.ReadText.{Gives};
ghost use Rattle.diagram_declarations.specs.ReadWords.{value_of};
ghost use Rattle.diagram_declarations.specs.Name.{same_letters};
ghost use Rattle.diagram_declarations.specs.ReadSteps.{step, misfit};
ghost use Rattle.diagram_declarations.specs.ReadDecls.{expect, body_at, PresetFits};

use crate::decls::{Address, Body, VarKind};
use crate::fault::{Fault, VarRule};
use crate::kind::{BlockKind, Parameter};
use crate::letters::same_letters;
use crate::limits::LARGEST_COUNT;
use crate::text::{token, word_len};
use crate::time::read_time;
use crate::words::{address_of, block_of, short_number};

/// What is expected next in a declaration, with what was read before it.
#[derive(Clone, Copy)]
enum Due {
    /// `AT` or a colon, after the name.
    Place,
    Address,
    /// The colon after an address.
    Colon(VarKind, Address),
    /// The type after an address.
    Bool(VarKind, Address),
    /// The type, where there is no address.
    Type,
    /// `;`, or `:=` before a truth value.
    Initial(VarKind, Option<Address>),
    Bit(VarKind, Option<Address>),
    /// `;`, or `:=` before a preset.
    Preset(BlockKind),
    Opening(BlockKind, Parameter),
    /// The word of the parameter.
    Word(BlockKind, Parameter),
    Assign(BlockKind, Parameter),
    Value(BlockKind, Parameter),
    Closing(Body),
    /// The `;` after a value.
    End(Body),
}

/// What a token leads to: more is expected, or the declaration ends.
#[derive(Clone, Copy)]
enum Next {
    Goes(Due),
    Ends(Body),
}

/// The text after a keyword or mark that is expected next.
#[tactic(auto, unfolding(crate::specs::ReadDecls::expect))]
pub(crate) fn expect<'a>(word: &[u8], text: &'a [u8]) -> Result<&'a [u8], Fault>
    ensures value { Gives (λ rest. rest.now) result (expect word.now text.now) }
    ensures shorter { IfOk result (λ rest. length rest.now < length text.now) }
{
    let (found, rest) = token(text)?;
    if same_letters(found, word) {
        Ok(rest)
    } else {
        Err(Fault {
            rule: VarRule::BadToken,
            left: rest.len(),
        })
    }
}

/// The truth value that a word spells.
fn bit_of(word: &[u8]) -> Option<bool>
    ensures { result ≡ bit_word word.now }
{
    if same_letters(word, b"TRUE") {
        Some(true)
    } else if same_letters(word, b"FALSE") {
        Some(false)
    } else if same_letters(word, b"1") {
        Some(true)
    } else if same_letters(word, b"0") {
        Some(false)
    } else {
        None
    }
}

/// The value of a parameter that a word spells.
fn value_of(form: Parameter, word: &[u8]) -> Option<u32>
    ensures value { result ≡ value_of form word.now }
    ensures fits { IfSome result (λ n. n ≤ largest_value form) }
{
    match form {
        Parameter::Time => read_time(word),
        Parameter::Count => match short_number(word) {
            Some(n) => if n <= LARGEST_COUNT { Some(n) } else { None },
            None => None,
        },
    }
}

/// What the reading of a variable goes on with after this word; None where the word isn't expected.
fn var_step(kind: VarKind, address: Option<Address>, word: &[u8]) -> Option<Next>
    ensures { result ≡ step (Due.Initial kind address) word.now }
{
    if same_letters(word, b";") {
        Some(Next::Ends(Body::Var {
            kind,
            address,
            initial: false,
        }))
    } else if same_letters(word, b":=") {
        Some(Next::Goes(Due::Bit(kind, address)))
    } else {
        None
    }
}

/// What the reading of an instance goes on with after this word; None where the word isn't expected.
fn instance_step(kind: BlockKind, word: &[u8]) -> Option<Next>
    ensures { result ≡ step (Due.Preset kind) word.now }
{
    if same_letters(word, b";") {
        Some(Next::Ends(Body::Instance { kind, preset: 0 }))
    } else if same_letters(word, b":=") {
        let form = kind.traits().parameter?;
        Some(Next::Goes(Due::Opening(kind, form)))
    } else {
        None
    }
}

/// What is expected next, if the word is the one that was expected.
fn on(word: &[u8], due: &[u8], next: Due) -> Option<Next>
    ensures { result ≡ (if same_letters word.now due.now then Some (Next.Goes next) else None) }
{
    if same_letters(word, due) {
        Some(Next::Goes(next))
    } else {
        None
    }
}

/// What the reading of a declaration goes on with after this word; None where the word isn't expected.
fn step(due: Due, word: &[u8]) -> Option<Next>
    ensures { result ≡ step due word.now }
{
    match due {
        Due::Place if same_letters(word, b"AT") => Some(Next::Goes(Due::Address)),
        Due::Place => on(word, b":", Due::Type),
        Due::Address => {
            let (kind, address) = address_of(word)?;
            Some(Next::Goes(Due::Colon(kind, address)))
        }
        Due::Colon(kind, address) => on(word, b":", Due::Bool(kind, address)),
        Due::Bool(kind, address) => on(word, b"BOOL", Due::Initial(kind, Some(address))),
        Due::Type if same_letters(word, b"BOOL") => Some(Next::Goes(Due::Initial(
            VarKind::Memory,
            None,
        ))),
        Due::Type => Some(Next::Goes(Due::Preset(block_of(word)?))),
        Due::Initial(kind, address) => var_step(kind, address, word),
        Due::Bit(kind, address) => {
            let initial = bit_of(word)?;
            Some(Next::Goes(Due::End(Body::Var {
                kind,
                address,
                initial,
            })))
        }
        Due::Preset(kind) => instance_step(kind, word),
        Due::Opening(kind, form) => on(word, b"(", Due::Word(kind, form)),
        Due::Word(kind, form) => on(word, form.word(), Due::Assign(kind, form)),
        Due::Assign(kind, form) => on(word, b":=", Due::Value(kind, form)),
        Due::Value(kind, form) => {
            let preset = value_of(form, word)?;
            Some(Next::Goes(Due::Closing(Body::Instance { kind, preset })))
        }
        Due::Closing(body) => on(word, b")", Due::End(body)),
        Due::End(body) if same_letters(word, b";") => Some(Next::Ends(body)),
        Due::End(_) => None,
    }
}

/// The rule that a word breaks which isn't expected: where a value is expected, the word is no preset, and a mark is no word.
fn misfit(due: Due, word: &[u8]) -> VarRule
    ensures { result ≡ misfit due word.now }
{
    match due {
        Due::Value(..) if word_len(word) > 0 || matches!(word, [b'%', ..]) => VarRule::BadPreset,
        _ => VarRule::BadToken,
    }
}

/// What follows the name of a declaration, up to its `;`.
pub(crate) fn body_at(text: &[u8]) -> Result<(Body, &[u8]), Fault>
    ensures value { Gives (λ x. (x.0, x.1.now)) result (body_at text.now) }
    ensures fits { IfOk result (λ x. PresetFits x.0) }
    ensures shorter { IfOk result (λ x. length x.1.now < length text.now) }
{
    let mut due = Due::Place;
    let mut rest = text;
    loop {
        let (word, after) = token(rest)?;
        match step(due, word) {
            Some(Next::Goes(next)) => due = next,
            Some(Next::Ends(body)) => return Ok((body, after)),
            None => {
                return Err(Fault {
                    rule: misfit(due, word),
                    left: after.len(),
                });
            }
        }
        rest = after;
    }
}
