//! What the words of statements are, with what their names stand for.

ghost use Rattle.std.specs.Prelude.{◌≡◌, ◌==◌, ◌≤◌, ◌+◌, ◌++◌, true, IfOk, OnOk, position, drop, take, length, IfSome};
ghost use Rattle.diagram_declarations.specs.Kind.{traits_of};
ghost use Rattle.st_words.specs.Places.{spelled};
ghost use Rattle.st_program.specs.Items.{AreItems, IsCompared, IsItem, IsLiteral, alone, compared, comparison, comparison_token, equality_of, is_input, is_input_address, is_loose, member, named_of, of_variable, operand_of, output_word, token_by, values_in};
ghost use Rattle.st_program.specs.Symbols.{table};

use crate::declarations::integer_of;
use crate::fault::Refusal;
use crate::formal::{Formal, formal_of};
use crate::mark::{Mark, mark_of};
use crate::phrases::first_word;
use crate::preset::preset_of;
use crate::spelling::{bytes_of, is_name};
use crate::symbols::{Section, Sort, StVariable, Symbols, block_of, variable_of};
use diagram_declarations::{BlockKind, Output, Parameter, same_letters};
use st_expression::{Operand, Token};
use st_integers::{IntegerValue, variable_with};
use st_words::Word;
use std::alloc::{AllocError, Global};

/// What a word names.
#[derive(Clone, Copy)]
pub(crate) enum Named {
    /// Nothing that is declared.
    Nothing,
    Variable {
        number: usize,
        is_input: bool,
    },
    /// The output of a trigger is the variable of this number.
    Trigger {
        number: usize,
        falling: bool,
    },
    Block {
        number: usize,
        kind: BlockKind,
        preset: Option<u32>,
    },
    /// An INT goes by the number of the variable that stands where it is declared.
    Integer(usize),
    /// It is a comparison of an INT with a number.
    Compared,
}

/// What a word is as a preset.
#[derive(Clone, Copy)]
pub(crate) enum Literal {
    Nothing,
    Time(u32),
    Count(u32),
}

/// A word of a statement.
#[derive(Clone, Copy)]
pub(crate) struct Item {
    pub word: Word,
    pub mark: Mark,
    /// What it is in an expression.
    pub token: Token,
    pub named: Named,
    /// What it is before the `:=` or `=>` of an argument.
    pub formal: Formal,
    pub literal: Literal,
    /// It has a point behind a name that is declared: a fault in it is one of a member.
    pub is_member: bool,
    /// It has the form of a name: a fault in it may be that it isn't declared.
    pub is_name: bool,
}

/// Whether the bytes of an address are those of an input.
fn is_input_address(address: &[u8]) -> bool
    ensures { result ≡ is_input_address address.now }
{
    matches!(address, [b'%', b'I' | b'i', ..])
}

/// Whether a variable is an input, which no statement writes.
fn is_input(text: &[u8], variable: StVariable) -> bool
    ensures { result ≡ is_input text.now variable }
{
    match (variable.section, variable.address) {
        (Section::Input, _) => true,
        (_, Some(address)) => is_input_address(bytes_of(text, address)),
        (_, None) => false,
    }
}

/// What the name of a variable stands for.
fn of_variable(text: &[u8], variable: StVariable, number: usize) -> Named
    ensures { result ≡ of_variable text.now variable number }
{
    match variable.sort {
        Sort::Bool => Named::Variable {
            number,
            is_input: is_input(text, variable),
        },
        Sort::Rising => Named::Trigger {
            number,
            falling: false,
        },
        Sort::Falling => Named::Trigger {
            number,
            falling: true,
        },
        Sort::Value(value) => Named::Integer(value.integer),
    }
}

/// What a word names.
#[tactic(auto, unfolding(crate::specs::Items::named_of))]
pub(crate) fn named_of(text: &[u8], symbols: &Symbols, word: &[u8]) -> Named
    ensures { result ≡ named_of text.now (table symbols.now) word.now }
{
    if let Some(number) = variable_of(text, &symbols.variables, word) {
        return match symbols.variables.get(number) {
            Some(variable) => of_variable(text, *variable, number),
            None => Named::Nothing,
        };
    }
    let Some(number) = block_of(text, &symbols.blocks, word) else {
        return Named::Nothing;
    };
    match symbols.blocks.get(number) {
        Some(block) => Named::Block {
            number,
            kind: block.kind,
            preset: block.preset,
        },
        None => Named::Nothing,
    }
}

/// How the output of a kind of blocks is spelled.
fn output_word(kind: BlockKind) -> &'static [u8]
    ensures { result.now ≡ output_word kind }
{
    match kind.traits().output {
        Output::Q => b"Q",
        Output::Q1 => b"Q1",
    }
}

/// The operand of a name by itself.
fn alone(named: Named) -> Option<Operand>
    ensures { result ≡ alone named }
{
    match named {
        Named::Variable { number, .. } => Some(Operand::Variable(number)),
        _ => None,
    }
}

/// The operand of a name and the word behind its point.
fn member(named: Named, output: &[u8]) -> Option<Operand>
    ensures { result ≡ member named output.now }
{
    match named {
        Named::Trigger { number, .. } if same_letters(output, b"Q") => {
            Some(Operand::Variable(number))
        }
        Named::Block { number, kind, .. } if same_letters(output, output_word(kind)) => {
            Some(Operand::Output(number))
        }
        _ => None,
    }
}

/// Where the first point of a word is.
fn point_of(word: &[u8]) -> Option<usize>
    ensures value { result ≡ position (λ b. b == 46) word.now }
    ensures within { IfSome result (λ at. at + 1 ≤ length word.now) }
{
    word.iter().position(|b| *b == b'.')
}

/// The operand that a word is, as `Lamp`, `T1.Q` or `B1.Q1`.
#[tactic(auto, unfolding(crate::specs::Items::operand_of))]
fn operand_of(text: &[u8], symbols: &Symbols, word: &[u8]) -> Option<Operand>
    ensures { result ≡ operand_of text.now (table symbols.now) word.now }
{
    match point_of(word) {
        None => alone(named_of(text, symbols, word)),
        Some(at) => member(named_of(text, symbols, &word[..at]), &word[at + 1..]),
    }
}

/// What a word is in an expression: by what it is as a keyword or a symbol, else by the operand that it names.
pub fn token_by(mark: Mark, operand: Option<Operand>) -> Token
    ensures { result ≡ token_by mark operand }
{
    match mark {
        Mark::On => Token::Constant(true),
        Mark::Off => Token::Constant(false),
        Mark::Not => Token::Not,
        Mark::And => Token::And,
        Mark::Or => Token::Or,
        Mark::Exclusive => Token::Exclusive,
        Mark::Equal => Token::Equal,
        Mark::Unequal => Token::Unequal,
        Mark::Open => Token::Open,
        Mark::Close => Token::Close,
        Mark::Other => match operand {
            Some(operand) => Token::Operand(operand),
            None => Token::Other,
        },
        _ => Token::Other,
    }
}

/// What a word is as a preset.
fn literal_of(word: &[u8]) -> Literal
    ensures { IsLiteral word.now result }
{
    if let Some(time) = preset_of(Parameter::Time, word) {
        return Literal::Time(time);
    }
    match preset_of(Parameter::Count, word) {
        Some(count) => Literal::Count(count),
        None => Literal::Nothing,
    }
}

/// Whether a word has a point behind a name that is declared.
fn is_member(text: &[u8], symbols: &Symbols, word: &[u8]) -> bool {
    match point_of(word) {
        Some(at) => !matches!(named_of(text, symbols, &word[..at]), Named::Nothing),
        None => false,
    }
}

/// All that a word is.
fn item_of(text: &[u8], symbols: &Symbols, word: Word) -> Item
    ensures { IsItem text.now (table symbols.now) word result }
{
    let spelling = bytes_of(text, word);
    let mark = mark_of(spelling);
    Item {
        word,
        mark,
        token: token_by(mark, operand_of(text, symbols, spelling)),
        named: named_of(text, symbols, spelling),
        formal: formal_of(spelling),
        literal: literal_of(spelling),
        is_member: is_member(text, symbols, spelling),
        is_name: is_name(spelling),
    }
}

/// What an operand is that is TRUE where an INT has the value of a variable; FALSE where there is none.
fn comparison_token(number: Option<usize>) -> Token
    ensures { result ≡ comparison_token number }
{
    match number {
        Some(number) => Token::Operand(Operand::Variable(number)),
        None => Token::Constant(false),
    }
}

/// A comparison, or the NOT before one.
fn compared(word: Word, mark: Mark, token: Token) -> Item
    ensures { result ≡ compared word mark token }
{
    Item {
        word,
        mark,
        token,
        named: Named::Compared,
        formal: Formal::Other,
        literal: Literal::Nothing,
        is_member: false,
        is_name: false,
    }
}

/// Whether a sign asks for being equal, or unequal.
fn equality_of(sign: Mark) -> Option<bool>
    ensures { result ≡ equality_of sign }
{
    match sign {
        Mark::Equal => Some(true),
        Mark::Unequal => Some(false),
        _ => None,
    }
}

/// Whether a comparison may stand behind a word.
fn is_loose(mark: Mark) -> bool
    ensures { result ≡ is_loose mark }
{
    !matches!(mark, Mark::Not | Mark::Equal | Mark::Unequal)
}

/// A comparison of an INT with a number.
#[derive(Clone, Copy)]
struct Comparison {
    name: Word,
    is_equal: bool,
    /// The variable that is on while the INT has the number.
    number: Option<usize>,
}

/// The comparison that words begin with, and what is behind it.
fn comparison_at<'a>(
    text: &[u8],
    symbols: &Symbols,
    values: &[Option<IntegerValue>],
    words: &'a [Word],
) -> Option<(Comparison, &'a [Word])>
    requires { values.now ≡ values_in (table symbols.now) }
    ensures { IfSome result (λ x. IsCompared text.now (table symbols.now) words.now x.1.now x.0.name x.0.is_equal x.0.number) }
{
    let (name, behind_name) = first_word(words)?;
    let (sign, behind_sign) = first_word(behind_name)?;
    let (digits, rest) = first_word(behind_sign)?;
    let Named::Integer(integer) = named_of(text, symbols, bytes_of(text, name)) else {
        return None;
    };
    let is_equal = equality_of(mark_of(bytes_of(text, sign)))?;
    let value = integer_of(bytes_of(text, digits))?;
    let comparison = Comparison {
        name,
        is_equal,
        number: variable_with(values, integer, value),
    };
    Some((comparison, rest))
}

/// Adds what a comparison is.
fn add_comparison(items: &mut Vec<Item>, made: Comparison) -> Result<(), AllocError>
    ensures { OnOk result (items.new.items ≡ items.old.items ++ comparison made.name made.is_equal made.number) }
{
    let Comparison {
        name,
        is_equal,
        number,
    } = made;
    if !is_equal {
        items.push(compared(name, Mark::Not, Token::Not))?;
    }
    items.push(compared(name, Mark::Other, comparison_token(number)))?;
    Ok(())
}

/// All that the words are.
pub(crate) fn items_of(
    alloc: Global,
    text: &[u8],
    symbols: &Symbols,
    values: &[Option<IntegerValue>],
    words: &[Word],
) -> Result<Vec<Item>, Refusal>
    requires { values.now ≡ values_in (table symbols.now) }
    ensures { IfOk result (λ items. AreItems text.now (table symbols.now) true words.now items.items) }
{
    let mut items = Vec::new(alloc);
    let mut rest = words;
    let mut may_compare = true;
    while let Some((word, after)) = first_word(rest) {
        match comparison_at(text, symbols, values, rest) {
            Some((comparison, behind)) if may_compare => {
                add_comparison(&mut items, comparison)?;
                may_compare = true;
                rest = behind;
            }
            _ => {
                let item = item_of(text, symbols, word);
                items.push(item)?;
                may_compare = is_loose(item.mark);
                rest = after;
            }
        }
    }
    Ok(items)
}
