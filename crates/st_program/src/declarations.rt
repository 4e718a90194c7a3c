//! The sections of declarations.

ghost use Rattle.std.specs.Prelude.{◌≡◌, ◌==◌, ◌≤◌, ◌<◌, ◌∷◌, true, length, false, None, IfSome, IfOk, IsTrue, OnOk, Some};
ghost use Rattle.diagram_declarations.specs.Text.{begins_with};
ghost use Rattle.st_words.specs.Places.{spelled};
ghost use Rattle.st_program.specs.Declarations.{Adds, Declaration, Declarations, Initial, InitialNumber, IsInteger, MayShare, Names, Place, Sections, Semicolon, Typed};
ghost use Rattle.st_program.specs.Marks.{section_of};
ghost use Rattle.st_program.specs.Phrases.{Marked};
ghost use Rattle.st_program.specs.Symbols.{table};
ghost use Rattle.st_program.specs.declared.mark.Mark.{Mark};
ghost use Rattle.st_program.specs.declared.mark.Mark.TheVariants as Mark;
ghost use Rattle.st_program.specs.declared.symbols.Declared.TheVariants as Declared;
ghost use Rattle.st_words.specs.declared.word.Word.{Word};

use crate::fault::{Expected, Refusal};
use crate::mark::{Mark, kind_of, section_of};
use crate::phrases::{behind, due, first_mark, first_word, place_of};
use crate::preset::{preset_of, read_preset};
use crate::spelling::bytes_of;
use crate::symbols::{Declared, Section, Sort, Symbols};
use diagram_declarations::Parameter;
use st_words::Word;
use std::alloc::Global;

/// Names with commas between them, and what is behind them.
fn read_names<'a>(
    alloc: Global,
    text: &[u8],
    words: &'a [Word],
) -> Result<(Vec<Word>, &'a [Word]), Refusal>
    ensures names { IfOk result (λ x. Names text.now words.now x.1.now x.0.items) }
    ensures shorter { IfOk result (λ x. length x.1.now < length words.now) }
{
    let mut names = Vec::new(alloc);
    let mut rest = words;
    while let Some((name, after)) = first_word(rest) {
        names.push(name)?;
        match behind(text, Mark::Comma, after) {
            Some(next) => rest = next,
            None => return Ok((names, after)),
        }
    }
    Err(Refusal::Due {
        at: None,
        expected: Expected::Name,
    })
}

/// Whether a word begins with the percent sign.
fn begins_with_percent(word: &[u8]) -> bool
    ensures { result ≡ begins_with 37 word.now }
{
    matches!(word, [b'%', ..])
}

/// A place behind `AT`, where there is one, and what is behind it.
fn read_place<'a>(text: &[u8], words: &'a [Word]) -> Result<(Option<Word>, &'a [Word]), Refusal>
    ensures place { IfOk result (λ x. Place text.now words.now x.1.now x.0) }
    ensures shorter { IfOk result (λ x. length x.1.now ≤ length words.now) }
{
    let Some(behind_at) = behind(text, Mark::At, words) else {
        return Ok((None, words));
    };
    match first_word(behind_at) {
        Some((word, rest)) if begins_with_percent(bytes_of(text, word)) => Ok((Some(word), rest)),
        _ => Err(Refusal::Due {
            at: place_of(behind_at),
            expected: Expected::Address,
        }),
    }
}

/// The value that a variable has at the start, and what is behind it.
fn read_initial<'a>(text: &[u8], words: &'a [Word]) -> Result<(bool, &'a [Word]), Refusal>
    ensures initial { IfOk result (λ x. Initial text.now words.now x.1.now x.0) }
    ensures shorter { IfOk result (λ x. length x.1.now ≤ length words.now) }
{
    let Some(value) = behind(text, Mark::Becomes, words) else {
        return Ok((false, words));
    };
    if let Some(rest) = behind(text, Mark::On, value) {
        return Ok((true, rest));
    }
    match behind(text, Mark::Off, value) {
        Some(rest) => Ok((false, rest)),
        None => Err(Refusal::Due {
            at: place_of(value),
            expected: Expected::Constant,
        }),
    }
}

/// The number of a word that an INT can have.
pub(crate) fn integer_of(word: &[u8]) -> Option<u32>
    ensures { IfSome result (IsInteger word.now) }
{
    preset_of(Parameter::Count, word)
}

/// The value that an INT has at the start, and what is behind it.
fn read_number<'a>(text: &[u8], words: &'a [Word]) -> Result<(u32, &'a [Word]), Refusal>
    ensures number { IfOk result (λ x. InitialNumber text.now words.now x.1.now x.0) }
    ensures shorter { IfOk result (λ x. length x.1.now ≤ length words.now) }
{
    let Some(value) = behind(text, Mark::Becomes, words) else {
        return Ok((0, words));
    };
    let fault = Refusal::Due {
        at: place_of(value),
        expected: Expected::Number,
    };
    let Some((word, rest)) = first_word(value) else {
        return Err(fault);
    };
    match integer_of(bytes_of(text, word)) {
        Some(number) => Ok((number, rest)),
        None => Err(fault),
    }
}

/// The type INT, which a variable of VAR alone can have, and what is behind it.
fn read_integer<'a>(
    text: &[u8],
    section: Section,
    words: &'a [Word],
    after: &'a [Word],
) -> Result<(Declared, &'a [Word]), Refusal>
    requires { Marked text.now Mark.Int words.now after.now }
    ensures typed { IfOk result (λ x. Typed text.now section None words.now x.1.now x.0) }
    ensures shorter { IfOk result (λ x. length x.1.now ≤ length after.now) }
{
    match section {
        Section::Local => {
            let (initial, rest) = read_number(text, after)?;
            Ok((Declared::Integer { section, initial }, rest))
        }
        Section::Input | Section::Output => Err(Refusal::Type {
            at: place_of(words),
        }),
    }
}

/// What a trigger is declared as.
fn trigger(section: Section, sort: Sort) -> Declared
    ensures { result ≡ Declared.Variable section None false sort }
{
    Declared::Variable {
        section,
        address: None,
        initial: false,
        sort,
    }
}

/// A type of a trigger or of a block, and what is behind it.
fn read_block_type<'a>(
    text: &[u8],
    section: Section,
    words: &'a [Word],
) -> Result<(Declared, &'a [Word]), Refusal>
    ensures typed { IfOk result (λ x. Typed text.now section None words.now x.1.now x.0) }
    ensures shorter { IfOk result (λ x. length x.1.now < length words.now) }
{
    if let Some(rest) = behind(text, Mark::RisingTrigger, words) {
        return Ok((trigger(section, Sort::Rising), rest));
    }
    if let Some(rest) = behind(text, Mark::FallingTrigger, words) {
        return Ok((trigger(section, Sort::Falling), rest));
    }
    let fault = Refusal::Type {
        at: place_of(words),
    };
    let Some((mark, after)) = first_mark(text, words) else {
        return Err(fault);
    };
    let Some(kind) = kind_of(mark) else {
        return Err(fault);
    };
    let (preset, rest) = read_preset(text, kind, after)?;
    Ok((Declared::Block { kind, preset }, rest))
}

/// A type of a name without an address, and what is behind it.
fn read_unplaced_type<'a>(
    text: &[u8],
    section: Section,
    words: &'a [Word],
) -> Result<(Declared, &'a [Word]), Refusal>
    ensures typed { IfOk result (λ x. Typed text.now section None words.now x.1.now x.0) }
    ensures shorter { IfOk result (λ x. length x.1.now < length words.now) }
{
    match behind(text, Mark::Int, words) {
        Some(after) => read_integer(text, section, words, after),
        None => read_block_type(text, section, words),
    }
}

/// A type of a variable, of a trigger or of a block, and what is behind it. An INT, a trigger and a block have no address.
fn read_type<'a>(
    text: &[u8],
    section: Section,
    address: Option<Word>,
    words: &'a [Word],
) -> Result<(Declared, &'a [Word]), Refusal>
    ensures typed { IfOk result (λ x. Typed text.now section address words.now x.1.now x.0) }
    ensures shorter { IfOk result (λ x. length x.1.now < length words.now) }
{
    if let Some(after) = behind(text, Mark::Bool, words) {
        let (initial, rest) = read_initial(text, after)?;
        let declared = Declared::Variable {
            section,
            address,
            initial,
            sort: Sort::Bool,
        };
        return Ok((declared, rest));
    }
    match address {
        None => read_unplaced_type(text, section, words),
        Some(_) => Err(Refusal::Type {
            at: place_of(words),
        }),
    }
}

/// Declares some names alike.
fn declare_all(
    text: &[u8],
    symbols: &mut Symbols,
    names: &[Word],
    declared: Declared,
) -> Result<(), Refusal>
    ensures { OnOk result (Adds text.now declared names.now (table symbols.old) (table symbols.new)) }
{
    let mut rest = names;
    while let Some((name, after)) = first_word(rest) {
        symbols.declare(text, name, declared)?;
        rest = after;
    }
    Ok(())
}

/// Whether it is one name.
fn is_one(names: &[Word]) -> bool
    ensures { result ≡ (length names.now == 1) }
{
    names.len() == 1
}

/// Whether some names may have an address: it is that of one.
fn may_share(names: &[Word], address: Option<Word>) -> bool
    ensures { IsTrue result → MayShare names.now address }
{
    match address {
        None => true,
        Some(_) => is_one(names),
    }
}

/// Reads a declaration, and gives what is behind it.
fn read_declaration<'a>(
    alloc: Global,
    text: &[u8],
    section: Section,
    symbols: &mut Symbols,
    words: &'a [Word],
) -> Result<&'a [Word], Refusal>
    ensures declaration { IfOk result (λ rest. Declaration text.now section words.now rest.now (table symbols.old) (table symbols.new)) }
    ensures shorter { IfOk result (λ rest. length rest.now < length words.now) }
{
    let (names, behind_names) = read_names(alloc, text, words)?;
    let (address, behind_address) = read_place(text, behind_names)?;
    if !may_share(&names, address) {
        return Err(Refusal::Due {
            at: place_of(behind_names),
            expected: Expected::Mark(Mark::Colon),
        });
    }
    let types = due(text, Mark::Colon, behind_address)?;
    let (declared, end) = read_type(text, section, address, types)?;
    let rest = due(text, Mark::Semicolon, end)?;
    declare_all(text, symbols, &names, declared)?;
    Ok(rest)
}

/// Reads declarations up to END_VAR, and gives what is behind it.
fn read_section<'a>(
    alloc: Global,
    text: &[u8],
    section: Section,
    symbols: &mut Symbols,
    words: &'a [Word],
) -> Result<&'a [Word], Refusal>
    ensures declarations { IfOk result (λ rest. Declarations text.now section words.now rest.now (table symbols.old) (table symbols.new)) }
    ensures shorter { IfOk result (λ rest. length rest.now < length words.now) }
{
    let mut rest = words;
    loop {
        if let Some(after) = behind(text, Mark::EndVar, rest) {
            return Ok(after);
        }
        rest = read_declaration(alloc, text, section, symbols, rest)?;
    }
}

/// What is behind a semicolon that may be left out.
pub(crate) fn after_semicolon<'a>(text: &[u8], words: &'a [Word]) -> &'a [Word]
    ensures semicolon { Semicolon text.now words.now result.now }
    ensures shorter { length result.now ≤ length words.now }
{
    match behind(text, Mark::Semicolon, words) {
        Some(rest) => rest,
        None => words,
    }
}

/// The section that is opened, and what is behind the word that opens it.
fn opened<'a>(text: &[u8], words: &'a [Word]) -> Option<(Section, &'a [Word])>
    ensures opened { IfSome result (λ x. (word : Mark) × Marked text.now word words.now x.1.now × (section_of word ≡ Some x.0)) }
    ensures shorter { IfSome result (λ x. length x.1.now < length words.now) }
{
    let (mark, rest) = first_mark(text, words)?;
    Some((section_of(mark)?, rest))
}

/// Reads the sections of declarations, and gives what is behind them.
pub(crate) fn read_sections<'a>(
    alloc: Global,
    text: &[u8],
    symbols: &mut Symbols,
    words: &'a [Word],
) -> Result<&'a [Word], Refusal>
    ensures sections { IfOk result (λ rest. Sections text.now words.now rest.now (table symbols.old) (table symbols.new)) }
{
    let mut rest = words;
    while let Some((section, inside)) = opened(text, rest) {
        let after = read_section(alloc, text, section, symbols, inside)?;
        rest = after_semicolon(text, after);
    }
    Ok(rest)
}
