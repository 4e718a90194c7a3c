//! The tables of a project: presets, sections, symbols and expressions, a line each.

ghost use Rattle.std.specs.Prelude.{◌≡◌, IfOk, map, option_map};
ghost use Rattle.clp_project.specs.Tables.{expression_of, expressions_in, preset_in, presets_in, section_in, sections_in, symbol_of, symbols_in, writes_number};

use crate::lines::is_data;
use crate::number::{before, behind, number_in, other_in};
use std::alloc::{AllocError, Global};

/// The preset of a timer or a monostable, and the mode of an IEC timer, by its base and how often that is counted.
#[derive(Clone, Copy)]
pub struct Preset {
    pub base: u32,
    pub count: u32,
    /// 0 where the line has no third field.
    pub mode: u32,
}

/// A section: rungs from a first to a last one, each after the one that names it as its next.
#[derive(Clone, Copy)]
pub struct Section {
    pub number: u32,
    /// 0 for a ladder diagram.
    pub language: u32,
    /// The number by which it is called; a section without one is scanned.
    pub subroutine: Option<u32>,
    pub first: u32,
    pub last: u32,
}

/// What the project calls a variable, byte by byte.
#[derive(Clone, Copy)]
pub struct ClpSymbol<'a> {
    pub variable: &'a [u8],
    pub name: &'a [u8],
    pub comment: &'a [u8],
}

/// What a compare or an operate computes, byte by byte as in the project.
#[derive(Clone, Copy)]
pub struct Expression<'a> {
    pub number: Option<u32>,
    pub text: &'a [u8],
}

/// The preset of a timer or counter on a line: its base, its count and, if the line has a third field, its mode.
#[tactic(auto, unfolding(crate::specs::Tables::preset_in))]
fn preset_in(line: &[u8]) -> Option<Preset>
    ensures { result ≡ preset_in line.now }
{
    let second = behind(b',', line);
    let third = behind(b',', second);
    let base = number_in(before(b',', line))?;
    let count = number_in(before(b',', second))?;
    let mode = if third.is_empty() {
        0
    } else {
        number_in(before(b',', third))?
    };
    Some(Preset { base, count, mode })
}

/// The presets of a table, where each line with data is one.
pub(crate) fn presets_in(
    alloc: Global,
    mut lines: &[&[u8]],
) -> Result<Option<Vec<Preset>>, AllocError>
    ensures { IfOk result (λ o. option_map (λ v. v.items) o ≡ presets_in (map (λ l. l.now) lines.entry.now)) }
{
    let mut presets = Vec::new(alloc);
    while let [line, rest @ ..] = lines {
        if is_data(line) {
            match preset_in(line) {
                Some(preset) => presets.push(preset)?,
                None => return Ok(None),
            }
        }
        lines = rest;
    }
    Ok(Some(presets))
}

/// The section on a line: its number, its language, whether it is a subroutine, and its first and last rung.
#[tactic(auto, unfolding(crate::specs::Tables::section_in))]
fn section_in(line: &[u8]) -> Option<Section>
    ensures { result ≡ section_in line.now }
{
    let second = behind(b',', line);
    let third = behind(b',', second);
    let fourth = behind(b',', third);
    let fifth = behind(b',', fourth);
    Some(Section {
        number: number_in(before(b',', line))?,
        language: number_in(before(b',', second))?,
        subroutine: other_in(before(b',', third))?,
        first: number_in(before(b',', fourth))?,
        last: number_in(before(b',', fifth))?,
    })
}

/// The sections, where each line with data is one.
pub(crate) fn sections_in(
    alloc: Global,
    mut lines: &[&[u8]],
) -> Result<Option<Vec<Section>>, AllocError>
    ensures { IfOk result (λ o. option_map (λ v. v.items) o ≡ sections_in (map (λ l. l.now) lines.entry.now)) }
{
    let mut sections = Vec::new(alloc);
    while let [line, rest @ ..] = lines {
        if is_data(line) {
            match section_in(line) {
                Some(section) => sections.push(section)?,
                None => return Ok(None),
            }
        }
        lines = rest;
    }
    Ok(Some(sections))
}

/// The symbols of a table, one in each line with data: a variable, its name and its comment.
#[tactic(auto, unfolding(crate::specs::Tables::symbol_in))]
pub(crate) fn symbols_in<'a>(
    alloc: Global,
    mut lines: &[&'a [u8]],
) -> Result<Vec<ClpSymbol<'a>>, AllocError>
    ensures { IfOk result (λ v. map symbol_of v.items ≡ symbols_in (map (λ l. l.now) lines.entry.now)) }
{
    let mut symbols = Vec::new(alloc);
    while let [line, rest @ ..] = lines {
        if is_data(line) {
            let after = behind(b',', line);
            symbols.push(ClpSymbol {
                variable: before(b',', line),
                name: before(b',', after),
                comment: behind(b',', after),
            })?;
        }
        lines = rest;
    }
    Ok(symbols)
}

/// The expressions of compares and operates, one in each line with data: a number, and what is computed.
#[tactic(auto, unfolding(crate::specs::Tables::expression_in))]
pub(crate) fn expressions_in<'a>(
    alloc: Global,
    mut lines: &[&'a [u8]],
) -> Result<Vec<Expression<'a>>, AllocError>
    ensures { IfOk result (λ v. map expression_of v.items ≡ expressions_in (map (λ l. l.now) lines.entry.now)) }
{
    let mut expressions = Vec::new(alloc);
    while let [line, rest @ ..] = lines {
        if is_data(line) {
            expressions.push(Expression {
                number: number_in(before(b',', line)),
                text: behind(b',', line),
            })?;
        }
        lines = rest;
    }
    Ok(expressions)
}

/// Whether there is an expression with the number, and it writes a number alone.
pub fn writes_number(mut expressions: &[Expression<'_>], number: u32) -> bool
    ensures { result ≡ writes_number expressions.entry.now number }
{
    let mut found = false;
    while let [expression, rest @ ..] = expressions {
        if expression.number == Some(number) {
            let text = expression.text;
            if !(text.starts_with(b"@200/")
                || text.starts_with(b"@280/")
                || text.starts_with(b"@310/"))
            {
                return false;
            }
            found = true;
        }
        expressions = rest;
    }
    found
}
