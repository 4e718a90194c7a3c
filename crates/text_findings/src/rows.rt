//! The record of a finding.

ghost use Rattle.std.specs.Prelude.{◌≡◌, ◌++◌, codes};
ghost use Rattle.io_text.specs.Buffer.{Sends};
ghost use Rattle.io_text.specs.Text.{line_text};
ghost use Rattle.text_findings.specs.FindingText.{finding_record, mark_of, name_of, of_side, side_word, value_in, value_text, verdict_value, verdict_word, word_of};

use crate::names::{mark_of, name_of};
use crate::value::{Value, add_value};
use diagram_program::Program;
use diff_findings::{Finding, Remark, Sort};
use diff_meaning::Verdict;
use io_text::{Sink, TextBuffer, WriteFault, add_field};
use search_differences::Side;

/// What is said of one of the programs.
fn of_side<T: Copy>(side: Side, old: T, new: T) -> T
    ensures { result ≡ of_side side old new }
{
    match side {
        Side::Old => old,
        Side::New => new,
    }
}

/// The word for what one program alone has.
fn side_word(sort: Sort) -> &'static [u8]
    ensures { result.now ≡ side_word sort }
{
    match sort {
        Sort::OldVariable | Sort::OldInstance => b"old",
        Sort::NewVariable | Sort::NewInstance | Sort::NewEdge => b"new",
    }
}

/// The word of a verdict.
fn verdict_word(verdict: Verdict) -> &'static [u8]
    ensures { result.now ≡ verdict_word verdict }
{
    match verdict {
        Verdict::Same => b"same",
        Verdict::Differs { .. } => b"differs",
        Verdict::Unsettled => b"?",
    }
}

/// The word of what is said.
fn word_of(sort: Sort, remark: Remark) -> &'static [u8]
    ensures { result.now ≡ word_of sort remark }
{
    match remark {
        Remark::Judged(verdict) => verdict_word(verdict),
        Remark::Initial { .. } => b"initial",
        Remark::Preset { .. } => b"preset",
        Remark::Moved { .. } => b"moved",
        Remark::Alone => side_word(sort),
    }
}

/// What a verdict says of one of the programs.
fn verdict_value(side: Side, verdict: Verdict) -> Value
    ensures { result ≡ verdict_value side verdict }
{
    match verdict {
        Verdict::Differs { old, new } => Value::Bit(of_side(side, old, new)),
        Verdict::Same | Verdict::Unsettled => Value::Nothing,
    }
}

/// What is said of one of the programs.
fn value_in(side: Side, remark: Remark) -> Value
    ensures { result ≡ value_in side remark }
{
    match remark {
        Remark::Judged(verdict) => verdict_value(side, verdict),
        Remark::Initial { old, new } => Value::Bit(of_side(side, old, new)),
        Remark::Preset { old, new } => Value::Number(of_side(side, old, new)),
        Remark::Moved { old, new } => Value::Place(of_side(side, old, new)),
        Remark::Alone => Value::Nothing,
    }
}

/// Adds the first two fields of a record: the name, and the word of what is said.
fn add_words<W: Sink>(
    buffer: &mut TextBuffer,
    name: &[u8],
    mark: &[u8],
    word: &[u8],
    writer: &mut W,
) -> Result<(), WriteFault>
    ensures { Sends (W.log writer.old) (W.log writer.new) buffer.old buffer.new result (name.now ++ (mark.now ++ (codes "," ++ word.now))) }
{
    buffer.add(name, writer)?;
    buffer.add(mark, writer)?;
    add_field(buffer, word, writer)
}

/// Adds a value, after a comma.
fn add_after_comma<W: Sink>(
    buffer: &mut TextBuffer,
    value: Value,
    writer: &mut W,
) -> Result<(), WriteFault>
    ensures { Sends (W.log writer.old) (W.log writer.new) buffer.old buffer.new result (codes "," ++ value_text value) }
{
    buffer.add(b",", writer)?;
    add_value(buffer, value, writer)
}

/// Adds the last two fields of a record, and the end of its line.
fn add_values<W: Sink>(
    buffer: &mut TextBuffer,
    remark: Remark,
    writer: &mut W,
) -> Result<(), WriteFault>
    ensures { Sends (W.log writer.old) (W.log writer.new) buffer.old buffer.new result
        ((codes "," ++ value_text (value_in Side.Old remark)) ++ ((codes "," ++ value_text (value_in Side.New remark)) ++ codes "\n")) }
{
    add_after_comma(buffer, value_in(Side::Old, remark), writer)?;
    add_after_comma(buffer, value_in(Side::New, remark), writer)?;
    buffer.add(b"\n", writer)
}

/// Adds the record of a finding.
pub(crate) fn add_record<W: Sink>(
    buffer: &mut TextBuffer,
    old: &Program,
    new: &Program,
    finding: Finding,
    writer: &mut W,
) -> Result<(), WriteFault>
    ensures { Sends (W.log writer.old) (W.log writer.new) buffer.old buffer.new result (line_text (finding_record old.now new.now finding)) }
{
    let sort = finding.subject.sort;
    let name = name_of(old, new, finding.subject);
    let word = word_of(sort, finding.remark);
    add_words(buffer, name, mark_of(sort), word, writer)?;
    add_values(buffer, finding.remark, writer)
}
