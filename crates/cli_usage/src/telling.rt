//! What is said of a rule that words break.

ghost use Rattle.std.specs.Prelude.{◌≡◌, ◌++◌, codes, flat_map, option_map};
ghost use Rattle.io_text.specs.Buffer.{Sends};
ghost use Rattle.io_text.specs.Log.{Puts};
ghost use Rattle.cli_usage.specs.Rules.{broken_text, demand_text, found_text, given_of, joined, out_of, rule_text, term_text};

use crate::broken::Broken;
use crate::rule::{Rule, Term};
use io_text::{Piece, Sink, TextBuffer, WriteFault, add_pieces};

/// Adds a term as it is written on a command line.
fn add_term<W: Sink>(buffer: &mut TextBuffer, term: &Term, writer: &mut W) -> Result<(), WriteFault>
    ensures { Sends (W.log writer.old) (W.log writer.new) buffer.old buffer.new result (term_text term.now) }
{
    match term {
        Term::Flag(id) | Term::Valued(id) => {
            let pieces = [Piece::Text(b"--"), Piece::Text(id.as_bytes())];
            add_pieces(buffer, pieces.as_slice(), writer)
        }
        Term::Value(id, value) => {
            let pieces = [
                Piece::Text(b"--"),
                Piece::Text(id.as_bytes()),
                Piece::Text(b" "),
                Piece::Text(value.as_bytes()),
            ];
            add_pieces(buffer, pieces.as_slice(), writer)
        }
        Term::Place(_, name) => buffer.add(name.as_bytes(), writer),
    }
}

/// Adds a term after a word.
fn add_other<W: Sink>(
    buffer: &mut TextBuffer,
    word: &[u8],
    term: &Term,
    writer: &mut W,
) -> Result<(), WriteFault>
    ensures { Sends (W.log writer.old) (W.log writer.new) buffer.old buffer.new result (word.now ++ term_text term.now) }
{
    buffer.add(word, writer)?;
    add_term(buffer, term, writer)
}

/// Adds terms, each after a word.
fn add_others<W: Sink>(
    buffer: &mut TextBuffer,
    word: &[u8],
    terms: &[Term],
    writer: &mut W,
) -> Result<(), WriteFault>
    ensures { Sends (W.log writer.old) (W.log writer.new) buffer.old buffer.new result (flat_map (λ t. word.now ++ term_text t) terms.now) }
{
    for term in terms {
        add_other(buffer, word, term, writer)?;
    }
    Ok(())
}

/// Adds terms with a word between each and the next.
fn add_joined<W: Sink>(
    buffer: &mut TextBuffer,
    word: &[u8],
    terms: &[Term],
    writer: &mut W,
) -> Result<(), WriteFault>
    ensures { Sends (W.log writer.old) (W.log writer.new) buffer.old buffer.new result (joined word.now terms.now) }
{
    match terms {
        [] => Ok(()),
        [first, others @ ..] => {
            add_term(buffer, first, writer)?;
            add_others(buffer, word, others, writer)
        }
    }
}

/// Adds what a rule wants.
fn add_wanted<W: Sink>(
    buffer: &mut TextBuffer,
    wanted: &[Term],
    writer: &mut W,
) -> Result<(), WriteFault>
    ensures { Sends (W.log writer.old) (W.log writer.new) buffer.old buffer.new result (codes " wants " ++ joined (codes " or ") wanted.now) }
{
    buffer.add(b" wants ", writer)?;
    add_joined(buffer, b" or ", wanted, writer)
}

/// Adds the term that a rule excludes, if there is one.
fn add_found<W: Sink>(
    buffer: &mut TextBuffer,
    excluded: Option<&Term>,
    writer: &mut W,
) -> Result<(), WriteFault>
    ensures { Sends (W.log writer.old) (W.log writer.new) buffer.old buffer.new result (found_text (option_map (λ t. t.now) excluded.entry)) }
{
    match excluded {
        Some(term) => add_term(buffer, term, writer),
        None => Ok(()),
    }
}

/// Adds what a rule excludes.
fn add_excluded<W: Sink>(
    buffer: &mut TextBuffer,
    excluded: Option<&Term>,
    writer: &mut W,
) -> Result<(), WriteFault>
    ensures { Sends (W.log writer.old) (W.log writer.new) buffer.old buffer.new result (codes " excludes " ++ found_text (option_map (λ t. t.now) excluded.entry)) }
{
    buffer.add(b" excludes ", writer)?;
    add_found(buffer, excluded, writer)
}

/// Adds what a rule demands.
fn add_demand<W: Sink>(
    buffer: &mut TextBuffer,
    broken: &Broken,
    writer: &mut W,
) -> Result<(), WriteFault>
    ensures { Sends (W.log writer.old) (W.log writer.new) buffer.old buffer.new result (demand_text (out_of broken.now)) }
{
    match broken.rule {
        Rule::Wants(_, wanted) => add_wanted(buffer, wanted, writer),
        Rule::Excludes(_, _) => add_excluded(buffer, broken.excluded, writer),
    }
}

/// What a rule is about.
fn given_of(rule: &Rule) -> &[Term]
    ensures { result.now ≡ given_of rule.now }
{
    match rule {
        Rule::Wants(given, _) | Rule::Excludes(given, _) => given,
    }
}

/// Adds a rule, as a sentence without its end.
fn add_rule<W: Sink>(
    buffer: &mut TextBuffer,
    broken: &Broken,
    writer: &mut W,
) -> Result<(), WriteFault>
    ensures { Sends (W.log writer.old) (W.log writer.new) buffer.old buffer.new result (rule_text (out_of broken.now)) }
{
    add_joined(buffer, b" with ", given_of(broken.rule), writer)?;
    add_demand(buffer, broken, writer)
}

/// Adds a rule, as a sentence with the end of its line.
fn add_line<W: Sink>(
    buffer: &mut TextBuffer,
    broken: &Broken,
    writer: &mut W,
) -> Result<(), WriteFault>
    ensures { Sends (W.log writer.old) (W.log writer.new) buffer.old buffer.new result (rule_text (out_of broken.now) ++ codes "\n") }
{
    add_rule(buffer, broken, writer)?;
    buffer.add(b"\n", writer)
}

/// Adds the line that tells of a rule.
fn add_broken<W: Sink>(
    buffer: &mut TextBuffer,
    broken: &Broken,
    writer: &mut W,
) -> Result<(), WriteFault>
    ensures { Sends (W.log writer.old) (W.log writer.new) buffer.old buffer.new result (broken_text (out_of broken.now)) }
{
    buffer.add(b"usage: ", writer)?;
    add_line(buffer, broken, writer)
}

/// Writes which rule words break, as a line.
///
/// # Errors
///
/// `WriteFault` where the writer fails. What was written is then a prefix of the line.
pub fn write_broken<W: Sink>(broken: &Broken, writer: &mut W) -> Result<(), WriteFault>
    ensures { Puts (W.log writer.old) (W.log writer.new) result (broken_text (out_of broken.now)) }
{
    let mut buffer = TextBuffer::new();
    add_broken(&mut buffer, broken, writer)?;
    buffer.flush(writer)
}
