//! The sentence that explains why a text isn't drawn.

ghost use Rattle.std.specs.Prelude.{◌≡◌};
ghost use Rattle.io_text.specs.Buffer.{Sends};
ghost use Rattle.cli_draw.specs.Sentences.{due_sentence, expected_words, keyword, mark_word, refusal_sentence, sentence, text_sentence};

use draw_program::DrawFault;
use io_text::{Piece, Sink, TextBuffer, WriteFault, add_pieces};
use st_program::{Expected, Mark, Refusal, StFault};

const MEMORY: &[u8] = b"X7: out of memory\n";

const CHARACTER: &[u8] =
    b"T1: no word begins with this character, or the comment that begins here has no end\n";

const NAME: &[u8] = b"T3: the name isn't declared, or it is declared twice\n";

const ALIKE: &[u8] =
    b"T3: in a drawing this name would be as another one; of a name the first 32 characters count\n";

const TYPE: &[u8] =
    b"T4: a variable is a BOOL, or an INT of VAR without an address; a block is a TON, TOF, TP, CTU, CTD, SR, RS, R_TRIG or F_TRIG, and has no address\n";

const UNDRAWABLE: &[u8] = b"T5: a ladder diagram has no such statement or operator\n";

const INTEGER: &[u8] =
    b"T5: an INT is set to a number, compared with one by = or <> (behind NOT in parentheses), or chosen by CASE\n";

const MEMBER: &[u8] = b"T6: a program can't read or write this of a block\n";

const INPUT: &[u8] = b"T7: an input can't be written\n";

const CALL: &[u8] = b"T8: the block is called twice, or it has no preset, or more than one\n";

const TOO_MANY: &[u8] = b"T9: a program has at most 600 statements, 256 variables and 64 blocks\n";

const TOO_DEEP: &[u8] =
    b"T9: in an expression, at most 100 parentheses and operators stand within one another\n";

/// A keyword as it is spelled.
fn keyword(mark: Mark) -> &'static [u8]
    ensures { result.now ≡ keyword mark }
{
    match mark {
        Mark::Program => b"PROGRAM",
        Mark::EndProgram => b"END_PROGRAM",
        Mark::Var => b"VAR",
        Mark::VarInput => b"VAR_INPUT",
        Mark::VarOutput => b"VAR_OUTPUT",
        Mark::EndVar => b"END_VAR",
        Mark::At => b"AT",
        Mark::Bool => b"BOOL",
        Mark::Int => b"INT",
        Mark::Ton => b"TON",
        Mark::Tof => b"TOF",
        Mark::Tp => b"TP",
        Mark::Ctu => b"CTU",
        Mark::Ctd => b"CTD",
        Mark::Sr => b"SR",
        Mark::Rs => b"RS",
        Mark::RisingTrigger => b"R_TRIG",
        Mark::FallingTrigger => b"F_TRIG",
        Mark::On => b"TRUE",
        Mark::Off => b"FALSE",
        Mark::If => b"IF",
        Mark::Then => b"THEN",
        Mark::Else => b"ELSE",
        Mark::EndIf => b"END_IF",
        Mark::Case => b"CASE",
        Mark::Of => b"OF",
        Mark::Return => b"RETURN",
        Mark::Not => b"NOT",
        Mark::And => b"AND",
        Mark::Or => b"OR",
        Mark::Exclusive => b"XOR",
        _ => b"another word",
    }
}

/// A symbol or a keyword that is due, as it is spelled; where ELSIF is due, ELSE and END_IF are too, and where END_CASE is, a number and ELSE.
fn mark_word(mark: Mark) -> &'static [u8]
    ensures { result.now ≡ mark_word mark }
{
    match mark {
        Mark::Elsif => b"ELSIF, ELSE or END_IF",
        Mark::EndCase => b"a number, ELSE or END_CASE",
        Mark::Becomes => b":=",
        Mark::Yields => b"=>",
        Mark::Colon => b":",
        Mark::Semicolon => b";",
        Mark::Comma => b",",
        Mark::Open => b"(",
        Mark::Close => b")",
        Mark::Equal => b"=",
        Mark::Unequal => b"<>",
        _ => keyword(mark),
    }
}

/// What is due, in words.
fn expected_words(expected: Expected) -> &'static [u8]
    ensures { result.now ≡ expected_words expected }
{
    match expected {
        Expected::Mark(mark) => mark_word(mark),
        Expected::Name => b"a name",
        Expected::Address => b"a place such as %IX0.0",
        Expected::Constant => b"TRUE or FALSE",
        Expected::Parameter => b"PT of a timer or PV of a counter",
        Expected::Preset => b"a duration such as T#5s or a number up to 32767",
        Expected::Number => b"a number up to 32767",
        Expected::Integer => b"the name of an INT",
        Expected::Expression => b"an expression",
        Expected::Statement => b"a statement",
        Expected::Argument => b"an input, a preset or an output of the block that isn't given yet",
        Expected::End => b"the end of the text",
    }
}

/// Adds what is due.
fn add_due<W: Sink>(
    buffer: &mut TextBuffer,
    expected: Expected,
    writer: &mut W,
) -> Result<(), WriteFault>
    ensures { Sends (W.log writer.old) (W.log writer.new) buffer.old buffer.new result (due_sentence expected) }
{
    let pieces = [
        Piece::Text(b"T2: "),
        Piece::Text(expected_words(expected)),
        Piece::Text(b" is due here\n"),
    ];
    add_pieces(buffer, pieces.as_slice(), writer)
}

/// Adds the sentence on words that are no program.
fn add_refusal_sentence<W: Sink>(
    buffer: &mut TextBuffer,
    refusal: Refusal,
    writer: &mut W,
) -> Result<(), WriteFault>
    ensures { Sends (W.log writer.old) (W.log writer.new) buffer.old buffer.new result (refusal_sentence refusal) }
{
    match refusal {
        Refusal::Memory => buffer.add(MEMORY, writer),
        Refusal::Due { expected, .. } => add_due(buffer, expected, writer),
        Refusal::Name { .. } => buffer.add(NAME, writer),
        Refusal::Type { .. } => buffer.add(TYPE, writer),
        Refusal::Undrawable { .. } => buffer.add(UNDRAWABLE, writer),
        Refusal::Integer { .. } => buffer.add(INTEGER, writer),
        Refusal::Member { .. } => buffer.add(MEMBER, writer),
        Refusal::Input { .. } => buffer.add(INPUT, writer),
        Refusal::Call { .. } => buffer.add(CALL, writer),
        Refusal::TooMany { .. } => buffer.add(TOO_MANY, writer),
        Refusal::TooDeep { .. } => buffer.add(TOO_DEEP, writer),
    }
}

/// Adds the sentence on a text that is no program.
fn add_text_sentence<W: Sink>(
    buffer: &mut TextBuffer,
    fault: StFault,
    writer: &mut W,
) -> Result<(), WriteFault>
    ensures { Sends (W.log writer.old) (W.log writer.new) buffer.old buffer.new result (text_sentence fault) }
{
    match fault {
        StFault::Character { .. } => buffer.add(CHARACTER, writer),
        StFault::Words(refusal) => add_refusal_sentence(buffer, refusal, writer),
    }
}

/// Adds the sentence on a text that isn't drawn.
pub(crate) fn add_sentence<W: Sink>(
    buffer: &mut TextBuffer,
    fault: DrawFault,
    writer: &mut W,
) -> Result<(), WriteFault>
    ensures { Sends (W.log writer.old) (W.log writer.new) buffer.old buffer.new result (sentence fault) }
{
    match fault {
        DrawFault::Memory => buffer.add(MEMORY, writer),
        DrawFault::Text(fault) => add_text_sentence(buffer, fault, writer),
        DrawFault::AlikeNames { .. } => buffer.add(ALIKE, writer),
        DrawFault::TooManyRungs(_) => buffer.add(b"T9: a program has at most 100 rungs\n", writer),
        DrawFault::TooManyVariables(_) => {
            buffer.add(b"T9: a program has at most 256 variables\n", writer)
        }
        DrawFault::TooManyBlocks(_) => {
            buffer.add(b"T9: a program has at most 64 blocks\n", writer)
        }
        DrawFault::NotFaithful => buffer.add(
            b"T10: the drawing isn't found to do what the statements do, so it isn't written\n",
            writer,
        ),
    }
}
