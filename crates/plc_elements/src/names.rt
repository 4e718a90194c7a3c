//! What the names in a body stand for.

ghost use Rattle.std.specs.Prelude.{◌≡◌, ◌==◌, IfOk, IfSome, IsTrue, position};
ghost use Rattle.st_program.specs.Items.{output_word};
ghost use Rattle.xml_parts.specs.Parts.{items_from};
ghost use Rattle.plc_elements.specs.Names.{IsBlock, IsCalled, IsDeclared, IsOutput, IsTrigger, IsTriggerBlock, IsTriggerOutput, IsVariable};

use diagram_declarations::{BlockKind, Output, same_letters};
use network_power::Network;
use plc_declarations::{is_bool, is_trigger_sort, trigger_word};
use st_expression::Operand;
use st_program::{StInstance, StVariable, bytes_of};
use xml_document::Document;
use xml_parts::{Part, attribute};

/// What a program in Structured Text declares.
#[derive(Clone, Copy)]
pub struct Names<'a> {
    pub text: &'a [u8],
    /// Those that the interface of the body declares, and behind them those of its edges and of what is open.
    pub variables: &'a [StVariable],
    pub instances: &'a [StInstance],
    /// How many variables the interface declares.
    pub declared: usize,
}

/// A body of ladder diagram in a document: the elements directly in its `LD`, the network that they are, and what they name.
#[derive(Clone, Copy)]
pub struct Body<'a> {
    pub document: &'a Document,
    pub parts: &'a [Part],
    /// First an element for each part.
    pub network: Network<'a>,
    pub names: Names<'a>,
    /// The parts that act by an edge, in the order of the variables that are the outputs of their triggers. These come behind the declared ones.
    pub edges: &'a [usize],
    /// The places inside connections with outputs of blocks that aren't known, in the order of the variables of these. They come last.
    pub opened: &'a [usize],
    /// Whether there may be such blocks.
    pub is_open: bool,
}

/// The declared variable with a number.
fn declared_at(names: Names<'_>, number: usize) -> Option<StVariable>
    ensures { IfSome result (λ x. IsDeclared names.entry number x) }
{
    if number >= names.declared {
        return None;
    }
    names.variables.get(number).copied()
}

/// Whether the BOOL with a number has a name.
pub(crate) fn is_variable(names: Names<'_>, number: usize, word: &[u8]) -> bool
    ensures { IsTrue result → IsVariable names.entry number word.now }
{
    match declared_at(names, number) {
        Some(x) => is_bool(x) && same_letters(word, bytes_of(names.text, x.name)),
        None => false,
    }
}

/// Whether the trigger whose output is the variable with a number has a name.
fn is_trigger(names: Names<'_>, falling: bool, number: usize, word: &[u8]) -> bool
    ensures { IsTrue result → IsTrigger names.entry falling number word.now }
{
    match declared_at(names, number) {
        Some(x) => {
            is_trigger_sort(x, falling) && same_letters(word, bytes_of(names.text, x.name))
        }
        None => false,
    }
}

/// Whether an element has the name and the type of the trigger whose output is the variable with a number.
pub(crate) fn is_trigger_block(
    document: &Document,
    names: Names<'_>,
    place: usize,
    falling: bool,
    number: usize,
) -> bool
    ensures { IsTrue result → IsTriggerBlock names.entry (items_from document.now place) falling number }
{
    let (Some(name), Some(type_name)) = (
        attribute(document, place, b"instanceName"),
        attribute(document, place, b"typeName"),
    ) else {
        return false;
    };
    is_trigger(names, falling, number, name) && same_letters(type_name, trigger_word(falling))
}

/// The output of a block that a contact can read.
pub(crate) fn output_word(kind: BlockKind) -> &'static [u8]
    ensures { result.now ≡ output_word kind }
{
    match kind.traits().output {
        Output::Q => b"Q",
        Output::Q1 => b"Q1",
    }
}

/// Where the first point in a word is.
fn point_in(word: &[u8]) -> Option<usize>
    ensures { result ≡ position (λ b. b == 46) word.now }
{
    word.iter().position(|b| *b == b'.')
}

/// Whether a word names the output of the block with a number.
fn is_output(names: Names<'_>, number: usize, word: &[u8]) -> bool
    ensures { IsTrue result → IsOutput names.entry number word.now }
{
    let Some(x) = names.instances.get(number) else {
        return false;
    };
    match point_in(word) {
        Some(point) => {
            same_letters(&word[..point], bytes_of(names.text, x.name))
                && same_letters(&word[point + 1..], output_word(x.kind))
        }
        None => false,
    }
}

/// Whether a word names the output of the trigger for falling edges, or for rising ones, that is the variable with a number.
fn is_output_of_trigger(names: Names<'_>, falling: bool, number: usize, word: &[u8]) -> bool
    ensures { IsTrue result → IsTriggerOutput names.entry number word.now }
{
    match point_in(word) {
        Some(point) => {
            is_trigger(names, falling, number, &word[..point])
                && same_letters(&word[point + 1..], b"Q")
        }
        None => false,
    }
}

/// Whether a word names the output of the trigger that is the variable with a number.
fn is_trigger_output(names: Names<'_>, number: usize, word: &[u8]) -> bool
    ensures { IsTrue result → IsTriggerOutput names.entry number word.now }
{
    is_output_of_trigger(names, false, number, word)
        || is_output_of_trigger(names, true, number, word)
}

/// Whether a word names an operand.
pub(crate) fn is_called(names: Names<'_>, operand: Operand, word: &[u8]) -> bool
    ensures { IsTrue result → IsCalled names.entry operand word.now }
{
    match operand {
        Operand::Variable(number) => {
            is_variable(names, number, word) || is_trigger_output(names, number, word)
        }
        Operand::Output(number) => is_output(names, number, word),
    }
}

/// The block with a number, if an element has its name and its type.
pub(crate) fn block_at(
    document: &Document,
    names: Names<'_>,
    place: usize,
    number: usize,
) -> Option<StInstance>
    ensures { IfSome result (IsBlock names.entry (items_from document.now place) number) }
{
    let x = *names.instances.get(number)?;
    let name = attribute(document, place, b"instanceName")?;
    let type_name = attribute(document, place, b"typeName")?;
    if same_letters(name, bytes_of(names.text, x.name))
        && same_letters(type_name, x.kind.traits().word)
    {
        Some(x)
    } else {
        None
    }
}
