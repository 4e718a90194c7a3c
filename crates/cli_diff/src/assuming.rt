//! What a comparison assumes of the inputs of both programs.

ghost use Rattle.std.specs.Prelude.{◌≡◌, ◌++◌, ◌<◌, ◌^◌, List, ℕ, IfErr, IfOk, length, map, string_bytes};
ghost use Rattle.cli_inputs.specs.Setting.{given_by};
ghost use Rattle.cli_inputs.specs.declared.fault.ToolFault.TheVariants.{Memory};
ghost use Rattle.cli_questions.specs.Query.{question_of};
ghost use Rattle.cli_diff.specs.Assumed.{differences_by, nothing, rows_by};
ghost use Rattle.cli_diff.specs.Assumed as spec;
ghost use Rattle.cli_diff.specs.AssumedEnding.{AreTaken, HasExpressionFault, HasExpressionFaultOf, HasExpressionFaultOfTwo, IsAssumedOf, IsAssumedOfBoth, IsAssumedOfTwo, assumes_in, expressions_of};
ghost use Rattle.cli_diff.specs.AssumedEnding as ending;

use crate::asking::DiffQuery;
use crate::sided::{SidedFault, of};
use crate::texts::DiffTexts;
use assume_comments::assumed_in;
use cli_arguments::DiffRequest;
use cli_assumed::read_assumed;
use cli_inputs::ToolFault;
use cli_questions::ListCounts;
use diagram_program::Program;
use search_differences::Side;
use st_expression::Expression;
use std::alloc::{AllocError, Global};

/// What is assumed of both programs, as the lists take it: of each an expression over its own inputs, where there is one.
#[derive(Clone, Copy)]
pub(crate) struct Assuming<'a> {
    pub old: Option<&'a Expression>,
    pub new: Option<&'a Expression>,
    /// Of how many expressions it is made.
    pub expressions: u64,
}

/// What a request of two programs assumes of their inputs: these expressions, and whether what comments of each program text assume counts too.
#[derive(Clone, Copy)]
pub struct Assumes<'a> {
    pub expressions: &'a [String],
    pub takes_comments: bool,
}

/// What is assumed of both programs, as it was read, and of how many expressions it is made.
#[derive(Drop)]
pub struct ReadAssumed {
    pub old: Option<Expression>,
    pub new: Option<Expression>,
    pub expressions: u64,
}

/// What is assumed of one program, and of how many expressions it is made.
#[derive(Drop)]
struct ReadOfOne {
    assumed: Option<Expression>,
    count: usize,
}

/// Nothing is assumed.
pub(crate) fn nothing<'a>() -> Assuming<'a>
    ensures { spec.assumption result ≡ nothing }
{
    Assuming {
        old: None,
        new: None,
        expressions: 0,
    }
}

/// What is counted of rows of which nothing, or so many expressions, is assumed.
pub(crate) fn rows_by(expressions: u64, rows: u64) -> ListCounts
    ensures { result ≡ rows_by expressions rows }
{
    match expressions {
        0 => ListCounts::Rows(rows),
        assumed => ListCounts::AssumedRows { rows, assumed },
    }
}

/// What is counted of groups of which nothing, or so many expressions, is assumed.
pub(crate) fn differences_by(expressions: u64, rows: u64, differences: u64) -> ListCounts
    ensures { result ≡ differences_by expressions rows differences }
{
    match expressions {
        0 => ListCounts::Differences { rows, differences },
        assumed => ListCounts::AssumedDifferences {
            rows,
            differences,
            assumed,
        },
    }
}

/// Whether a request assumes nothing, and takes no comments.
pub(crate) fn assumes_nothing(request: &DiffRequest) -> bool
    ensures { result ≡ ending.assumes_nothing request.now }
{
    request.assumed.is_empty() && !request.takes_comments
}

/// What the comments of a program text assume, where the request takes it.
fn taken_comments(alloc: Global, takes: bool, program: &[u8]) -> Result<Vec<String>, AllocError>
    ensures { IfOk result (λ v. AreTaken takes program.now (map string_bytes v.items)) }
{
    if takes {
        assumed_in(alloc, program)
    } else {
        Ok(Vec::new(alloc))
    }
}

/// Adds copies of other texts.
fn add_copies(alloc: Global, texts: &mut Vec<String>, others: &[String]) -> Result<(), AllocError>
    ensures { IfOk result (λ _. map string_bytes texts.new.items ≡ map string_bytes texts.old.items ++ map string_bytes others.now) }
{
    for text in others {
        texts.push(String::from_str(alloc, text.as_str())?)?;
    }
    Ok(())
}

/// The expressions that are assumed of a program: those of its comments, where the request takes them, and then those of the request.
fn expressions_in(
    alloc: Global,
    assumes: Assumes<'_>,
    program: &[u8],
) -> Result<Vec<String>, ToolFault>
    ensures texts { IfOk result (λ v. (comments : List (List ℕ)) × AreTaken assumes.entry.takes_comments program.now comments × (map string_bytes v.items ≡ expressions_of (assumes_in assumes.entry) comments)) }
    ensures fault { IfErr result (λ f. f ≡ Memory) }
{
    let Ok(mut texts) = taken_comments(alloc, assumes.takes_comments, program) else {
        return Err(ToolFault::Memory);
    };
    match add_copies(alloc, &mut texts, assumes.expressions) {
        Ok(()) => Ok(texts),
        Err(_) => Err(ToolFault::Memory),
    }
}

/// Reads what is assumed of one program, whose text and declarations these are.
fn read_of_one(
    alloc: Global,
    assumes: Assumes<'_>,
    text: &[u8],
    program: &Program,
) -> Result<ReadOfOne, ToolFault>
    ensures read { IfOk result (λ a. (comments : List (List ℕ)) × IsAssumedOf (assumes_in assumes.entry) text.now program.now.decls comments a.assumed × (a.count ≡ length (expressions_of (assumes_in assumes.entry) comments))) }
    ensures few { IfOk result (λ a. a.count < 2 ^ 63) }
    ensures fault { IfErr result (HasExpressionFault (assumes_in assumes.entry) text.now program.now.decls) }
{
    let texts = match expressions_in(alloc, assumes, text) {
        Ok(texts) => texts,
        Err(fault) => return Err(fault),
    };
    let count = texts.len();
    let read = read_assumed(alloc, program, texts.as_slice());
    drop(texts);
    match read {
        Ok(assumed) => Ok(ReadOfOne { assumed, count }),
        Err(fault) => Err(fault),
    }
}

/// Reads what is assumed of two programs, whose texts these are: of the old one first.
///
/// # Errors
///
/// The first expression that is refused, and of which program.
pub fn read_of_both(
    alloc: Global,
    assumes: Assumes<'_>,
    texts: &DiffTexts,
    old: &Program,
    new: &Program,
) -> Result<ReadAssumed, SidedFault>
    ensures read { IfOk result (λ a. IsAssumedOfTwo (given_by texts.now.old) (given_by texts.now.new) (assumes_in assumes.entry) old.now.decls new.now.decls
        (record { old = a.old; new = a.new; expressions = a.expressions })) }
    ensures fault { IfErr result (λ e. HasExpressionFaultOfTwo e.side (given_by texts.now.old) (given_by texts.now.new) (assumes_in assumes.entry) old.now.decls new.now.decls e.fault) }
{
    let of_old = match read_of_one(alloc, assumes, texts.old.program.as_slice(), old) {
        Ok(read) => read,
        Err(fault) => return Err(of(Side::Old, fault)),
    };
    let of_new = match read_of_one(alloc, assumes, texts.new.program.as_slice(), new) {
        Ok(read) => read,
        Err(fault) => {
            drop(of_old);
            return Err(of(Side::New, fault));
        }
    };
    // Those of the request are among the ones of each program.
    let expressions = of_old.count + of_new.count - assumes.expressions.len();
    Ok(ReadAssumed {
        old: of_old.assumed,
        new: of_new.assumed,
        expressions: expressions as u64,
    })
}

/// Reads what a comparison of a coil assumes of both programs.
///
/// # Errors
///
/// The first expression that is refused, and of which program.
pub(crate) fn read_both(
    alloc: Global,
    request: &DiffRequest,
    asked: &DiffQuery,
    texts: &DiffTexts,
) -> Result<ReadAssumed, SidedFault>
    ensures read { IfOk result (λ a. IsAssumedOfBoth (given_by texts.now.old) (given_by texts.now.new) request.now (question_of asked.now.of_old) (question_of asked.now.of_new)
        (record { old = a.old; new = a.new; expressions = a.expressions })) }
    ensures fault { IfErr result (λ e. HasExpressionFaultOf e.side (given_by texts.now.old) (given_by texts.now.new) request.now (question_of asked.now.of_old) (question_of asked.now.of_new) e.fault) }
{
    let assumes = Assumes {
        expressions: request.assumed.as_slice(),
        takes_comments: request.takes_comments,
    };
    let (old, new) = (&asked.of_old.program, &asked.of_new.program);
    match read_of_both(alloc, assumes, texts, old, new) {
        Ok(read) => Ok(read),
        Err(fault) => Err(fault),
    }
}

/// What was read, as the lists take it.
pub(crate) fn assumed_by<'a>(read: &'a ReadAssumed) -> Assuming<'a>
    ensures { spec.assumption result ≡ record { old = read.now.old; new = read.now.new; expressions = read.now.expressions } }
{
    Assuming {
        old: read.old.as_ref(),
        new: read.new.as_ref(),
        expressions: read.expressions,
    }
}
