//! The two programs that texts describe, and what is assumed of these.

ghost use Rattle.std.specs.Prelude.{◌≡◌, IfErr, IfOk, option_map};
ghost use Rattle.diagram_reader.specs.Titled.{HasProgram};
ghost use Rattle.io_text.specs.Log.{WriteLog};
ghost use Rattle.cli_inputs.specs.Reports.{logs};
ghost use Rattle.cli_inputs.specs.Setting.{given_by};
ghost use Rattle.cli_diff.specs.Ending.{RefusesOf};
ghost use Rattle.cli_assumed_both.specs.Together.{IsAssumedWhere, assumption_read};
ghost use Rattle.cli_verdicts.specs.Ending.{HasTextFault, HasVerdictFault, assumes_of};

use cli_arguments::VerdictRequest;
use cli_assumed_both::read_what_is_assumed;
use cli_diff::{Assumes, DiffTexts, ReadAssumed, of, report};
use cli_inputs::read_given_program;
use diagram_program::Program;
use io_text::Sink;
use search_differences::Side;
use std::alloc::Global;

/// Two programs: before a change, and after it.
#[derive(Drop)]
pub struct Programs {
    pub old: Program,
    pub new: Program,
}

/// Reads the new program, beside the old one.
fn read_new<E: Sink>(
    alloc: Global,
    texts: &DiffTexts,
    old: Program,
    err: &mut E,
) -> Result<Programs, u8>
    requires { HasProgram (given_by texts.now.old).aliases (given_by texts.now.old).program old }
    ensures old { IfOk result (λ r. HasProgram (given_by texts.now.old).aliases (given_by texts.now.old).program r.old) }
    ensures new { IfOk result (λ r. HasProgram (given_by texts.now.new).aliases (given_by texts.now.new).program r.new) }
    ensures unsaid { IfOk result (λ r. E.log err.new ≡ E.log err.old) }
    ensures status { IfErr result (λ status. status ≡ 1) }
    ensures refused { (out save : WriteLog) → IfErr result (λ status.
        RefusesOf (given_by texts.now.old) (given_by texts.now.new) (HasTextFault (given_by texts.now.old) (given_by texts.now.new)) (logs out save (E.log err.old)) (logs out save (E.log err.new))) }
{
    match read_given_program(alloc, &texts.new) {
        Ok(new) => Ok(Programs { old, new }),
        Err(fault) => {
            drop(old);
            Err(report(texts, of(Side::New, fault), err))
        }
    }
}

/// The two programs that texts describe.
///
/// # Errors
///
/// The status 1 where a text describes none, or memory ran out, once the line of the fault is on `err`: the first of the old text, or that of the
/// new one.
pub fn read_programs<E: Sink>(alloc: Global, texts: &DiffTexts, err: &mut E) -> Result<Programs, u8>
    ensures old { IfOk result (λ r. HasProgram (given_by texts.now.old).aliases (given_by texts.now.old).program r.old) }
    ensures new { IfOk result (λ r. HasProgram (given_by texts.now.new).aliases (given_by texts.now.new).program r.new) }
    ensures unsaid { IfOk result (λ r. E.log err.new ≡ E.log err.old) }
    ensures status { IfErr result (λ status. status ≡ 1) }
    ensures refused { (out save : WriteLog) → IfErr result (λ status.
        RefusesOf (given_by texts.now.old) (given_by texts.now.new) (HasTextFault (given_by texts.now.old) (given_by texts.now.new)) (logs out save (E.log err.old)) (logs out save (E.log err.new))) }
{
    match read_given_program(alloc, &texts.old) {
        Ok(old) => read_new(alloc, texts, old, err),
        Err(fault) => Err(report(texts, of(Side::Old, fault), err)),
    }
}

/// What a request assumes of the inputs of both programs, where it assumes something.
///
/// # Errors
///
/// The status 1 where an expression is refused, what is assumed cannot be true in both programs, or memory ran out, once the line of the fault is on
/// `err`.
pub(crate) fn read_assumed<E: Sink>(
    alloc: Global,
    request: &VerdictRequest,
    texts: &DiffTexts,
    programs: &Programs,
    err: &mut E,
) -> Result<Option<ReadAssumed>, u8>
    requires old { HasProgram (given_by texts.now.old).aliases (given_by texts.now.old).program programs.now.old }
    requires new { HasProgram (given_by texts.now.new).aliases (given_by texts.now.new).program programs.now.new }
    ensures read { IfOk result (λ a. IsAssumedWhere (given_by texts.now.old) (given_by texts.now.new) (assumes_of request.now) programs.now.old programs.now.new (option_map assumption_read a)) }
    ensures unsaid { IfOk result (λ a. E.log err.new ≡ E.log err.old) }
    ensures status { IfErr result (λ status. status ≡ 1) }
    ensures refused { (out save : WriteLog) → IfErr result (λ status.
        RefusesOf (given_by texts.now.old) (given_by texts.now.new) (HasVerdictFault (given_by texts.now.old) (given_by texts.now.new) request.now) (logs out save (E.log err.old)) (logs out save (E.log err.new))) }
{
    let assumes = Assumes {
        expressions: request.assumed.as_slice(),
        takes_comments: request.takes_comments,
    };
    match read_what_is_assumed(alloc, assumes, texts, &programs.old, &programs.new) {
        Ok(read) => Ok(read),
        Err(fault) => Err(report(texts, fault, err)),
    }
}
