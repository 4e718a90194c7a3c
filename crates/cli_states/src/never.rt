//! A request for what never changes, and for what is never both ON.

ghost use Rattle.std.specs.Prelude.{◌≡◌, ◌≤◌, ◌⊎◌, All, IfOk, List, option_map};
ghost use Rattle.scan_cycle.specs.Programs.{diagram_of};
ghost use Rattle.scan_cycle.specs.Runs.{OneScan, after_each};
ghost use Rattle.scan_cycle.specs.Standing.{Fits};
ghost use Rattle.io_text.specs.Log.{Puts, PutsAll, WriteLog};
ghost use Rattle.cli_inputs.specs.Reports.{Refuses, logs};
ghost use Rattle.invariant_cases.specs.Allowing.{AreApart};
ghost use Rattle.invariant_sets.specs.Invariants.{IsGivenAllowed, IsStayingAssuming};
ghost use Rattle.invariant_sets.specs.Never.{IsSo};
ghost use Rattle.invariant_sets.specs.Pairs.{HasToldApart};
ghost use Rattle.assume_reading.specs.Several.{AreAssumptions};
ghost use Rattle.cli_states.specs.Never.{BreaksAllNever, BreaksNever, BreaksNeverAssuming, CountsAllNever, CountsNever, CountsNeverAssuming, HasAllNeverFault, HasAssumedNeverFault, HasNeverFault, never_count, never_text, of_inputs, texts_of};
ghost use Rattle.cli_inputs.specs.Setting.{IsSet, given_by};

use causes_query::source::input_variables;
use cli_arguments::{Excluded, NeverRequest};
use cli_assumed::{check_satisfiable, read_assumed};
use cli_inputs::{Setting, Texts, ToolFault, read_setting, report};
use cli_questions::{ListCounts, put_count, put_counts};
use diagram_program::Program;
use invariant_cases::Assumption;
use invariant_sets::laws::allowed_where_given;
use invariant_sets::{PAIR_SCANS, SCANS, Staying, staying_assuming, staying_from};
use io_text::{Sink, WriteFault};
use scan_cycle::Memory;
use st_expression::Expression;
use std::alloc::Global;
use text_lists::{write_pairs, write_steady};

/// Writes the names that never come ON, those that never go OFF, or the pairs of names that are never both ON, and returns how many rows.
fn write_never<O: Sink>(
    program: &Program,
    excluded: Excluded,
    staying: &Staying,
    out: &mut O,
) -> Result<u64, WriteFault>
    ensures wrote { Puts (O.log out.old) (O.log out.new) result (never_text excluded program.now staying.now) }
    ensures rows { IfOk result (λ n. n ≡ never_count excluded program.now staying.now) }
{
    match excluded {
        Excluded::On => write_steady(program, &staying.steady, false, out),
        Excluded::Off => write_steady(program, &staying.steady, true, out),
        Excluded::BothOn => write_pairs(program, &staying.apart, out),
    }
}

/// Lists what never is from a state on, as the request says.
fn list_from<O: Sink, E: Sink>(
    alloc: Global,
    request: &NeverRequest,
    setting: &Setting,
    texts: &Texts,
    out: &mut O,
    err: &mut E,
) -> u8
    requires fits { Fits setting.now.program setting.now.state }
    requires set { IsSet (given_by texts.now) setting.now.program setting.now.state }
    ensures status { result ≤ 1 }
    ensures done { result ≡ 0 → CountsNever request.now.excluded (given_by texts.now) request.now (O.log out.old) (O.log out.new) (PutsAll (E.log err.old) (E.log err.new)) }
    ensures failed { (save : WriteLog) → result ≡ 1
        → Refuses (given_by texts.now) (HasNeverFault (given_by texts.now)) (logs (O.log out.old) save (E.log err.old)) (logs (O.log out.new) save (E.log err.new))
        ⊎ BreaksNever request.now.excluded (given_by texts.now) request.now (logs (O.log out.old) save (E.log err.old)) (logs (O.log out.new) save (E.log err.new)) }
{
    let (program, state) = (&setting.program, &setting.state);
    let Ok(staying) = staying_from(alloc, program, state, SCANS, PAIR_SCANS) else {
        return report(texts, &ToolFault::Memory, err);
    };
    let Ok(rows) = write_never(program, request.excluded, &staying, out) else {
        return report(texts, &ToolFault::Write, err);
    };
    let Ok(()) = put_count(request.quiet, rows, err) else {
        return 1;
    };
    0
}

/// Lists what never is from a state on in scans in which an expression over the inputs is true, as the request says.
fn list_where_true<O: Sink, E: Sink>(
    alloc: Global,
    request: &NeverRequest,
    setting: &Setting,
    assumed: Option<&Expression>,
    texts: &Texts,
    out: &mut O,
    err: &mut E,
) -> u8
    requires fits { Fits setting.now.program setting.now.state }
    requires set { IsSet (given_by texts.now) setting.now.program setting.now.state }
    requires read { AreAssumptions setting.now.program.decls (texts_of request.now) (option_map (λ e. e.now) assumed) }
    ensures status { result ≤ 1 }
    ensures done { result ≡ 0 → CountsNeverAssuming (texts_of request.now) request.now.excluded (given_by texts.now) request.now (O.log out.old) (O.log out.new) (PutsAll (E.log err.old) (E.log err.new)) }
    ensures failed { (save : WriteLog) → result ≡ 1
        → Refuses (given_by texts.now) (HasAssumedNeverFault (texts_of request.now) (given_by texts.now)) (logs (O.log out.old) save (E.log err.old)) (logs (O.log out.new) save (E.log err.new))
        ⊎ BreaksNeverAssuming (texts_of request.now) request.now.excluded (given_by texts.now) request.now (logs (O.log out.old) save (E.log err.old)) (logs (O.log out.new) save (E.log err.new)) }
{
    match check_satisfiable(alloc, assumed) {
        Ok(()) => (),
        Err(fault) => return report(texts, &fault, err),
    }
    let Ok(staying) = staying_where_true(alloc, setting, assumed) else {
        return report(texts, &ToolFault::Memory, err);
    };
    let Ok(rows) = write_never(&setting.program, request.excluded, &staying, out) else {
        return report(texts, &ToolFault::Write, err);
    };
    let expressions = request.assumed.as_slice();
    let counts = ListCounts::AssumedRows {
        rows,
        assumed: expressions.len() as u64,
    };
    let Ok(()) = put_counts(request.quiet, counts, err) else {
        return 1;
    };
    0
}

/// What stays so from a state on in scans in which an expression over the inputs is true.
fn staying_where_true(
    alloc: Global,
    setting: &Setting,
    assumed: Option<&Expression>,
) -> Result<Staying, Memory>
    requires fits { Fits setting.now.program setting.now.state }
    ensures stays { IfOk result (λ staying. IsStayingAssuming setting.now.program (of_inputs setting.now.program (option_map (λ e. e.now) assumed.entry)) setting.now.state staying) }
    ensures told { IfOk result (λ staying. HasToldApart setting.now.program setting.now.state staying.steady staying.apart) }
    ensures so { IfOk result (λ staying. (scans : List OneScan) → All (IsGivenAllowed (of_inputs setting.now.program (option_map (λ e. e.now) assumed.entry))) scans
        → IsSo staying.steady (after_each (diagram_of setting.now.program) scans setting.now.state.held)
        × AreApart staying.apart (after_each (diagram_of setting.now.program) scans setting.now.state.held)) }
{
    let (program, state) = (&setting.program, &setting.state);
    allowed_where_given(program);
    let inputs = input_variables(alloc, program.decls().vars())?;
    let assumption = Assumption {
        inputs: &inputs,
        expression: assumed,
    };
    staying_assuming(alloc, program, state, assumption, SCANS, PAIR_SCANS)
}

/// Reads what the request assumes of the inputs, and lists what never is where it is true.
fn list_assuming<O: Sink, E: Sink>(
    alloc: Global,
    request: &NeverRequest,
    setting: &Setting,
    texts: &Texts,
    out: &mut O,
    err: &mut E,
) -> u8
    requires fits { Fits setting.now.program setting.now.state }
    requires set { IsSet (given_by texts.now) setting.now.program setting.now.state }
    ensures status { result ≤ 1 }
    ensures done { result ≡ 0 → CountsNeverAssuming (texts_of request.now) request.now.excluded (given_by texts.now) request.now (O.log out.old) (O.log out.new) (PutsAll (E.log err.old) (E.log err.new)) }
    ensures failed { (save : WriteLog) → result ≡ 1
        → Refuses (given_by texts.now) (HasAssumedNeverFault (texts_of request.now) (given_by texts.now)) (logs (O.log out.old) save (E.log err.old)) (logs (O.log out.new) save (E.log err.new))
        ⊎ BreaksNeverAssuming (texts_of request.now) request.now.excluded (given_by texts.now) request.now (logs (O.log out.old) save (E.log err.old)) (logs (O.log out.new) save (E.log err.new)) }
{
    let expressions = request.assumed.as_slice();
    let assumed = match read_assumed(alloc, &setting.program, expressions) {
        Ok(assumed) => assumed,
        Err(fault) => return report(texts, &fault, err),
    };
    let status = list_where_true(alloc, request, setting, assumed.as_ref(), texts, out, err);
    drop(assumed);
    status
}

/// Lists what never is from the state of the texts on: names that never come ON, names that never go OFF, or pairs of names of which
/// never both are ON, as the request says; where it assumes something of the inputs, in scans in which that is true.
pub fn list_never<O: Sink, E: Sink>(
    alloc: Global,
    request: &NeverRequest,
    texts: &Texts,
    out: &mut O,
    err: &mut E,
) -> u8
    ensures status { result ≤ 1 }
    ensures done { result ≡ 0 → CountsAllNever (given_by texts.now) request.now (O.log out.old) (O.log out.new) (PutsAll (E.log err.old) (E.log err.new)) }
    ensures failed { (save : WriteLog) → result ≡ 1
        → Refuses (given_by texts.now) (HasAllNeverFault (given_by texts.now) request.now) (logs (O.log out.old) save (E.log err.old)) (logs (O.log out.new) save (E.log err.new))
        ⊎ BreaksAllNever (given_by texts.now) request.now (logs (O.log out.old) save (E.log err.old)) (logs (O.log out.new) save (E.log err.new)) }
{
    let setting = match read_setting(alloc, texts) {
        Ok(setting) => setting,
        Err(fault) => return report(texts, &fault, err),
    };
    let expressions = request.assumed.as_slice();
    if expressions.is_empty() {
        return list_from(alloc, request, &setting, texts, out, err);
    }
    list_assuming(alloc, request, &setting, texts, out, err)
}
