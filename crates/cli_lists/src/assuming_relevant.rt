//! A request for the causes of a coil over the inputs that matter, among the combinations with which what is assumed of the inputs is true.

ghost use Rattle.std.specs.Prelude.{◌≡◌, ◌≤◌, ◌⊎◌, IfErr, IfOk, None, Option, [], map, string_bytes};
ghost use Rattle.scan_cycle.specs.Standing.{Fits};
ghost use Rattle.io_text.specs.Log.{PutsAll, WriteLog};
ghost use Rattle.st_expression.specs.declared.expression.Expression.{Expression};
ghost use Rattle.causes_query.specs.Causes.{question};
ghost use Rattle.causes_query.specs.Refusal.{refusal};
ghost use Rattle.causes_one_scan.specs.Relevant.{AreInputs, Decide, DecideTruth};
ghost use Rattle.assume_reading.specs.Several.{AreAssumptions};
ghost use Rattle.cli_inputs.specs.Reports.{HasCauseFault, Refuses, logs};
ghost use Rattle.cli_inputs.specs.Setting.{given_by};
ghost use Rattle.cli_questions.specs.Query.{question_of};
ghost use Rattle.cli_assumed.specs.Assumed.{AfterReading};
ghost use Rattle.cli_lists.specs.AssumedRelevant.{BreaksAllRelevant, CountsAllRelevant, HasAllRelevantFault, HasAssumedCoilFault, IsDecidedAssuming};
ghost use Rattle.cli_lists.specs.Lists.{after_for};

use crate::assuming::{AssumedGroupRows, AssumedRows};
use crate::grouping::GroupRows;
use crate::listing::CauseRows;
use crate::relevant::list_relevant;
use causes_one_scan::{AskedScan, relevant_inputs_assuming};
use cli_arguments::{Grouping, ListRequest};
use cli_assumed::read_assumed;
use cli_inputs::{Texts, ToolFault, report};
use cli_questions::{ListQuery, list_asked, read_question};
use io_text::Sink;
use std::alloc::Global;

/// The inputs that matter to the coil, or that an expression names.
fn find_inputs(alloc: Global, asked: &ListQuery, texts: &[String]) -> Result<Vec<usize>, ToolFault>
    requires fits { Fits asked.now.program asked.now.state }
    ensures inputs { IfOk result (λ v. AreInputs asked.now.program v.items) }
    ensures decide { IfOk result (λ v. Decide (question asked.now.program asked.now.state asked.now.moment asked.now.coil v.items)) }
    ensures truth { IfOk result (λ v. (assumed : Option Expression) × AreAssumptions asked.now.program.decls (map string_bytes texts.now) assumed
        × DecideTruth assumed (question asked.now.program asked.now.state asked.now.moment asked.now.coil v.items)) }
    ensures fault { IfErr result (AfterReading (map string_bytes texts.now) (λ assumed q. HasCauseFault (refusal q None))
        (question asked.now.program asked.now.state asked.now.moment asked.now.coil [])) }
{
    let assumed = match read_assumed(alloc, &asked.program, texts) {
        Ok(assumed) => assumed,
        Err(fault) => return Err(fault),
    };
    let scan = AskedScan {
        program: &asked.program,
        state: &asked.state,
        now: asked.moment,
        coil: asked.coil,
    };
    let found = relevant_inputs_assuming(alloc, scan, assumed.as_ref());
    drop(assumed);
    match found {
        Ok(inputs) => Ok(inputs),
        Err(fault) => Err(ToolFault::Cause(fault)),
    }
}

/// Reads the program text, the state text where there is one, the name and the expressions, and finds the inputs that decide the coil and
/// whether all expressions are true.
fn read_decided_assuming(
    alloc: Global,
    request: &ListRequest,
    texts: &Texts,
) -> Result<ListQuery, ToolFault>
    ensures fits { IfOk result (λ a. Fits a.program a.state) }
    ensures decided { IfOk result (λ a. IsDecidedAssuming (given_by texts.now) request.now (question_of a)) }
    ensures fault { IfErr result (HasAssumedCoilFault (given_by texts.now) request.now) }
{
    let coil = request.coil.as_str();
    let mut asked = match read_question(alloc, texts, request.moment, coil, false, &[]) {
        Ok(asked) => asked,
        Err(fault) => return Err(fault),
    };
    let found = find_inputs(alloc, &asked, request.assumed.as_slice());
    match found {
        Ok(inputs) => {
            asked.inputs = inputs;
            Ok(asked)
        }
        Err(fault) => Err(fault),
    }
}

/// Lists the causes of the coil in the state of the texts over the inputs that matter, in groups where these are asked for, and otherwise
/// after a number where there is one; where the request assumes something of the inputs, of the combinations with which it is true, over the
/// inputs that are named in it as well.
pub fn list_relevant_assuming<O: Sink, E: Sink>(
    alloc: Global,
    request: &ListRequest,
    after: Option<u64>,
    grouping: Option<Grouping>,
    texts: &Texts,
    out: &mut O,
    err: &mut E,
) -> u8
    ensures status { result ≤ 1 }
    ensures done { result ≡ 0 → CountsAllRelevant (given_by texts.now) request.now after grouping (O.log out.old) (O.log out.new) (PutsAll (E.log err.old) (E.log err.new)) }
    ensures failed { (save : WriteLog) → result ≡ 1
        → Refuses (given_by texts.now) (HasAllRelevantFault (given_by texts.now) request.now (after_for after grouping)) (logs (O.log out.old) save (E.log err.old)) (logs (O.log out.new) save (E.log err.new))
        ⊎ BreaksAllRelevant (given_by texts.now) request.now after grouping (logs (O.log out.old) save (E.log err.old)) (logs (O.log out.new) save (E.log err.new)) }
{
    let assumed = request.assumed.as_slice();
    if assumed.is_empty() {
        return list_relevant(alloc, request, after, grouping, texts, out, err);
    }
    let mut asked = match read_decided_assuming(alloc, request, texts) {
        Ok(asked) => asked,
        Err(fault) => return report(texts, &fault, err),
    };
    let (quiet, limit) = (request.quiet, request.limit);
    match grouping {
        Some(how) => {
            let rows = GroupRows { how, limit };
            let form = AssumedGroupRows { assumed, rows };
            list_asked(alloc, &form, &mut asked, quiet, texts, out, err)
        }
        None => {
            let upto = None;
            let rows = CauseRows { after, upto, limit };
            let form = AssumedRows { assumed, rows };
            list_asked(alloc, &form, &mut asked, quiet, texts, out, err)
        }
    }
}
