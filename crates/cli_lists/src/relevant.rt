//! A request for the causes of a coil over the inputs that matter.

ghost use Rattle.std.specs.Prelude.{◌≡◌, ◌≤◌, ◌⊎◌, IfErr, IfOk};
ghost use Rattle.scan_cycle.specs.Standing.{Fits};
ghost use Rattle.io_text.specs.Log.{PutsAll, WriteLog};
ghost use Rattle.cli_questions.specs.Query.{question_of};
ghost use Rattle.cli_lists.specs.Lists.{BreaksRelevant, CountsRelevant, HasCoilFault, HasRelevantFault, IsDecided, after_for};
ghost use Rattle.cli_inputs.specs.Reports.{Refuses, logs};
ghost use Rattle.cli_inputs.specs.Setting.{given_by};

use crate::grouping::GroupRows;
use crate::listing::CauseRows;
use causes_one_scan::relevant_inputs;
use cli_arguments::{Grouping, ListRequest};
use cli_inputs::{Texts, ToolFault, report};
use cli_questions::{ListQuery, list_asked, read_question};
use io_text::Sink;
use std::alloc::Global;

/// Reads the program text, the state text where there is one, and the name, and finds the inputs that matter to the coil.
fn read_decided(alloc: Global, request: &ListRequest, texts: &Texts) -> Result<ListQuery, ToolFault>
    ensures fits { IfOk result (λ a. Fits a.program a.state) }
    ensures decided { IfOk result (λ a. IsDecided (given_by texts.now) request.now (question_of a)) }
    ensures fault { IfErr result (HasCoilFault (given_by texts.now) request.now) }
{
    let coil = request.coil.as_str();
    let mut asked = match read_question(alloc, texts, request.moment, coil, false, &[]) {
        Ok(asked) => asked,
        Err(fault) => return Err(fault),
    };
    let inputs = relevant_inputs(
        alloc,
        &asked.program,
        &asked.state,
        asked.moment,
        asked.coil,
    );
    match inputs {
        Ok(inputs) => {
            asked.inputs = inputs;
            Ok(asked)
        }
        Err(fault) => Err(ToolFault::Cause(fault)),
    }
}

/// Lists the causes of the coil in the state of the texts over the inputs that matter, in groups where these are asked for, and otherwise
/// after a number where there is one.
pub(crate) fn list_relevant<O: Sink, E: Sink>(
    alloc: Global,
    request: &ListRequest,
    after: Option<u64>,
    grouping: Option<Grouping>,
    texts: &Texts,
    out: &mut O,
    err: &mut E,
) -> u8
    ensures status { result ≤ 1 }
    ensures done { result ≡ 0 → CountsRelevant (given_by texts.now) request.now after grouping (O.log out.old) (O.log out.new) (PutsAll (E.log err.old) (E.log err.new)) }
    ensures failed { (save : WriteLog) → result ≡ 1
        → Refuses (given_by texts.now) (HasRelevantFault (given_by texts.now) request.now (after_for after grouping)) (logs (O.log out.old) save (E.log err.old)) (logs (O.log out.new) save (E.log err.new))
        ⊎ BreaksRelevant (given_by texts.now) request.now after grouping (logs (O.log out.old) save (E.log err.old)) (logs (O.log out.new) save (E.log err.new)) }
{
    let mut asked = match read_decided(alloc, request, texts) {
        Ok(asked) => asked,
        Err(fault) => return report(texts, &fault, err),
    };
    let (quiet, limit) = (request.quiet, request.limit);
    match grouping {
        Some(how) => {
            let form = GroupRows { how, limit };
            list_asked(alloc, &form, &mut asked, quiet, texts, out, err)
        }
        None => {
            let upto = None;
            let form = CauseRows { after, upto, limit };
            list_asked(alloc, &form, &mut asked, quiet, texts, out, err)
        }
    }
}
