//! How a list ends: a form writes what is asked, and then its counts are told, or what stopped it.

ghost use Rattle.std.specs.Prelude.{◌≡◌, ◌≤◌, ◌⊎◌};
ghost use Rattle.scan_cycle.specs.Standing.{Fits};
ghost use Rattle.causes_query.specs.Causes.{Question};
ghost use Rattle.io_text.specs.Log.{PutsAll, WriteLog};
ghost use Rattle.cli_inputs.specs.Reports.{Refuses, logs};
ghost use Rattle.cli_inputs.specs.Setting.{given_by};
ghost use Rattle.cli_questions.specs.Ending.{BreaksAsked, BreaksOff, CountsAsked, Ends, Form, HasRequestFault};
ghost use Rattle.cli_questions.specs.Query.{Writes, question_of};

use crate::asking::{ListQuery, read_request};
use crate::counting::{ListCounts, put_counts};
use cli_arguments::ListRequest;
use cli_inputs::{Texts, ToolFault, report};
use io_text::Sink;
use std::alloc::Global;

/// A form of list.
pub trait ListForm {
    ghost use Rattle.cli_inputs.specs.declared.fault.ToolFault.{ToolFault};

    // What a list in this form is, and why there is none.
    ghost is_list: { Self → Form };

    ghost refuses: { Self → Question → ToolFault → Type 0 };

    /// Writes the list of what is asked, and returns what is counted of it. The inputs of what is asked may have another order then.
    fn write<O: Sink>(
        &self,
        alloc: Global,
        asked: &mut ListQuery,
        out: &mut O,
    ) -> Result<ListCounts, ToolFault>
        requires fits { Fits asked.old.program asked.old.state }
        ensures { Writes (is_list self.now (question_of asked.old)) (refuses self.now (question_of asked.old)) (O.log out.old) (O.log out.new) result };
}

/// Lists what is asked in a form, and tells the counts of the list, or what stopped it. Returns the status.
pub fn list_asked<F: ListForm, O: Sink, E: Sink>(
    alloc: Global,
    form: &F,
    asked: &mut ListQuery,
    quiet: bool,
    texts: &Texts,
    out: &mut O,
    err: &mut E,
) -> u8
    requires fits { Fits asked.old.program asked.old.state }
    ensures status { result ≤ 1 }
    ensures done { result ≡ 0 → Ends (F.is_list form.now (question_of asked.old)) quiet (O.log out.old) (O.log out.new) (PutsAll (E.log err.old) (E.log err.new)) }
    ensures failed { (save : WriteLog) → result ≡ 1
        → Refuses (given_by texts.now) (F.refuses form.now (question_of asked.old)) (logs (O.log out.old) save (E.log err.old)) (logs (O.log out.new) save (E.log err.new))
        ⊎ BreaksOff (given_by texts.now) (F.is_list form.now (question_of asked.old)) quiet (logs (O.log out.old) save (E.log err.old)) (logs (O.log out.new) save (E.log err.new)) }
{
    let counts = match form.write(alloc, asked, out) {
        Ok(counts) => counts,
        Err(fault) => return report(texts, &fault, err),
    };
    let Ok(()) = put_counts(quiet, counts, err) else {
        return 1;
    };
    0
}

/// Reads what a request asks, and lists it in a form.
pub fn list_request<F: ListForm, O: Sink, E: Sink>(
    alloc: Global,
    request: &ListRequest,
    form: &F,
    texts: &Texts,
    out: &mut O,
    err: &mut E,
) -> u8
    ensures status { result ≤ 1 }
    ensures done { result ≡ 0 → CountsAsked (F.is_list form.now) (given_by texts.now) request.now (O.log out.old) (O.log out.new) (PutsAll (E.log err.old) (E.log err.new)) }
    ensures failed { (save : WriteLog) → result ≡ 1
        → Refuses (given_by texts.now) (HasRequestFault (F.refuses form.now) (given_by texts.now) request.now) (logs (O.log out.old) save (E.log err.old)) (logs (O.log out.new) save (E.log err.new))
        ⊎ BreaksAsked (F.is_list form.now) (given_by texts.now) request.now (logs (O.log out.old) save (E.log err.old)) (logs (O.log out.new) save (E.log err.new)) }
{
    match read_request(alloc, request, texts) {
        Ok(mut asked) => list_asked(alloc, form, &mut asked, request.quiet, texts, out, err),
        Err(fault) => report(texts, &fault, err),
    }
}
