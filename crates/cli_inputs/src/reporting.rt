//! The report of a fault: its line and, where that is asked for, what explains it.

ghost use Rattle.std.specs.Prelude.{◌≡◌};
ghost use Rattle.cli_inputs.specs.Explained.{IsMarked};
ghost use Rattle.cli_inputs.specs.Reports.{IsReported, IsReportedBy, unread};
ghost use Rattle.cli_inputs.specs.Setting.{given_by};

use crate::explaining::write_report_by;
use crate::fault::ToolFault;
use crate::texts::Texts;
use diagram_reader::GridFault;
use io_text::Sink;
use search_differences::Side;
use std::alloc::Global;

/// The column in which a program text breaks the rule of the fault.
fn column_of(alloc: Global, text: &[u8], fault: &ToolFault) -> Option<usize>
    ensures { IsMarked text.now fault.now result }
{
    match *fault {
        ToolFault::Grid(GridFault::Grid { rule, rung, line }) => {
            diagram_reader::column_of(alloc, text, rule, rung, line)
        }
        _ => None,
    }
}

/// The column that is marked, if faults are explained.
fn marked(texts: &Texts, fault: &ToolFault) -> Option<usize>
    ensures { IsMarked (given_by texts.now).program fault.now result }
{
    if texts.why {
        column_of(*texts.program.allocator(), &texts.program, fault)
    } else {
        None
    }
}

/// Writes the line of a fault and, if that is asked for, what explains it, as far as the writer takes it. Returns the status 1.
pub fn report<E: Sink>(texts: &Texts, fault: &ToolFault, err: &mut E) -> u8
    ensures status { result ≡ 1 }
    ensures line { IsReported (given_by texts.now) (E.log err.old) (E.log err.new) fault.now }
{
    report_by(None, texts, fault, err)
}

/// The same, with the program that the fault is of, where there are two.
pub fn report_by<E: Sink>(side: Option<Side>, texts: &Texts, fault: &ToolFault, err: &mut E) -> u8
    ensures status { result ≡ 1 }
    ensures line { IsReportedBy side (given_by texts.now) (E.log err.old) (E.log err.new) fault.now }
{
    let column = marked(texts, fault);
    match write_report_by(side, texts.why, &texts.program, fault, column, err) {
        Ok(()) => 1,
        Err(_) => 1,
    }
}

/// The same for a fault that comes before the texts were read.
pub fn report_unread<E: Sink>(why: bool, fault: &ToolFault, err: &mut E) -> u8
    ensures status { result ≡ 1 }
    ensures line { IsReported (unread why) (E.log err.old) (E.log err.new) fault.now }
{
    report_unread_by(None, why, fault, err)
}

/// The same, with the program that the fault is of, where there are two.
pub fn report_unread_by<E: Sink>(
    side: Option<Side>,
    why: bool,
    fault: &ToolFault,
    err: &mut E,
) -> u8
    ensures status { result ≡ 1 }
    ensures line { IsReportedBy side (unread why) (E.log err.old) (E.log err.new) fault.now }
{
    match write_report_by(side, why, &[], fault, None, err) {
        Ok(()) => 1,
        Err(_) => 1,
    }
}
