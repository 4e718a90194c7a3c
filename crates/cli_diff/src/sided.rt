//! What stops a comparison.

ghost use Rattle.std.specs.Prelude.{◌≡◌, None, Some};
ghost use Rattle.cli_inputs.specs.Reports.{IsReportedBy};
ghost use Rattle.cli_inputs.specs.Setting.{given_by};
ghost use Rattle.cli_diff.specs.Faults.{given_of, held_fault, held_refused, refused};

use crate::texts::DiffTexts;
use cli_inputs::{ToolFault, report_by};
use diff_causes::DifferenceFault;
use diff_held::HeldDifferenceFault;
use io_text::Sink;
use scan_held::HeldFault;
use search_differences::Side;

/// What stops a comparison, and of which program it is; of a writer that failed it is of none.
#[derive(Clone, Copy, Debug, PartialEq, Eq)]
pub struct SidedFault {
    pub side: Option<Side>,
    pub fault: ToolFault,
}

/// A fault of one of the programs.
pub fn of(side: Side, fault: ToolFault) -> SidedFault
    ensures { result ≡ record { side = Some side; fault = fault } }
{
    SidedFault {
        side: Some(side),
        fault,
    }
}

/// Writes the line of a fault, with its program, and what explains it where that is asked for. Returns the status 1.
pub fn report<E: Sink>(texts: &DiffTexts, fault: SidedFault, err: &mut E) -> u8
    ensures status { result ≡ 1 }
    ensures line { IsReportedBy fault.side (given_of fault.side (given_by texts.now.old) (given_by texts.now.new)) (E.log err.old) (E.log err.new) fault.fault }
{
    match fault.side {
        None | Some(Side::Old) => report_by(fault.side, &texts.old, &fault.fault, err),
        Some(Side::New) => report_by(fault.side, &texts.new, &fault.fault, err),
    }
}

/// The fault of a question.
pub(crate) fn refused(fault: DifferenceFault) -> SidedFault
    ensures { result ≡ refused fault }
{
    match fault {
        DifferenceFault::Old(fault) => of(Side::Old, ToolFault::Cause(fault)),
        DifferenceFault::New(fault) => of(Side::New, ToolFault::Cause(fault)),
    }
}

/// The fault of a question over several scans.
fn held_fault(fault: HeldFault) -> ToolFault
    ensures { result ≡ held_fault fault }
{
    match fault {
        HeldFault::Question(fault) => ToolFault::Cause(fault),
        HeldFault::NoScans => ToolFault::NoScans,
    }
}

/// The fault of a question over several scans, and of which program it is.
pub(crate) fn held_refused(fault: HeldDifferenceFault) -> SidedFault
    ensures { result ≡ held_refused fault }
{
    match fault {
        HeldDifferenceFault::Old(fault) => of(Side::Old, held_fault(fault)),
        HeldDifferenceFault::New(fault) => of(Side::New, held_fault(fault)),
    }
}

/// The writer failed.
pub(crate) fn unwritten() -> SidedFault
    ensures { result ≡ record { side = None; fault = ToolFault.Write } }
{
    SidedFault {
        side: None,
        fault: ToolFault::Write,
    }
}
