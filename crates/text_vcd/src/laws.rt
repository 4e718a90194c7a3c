//! Laws over the definitions, each the contract of a function without effect.

ghost use Rattle.text_vcd.specs.Laws.{DistinctCodes, UnwrittenIsKept};

/// No two things that are shown have the same identifier code.
pub fn distinct_codes()
    ensures { DistinctCodes }
{}

/// What is not written of a scan has kept its value.
pub fn unwritten()
    ensures { UnwrittenIsKept }
{}
