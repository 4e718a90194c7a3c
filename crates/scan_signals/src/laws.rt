//! Laws over the definitions: each function does nothing, and its contract is the law.

ghost use Rattle.scan_signals.specs.Histories.{TonHistory, TofHistory, TpHistory, CtuHistory, CtdHistory, SrHistory, RsHistory};

/// What the output of a block is after any list of steps from a fresh one, in the terms of IEC 61131-3.
pub fn histories()
    ensures ton { TonHistory }
    ensures tof { TofHistory }
    ensures tp { TpHistory }
    ensures ctu { CtuHistory }
    ensures ctd { CtdHistory }
    ensures sr { SrHistory }
    ensures rs { RsHistory }
{}
