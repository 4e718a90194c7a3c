//! How many names were judged how.

ghost use Rattle.std.specs.Prelude.{◌≡◌};
ghost use Rattle.diff_findings.specs.Tally.{tally_of};

use crate::finding::{Finding, Remark};
use diff_meaning::Verdict;

/// How many were judged to be left alike, how many differ, and of how many it isn't settled.
#[derive(Clone, Copy)]
pub struct Tally {
    pub same: usize,
    pub differs: usize,
    pub unsettled: usize,
}

/// How many of each there are.
pub fn count_verdicts(list: &[Finding]) -> Tally
    ensures { result ≡ tally_of list.now }
{
    let mut same = 0;
    let mut differs = 0;
    let mut unsettled = 0;
    for finding in list {
        match finding.remark {
            Remark::Judged(Verdict::Same) => same += 1,
            Remark::Judged(Verdict::Differs { .. }) => differs += 1,
            Remark::Judged(Verdict::Unsettled) => unsettled += 1,
            Remark::Initial { .. } | Remark::Preset { .. } | Remark::Moved { .. } | Remark::Alone =>
                {}
        }
    }
    Tally {
        same,
        differs,
        unsettled,
    }
}
