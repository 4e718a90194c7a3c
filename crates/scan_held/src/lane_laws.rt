//! The law of scans over words: the function does nothing, and its contract is the law.

ghost use Rattle.scan_signals.specs.Relations.{AllowsAt, allows_kept};
ghost use Rattle.scan_symbolic.specs.KnownScan.{plainly};
ghost use Rattle.scan_held.specs.Lanes.{lanes};
ghost use Rattle.scan_held.specs.LanesLaws.{IsInLane, lanes_keep};
ghost use Rattle.scan_held.specs.SeveralLanes.{LanesGoAlone};
ghost use Rattle.scan_cycle.specs.Programs.{diagram_of};
ghost use Rattle.scan_signals.specs.WordLaws.{words_allowed, words_lattice};
ghost use Rattle.scan_signals.specs.Words.{IsBit, IsWord, word_allows, words};

use crate::lanes::Lanes;
use diagram_program::Program;
use scan_signals::{Stored, Word64};
use scan_symbolic::partial_laws::{StepRelation, known_is_scan, scan_keeps};

/// What is in a lane, and what is stored in it, at the moment of a scan.
#[derive(Clone, Copy)]
struct InLane {
    lane: u64,
    now: u64,
}

impl StepRelation for InLane {
    type Left = Word64;

    type Right = bool;

    type LeftKept = Lanes;

    type RightKept = Stored;

    ghost left = { lanes };

    ghost right = { plainly };

    ghost related = { λ at. AllowsAt IsWord IsBit word_allows at.lane };

    ghost alike = { λ at _ _. IsInLane at.lane };

    ghost left_moment = { λ at. at.now };

    ghost right_moment = { λ at. at.now };

    ghost kept = { λ at. allows_kept IsWord words IsBit word_allows words_lattice words_allowed at.lane };

    ghost steps = { λ at d. lanes_keep at.lane at.now d };
}

/// Through several scans over words, at whatever moments, each lane goes on as by itself.
pub fn go_alone(program: &Program)
    ensures { LanesGoAlone (diagram_of program.now) }
{
    scan_keeps::<InLane>();
    known_is_scan(program);
}
