//! Settling, by cases, whether both of a pair are ON after a scan.

ghost use Rattle.std.specs.Prelude.{◌≡◌, ◌≤◌, ◌<◌, [], length, IsTrue, false};
ghost use Rattle.scan_cycle.specs.Programs.{diagram_of};
ghost use Rattle.scan_symbolic.specs.KnownScan.{after_known};
ghost use Rattle.invariant_cases.specs.Buffers.{AreCaseBuffers, KeepBuffers};
ghost use Rattle.invariant_cases.specs.Assuming.{assumed_of};
ghost use Rattle.invariant_cases.specs.Cases.{IsSettledAssuming, both_told};
ghost use Rattle.invariant_cases.specs.Outcomes.{outcomes};
ghost use Rattle.scan_signals.specs.Three.{three, three_known};

use crate::answer::Answer;
use crate::assumption::Assumption;
use crate::buffers::CaseBuffers;
use crate::choosing::choose;
use crate::flow::ScanKnowledge;
use crate::outcome::Outcome;
use crate::pair::Pair;
use crate::partners::next_forced;
use crate::pinning::{answer, is_known, pin, pin_answer, told};
use crate::point::Point;
use crate::points::point_of;
use crate::writers::Writers;
use diagram_program::Program;
use scan_partial::{Knowledge, scan_known};
use scan_signals::{Operations, Tri};

/// What is asked of a scan: whether both of a pair are ON after it, or that they aren't, as is wanted, where of no pair both are ON before it and
/// what is assumed of the inputs is true. A pair of one with itself is ON where that one is.
#[derive(Clone, Copy)]
pub struct Question<'a> {
    pub program: &'a Program,
    /// Where the program writes what.
    pub writers: &'a Writers,
    /// What is assumed of the inputs.
    pub assumption: Assumption<'a>,
    /// Of each not both are ON before the scan.
    pub pairs: &'a [Pair],
    pub target: Pair,
    pub wanted: bool,
}

/// Whether it is settled, and how many scans are left.
#[derive(Clone, Copy, Debug, PartialEq, Eq)]
pub struct Search {
    pub is_settled: bool,
    pub scans: u32,
}

/// What is known of whether both of a pair are ON.
pub fn both_told(pair: Pair, known: &Knowledge<Tri, Outcome>) -> Tri
    ensures { result ≡ both_told pair known.now }
{
    told(point_of(pair.first), known).and(told(point_of(pair.second), known))
}

/// What is known of the target after a scan from what is known in the case.
pub fn look(question: Question<'_>, buffers: &mut CaseBuffers) -> Tri
    requires { AreCaseBuffers question.program.now buffers.old }
    ensures told { result ≡ both_told question.entry.target (after_known three outcomes (diagram_of question.entry.program.now) 0 [] buffers.old.case) }
    ensures buffers { KeepBuffers question.entry.program.now buffers.old buffers.new }
{
    buffers.trial.copy_from(&buffers.case);
    scan_known(
        question.program,
        &mut buffers.trial,
        &[],
        0,
        &mut buffers.room,
    );
    both_told(question.target, &buffers.trial)
}

/// It is settled, and so many scans are left.
fn settled(scans: u32) -> Search
    ensures settled { IsTrue result.is_settled }
    ensures scans { result.scans ≡ scans }
{
    Search {
        is_settled: true,
        scans,
    }
}

/// The point that further cases are made of after a look: one that leaves open what is asked, or else whether what is assumed is true.
fn next_point(question: Question<'_>, both: Tri, buffers: &CaseBuffers) -> Option<Point> {
    let sight = ScanKnowledge {
        program: question.program,
        writers: question.writers,
        before: &buffers.case,
        after: &buffers.trial,
    };
    match (both, choose(sight, question.target)) {
        (Tri::Unsure, Some(point)) => Some(point),
        (Tri::Unsure | Tri::Off | Tri::On, _) => question.assumption.open_input(&buffers.case),
    }
}

/// Whether what is asked is settled to be as is wanted after a scan from what is known in the case, by at most so many scans, with further
/// cases. The case is the same afterwards.
#[cycle(settling)]
pub fn settle(question: Question<'_>, buffers: &mut CaseBuffers, scans: u32) -> Search
    requires { AreCaseBuffers question.program.now buffers.old }
    ensures settled { IsTrue result.is_settled
        → IsSettledAssuming question.entry.program.now (assumed_of question.entry.assumption) question.entry.pairs.now question.entry.target question.entry.wanted buffers.old.case }
    ensures at_once { 0 < scans
        → both_told question.entry.target (after_known three outcomes (diagram_of question.entry.program.now) 0 [] buffers.old.case) ≡ three_known question.entry.wanted
        → IsTrue result.is_settled }
    ensures scans { result.scans ≤ scans }
    ensures none { scans ≡ 0 → result.is_settled ≡ false }
    ensures buffers { KeepBuffers question.entry.program.now buffers.old buffers.new }
{
    if scans == 0 {
        return Search {
            is_settled: false,
            scans: 0,
        };
    }
    let left = scans - 1;
    // No state counts that is in the case.
    if question.assumption.is_false(&buffers.case) {
        return settled(left);
    }
    let both = look(question, buffers);
    if is_known(both, question.wanted) {
        return settled(left);
    }
    match next_point(question, both, &*buffers) {
        Some(Point::Answer(inst)) => by_answers(question, inst, buffers, left),
        Some(point) => by_values(question, point, buffers, left),
        None => Search {
            is_settled: false,
            scans: left,
        },
    }
}

/// The same with all OFF that the pairs from a number on force to be.
#[cycle(settling)]
fn by_partners(
    question: Question<'_>,
    number: usize,
    buffers: &mut CaseBuffers,
    scans: u32,
) -> Search
    requires number { number ≤ length question.pairs.now }
    requires buffers { AreCaseBuffers question.program.now buffers.old }
    ensures settled { IsTrue result.is_settled
        → IsSettledAssuming question.entry.program.now (assumed_of question.entry.assumption) question.entry.pairs.now question.entry.target question.entry.wanted buffers.old.case }
    ensures scans { result.scans ≤ scans }
    ensures buffers { KeepBuffers question.entry.program.now buffers.old buffers.new }
{
    let Some(forced) = next_forced(question.pairs, number, &buffers.case) else {
        return settle(question, buffers, scans);
    };
    let before = told(forced.point, &buffers.case);
    pin(forced.point, Tri::Off, &mut buffers.case);
    let search = by_partners(question, forced.number + 1, buffers, scans);
    pin(forced.point, before, &mut buffers.case);
    search
}

/// The same where the point is ON, and where it is OFF.
#[cycle(settling)]
fn by_values(question: Question<'_>, point: Point, buffers: &mut CaseBuffers, scans: u32) -> Search
    requires { AreCaseBuffers question.program.now buffers.old }
    ensures settled { IsTrue result.is_settled
        → IsSettledAssuming question.entry.program.now (assumed_of question.entry.assumption) question.entry.pairs.now question.entry.target question.entry.wanted buffers.old.case }
    ensures scans { result.scans ≤ scans }
    ensures buffers { KeepBuffers question.entry.program.now buffers.old buffers.new }
{
    let before = told(point, &buffers.case);
    pin(point, Tri::On, &mut buffers.case);
    let on = by_partners(question, 0, buffers, scans);
    if !on.is_settled {
        pin(point, before, &mut buffers.case);
        return on;
    }
    pin(point, Tri::Off, &mut buffers.case);
    let off = settle(question, buffers, on.scans);
    pin(point, before, &mut buffers.case);
    off
}

/// The same with each of the three answers of an instance.
#[cycle(settling)]
fn by_answers(question: Question<'_>, inst: usize, buffers: &mut CaseBuffers, scans: u32) -> Search
    requires { AreCaseBuffers question.program.now buffers.old }
    ensures settled { IsTrue result.is_settled
        → IsSettledAssuming question.entry.program.now (assumed_of question.entry.assumption) question.entry.pairs.now question.entry.target question.entry.wanted buffers.old.case }
    ensures scans { result.scans ≤ scans }
    ensures buffers { KeepBuffers question.entry.program.now buffers.old buffers.new }
{
    let before = answer(inst, &buffers.case);
    pin_answer(inst, Answer::On, &mut buffers.case);
    let on = settle(question, buffers, scans);
    if !on.is_settled {
        pin_answer(inst, before, &mut buffers.case);
        return on;
    }
    pin_answer(inst, Answer::Off, &mut buffers.case);
    let off = settle(question, buffers, on.scans);
    if !off.is_settled {
        pin_answer(inst, before, &mut buffers.case);
        return off;
    }
    pin_answer(inst, Answer::Input, &mut buffers.case);
    let input = settle(question, buffers, off.scans);
    pin_answer(inst, before, &mut buffers.case);
    input
}
