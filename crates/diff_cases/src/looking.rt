//! A scan of each program over three values, and what both tell of the target.

ghost use Rattle.std.specs.Prelude.{◌≡◌, ◌↔◌};
ghost use Rattle.invariant_cases.specs.Buffers.{AreCaseBuffers, KeepBuffers};
ghost use Rattle.diff_cases.specs.Buffers.{AreAlikeBuffers, KeepAlikeBuffers};
ghost use Rattle.scan_cycle.specs.Programs.{diagram_of};
ghost use Rattle.diff_cases.specs.Cases.{AreContentsAlike, AreKnownAlike, AreTracedAlike, IsPointAlike, IsToldAlike, after};
ghost use Rattle.diff_cases.specs.Traces.{trace_of, traced_after};
ghost use Rattle.diff_cases.specs.declared.looking.Likeness.TheVariants.{Alike};

use crate::assumptions::Assumptions;
use crate::buffers::AlikeBuffers;
use crate::target::Target;
use crate::trace::Trace;
use crate::tracing::scan_traced;
use diagram_declarations::BlockKind;
use diagram_program::Program;
use diff_matching::{Matching, Pair};
use invariant_cases::pinning::told;
use invariant_cases::{CaseBuffers, Point, Writers};
use scan_cycle::scene::instance;
use scan_partial::scan_known;
use scan_signals::Tri;

/// What is asked of one scan of each program: whether it leaves the target alike, where what is assumed of the inputs is true.
#[derive(Clone, Copy)]
pub struct AlikeQuestion<'a> {
    pub old: &'a Program,
    pub new: &'a Program,
    /// Where the old program writes what.
    pub old_writers: &'a Writers,
    /// Where the new program writes what.
    pub new_writers: &'a Writers,
    pub matching: &'a Matching,
    /// What is assumed of the inputs of each.
    pub assumed: Assumptions<'a>,
    pub target: Target,
}

/// What scans over three values tell of the target.
#[derive(Clone, Copy, PartialEq, Eq)]
pub enum Likeness {
    Alike,
    Different,
    Open,
}

/// Whether two values are known, and are the same.
fn liken(old: Tri, new: Tri) -> Likeness
    ensures { (result ≡ Alike) ↔ AreKnownAlike old new }
{
    match (old, new) {
        (Tri::On, Tri::On) | (Tri::Off, Tri::Off) => Likeness::Alike,
        (Tri::On, Tri::Off) | (Tri::Off, Tri::On) => Likeness::Different,
        (Tri::Unsure, _) | (_, Tri::Unsure) => Likeness::Open,
    }
}

/// What is known after a scan from what is known in the case.
pub(crate) fn scan_case(program: &Program, buffers: &mut CaseBuffers)
    requires { AreCaseBuffers program.now buffers.old }
    ensures trial { buffers.new.trial ≡ after program.now buffers.old.case }
    ensures buffers { KeepBuffers program.now buffers.old buffers.new }
{
    buffers.trial.copy_from(&buffers.case);
    scan_known(program, &mut buffers.trial, &[], 0, &mut buffers.room);
}

/// Whether both are alike.
fn liken_both(first: Likeness, second: Likeness) -> Likeness
    ensures { (result ≡ Alike) ↔ ((first ≡ Alike) × (second ≡ Alike)) }
{
    match (first, second) {
        (Likeness::Alike, other) | (other, Likeness::Alike) => other,
        (Likeness::Different, _) | (_, Likeness::Different) => Likeness::Different,
        (Likeness::Open, Likeness::Open) => Likeness::Open,
    }
}

/// Whether two instances made no step, or both one by the same inputs, which are known.
fn liken_traces(old: Trace, new: Trace) -> Likeness
    ensures { (result ≡ Alike) ↔ AreTracedAlike old new }
{
    match (old, new) {
        (Trace::Unstepped, Trace::Unstepped) => Likeness::Alike,
        (
            Trace::Stepped {
                first: old_first,
                second: old_second,
            },
            Trace::Stepped {
                first: new_first,
                second: new_second,
            },
        ) => liken_both(liken(old_first, new_first), liken(old_second, new_second)),
        (Trace::Open, _) | (_, Trace::Open) => Likeness::Open,
        (Trace::Unstepped, Trace::Stepped { .. }) | (Trace::Stepped { .. }, Trace::Unstepped) => {
            Likeness::Different
        }
    }
}

/// What scans from what is known in the case tell of a point of each program.
fn look_at_points(
    question: AlikeQuestion<'_>,
    old: Point,
    new: Point,
    buffers: &mut AlikeBuffers,
) -> Likeness
    requires { AreAlikeBuffers question.old.now question.new.now buffers.old }
    ensures told { (result ≡ Alike)
        ↔ IsPointAlike question.entry.old.now question.entry.new.now old new buffers.old.of_old.case buffers.old.of_new.case }
    ensures buffers { KeepAlikeBuffers question.entry.old.now question.entry.new.now buffers.old buffers.new }
{
    scan_case(question.old, &mut buffers.of_old);
    scan_case(question.new, &mut buffers.of_new);
    liken(
        told(old, &buffers.of_old.trial),
        told(new, &buffers.of_new.trial),
    )
}

/// What they tell of the steps of an instance of each program.
fn look_at_steps(question: AlikeQuestion<'_>, pair: Pair, buffers: &mut AlikeBuffers) -> Likeness
    requires { AreAlikeBuffers question.old.now question.new.now buffers.old }
    ensures told { (result ≡ Alike)
        ↔ AreTracedAlike (trace_of pair.old (traced_after question.entry.old.now buffers.old.of_old.case))
        (trace_of pair.new (traced_after question.entry.new.now buffers.old.of_new.case)) }
    ensures buffers { KeepAlikeBuffers question.entry.old.now question.entry.new.now buffers.old buffers.new }
{
    scan_traced(
        question.old,
        &buffers.of_old.case,
        &mut buffers.old_traces,
        &mut buffers.of_old.room,
    );
    scan_traced(
        question.new,
        &buffers.of_new.case,
        &mut buffers.new_traces,
        &mut buffers.of_new.room,
    );
    liken_traces(
        buffers.old_traces.trace(pair.old),
        buffers.new_traces.trace(pair.new),
    )
}

/// What they tell of all that an instance of each program stores.
fn look_at_contents(question: AlikeQuestion<'_>, pair: Pair, buffers: &mut AlikeBuffers) -> Likeness
    requires { AreAlikeBuffers question.old.now question.new.now buffers.old }
    ensures told { (result ≡ Alike)
        ↔ AreContentsAlike ((diagram_of question.entry.old.now).kind pair.old) question.entry.old.now question.entry.new.now pair.old pair.new
        buffers.old.of_old.case buffers.old.of_new.case }
    ensures buffers { KeepAlikeBuffers question.entry.old.now question.entry.new.now buffers.old buffers.new }
{
    match instance(question.old, pair.old).0 {
        BlockKind::Sr | BlockKind::Rs => look_at_points(
            question,
            Point::Output(pair.old),
            Point::Output(pair.new),
            buffers,
        ),
        BlockKind::Ton | BlockKind::Tof | BlockKind::Tp | BlockKind::Ctu | BlockKind::Ctd => {
            look_at_steps(question, pair, buffers)
        }
    }
}

/// What scans from what is known in the case tell of the target.
pub fn look(question: AlikeQuestion<'_>, buffers: &mut AlikeBuffers) -> Likeness
    requires { AreAlikeBuffers question.old.now question.new.now buffers.old }
    ensures told { (result ≡ Alike)
        ↔ IsToldAlike question.entry.old.now question.entry.new.now question.entry.target buffers.old.of_old.case buffers.old.of_new.case }
    ensures buffers { KeepAlikeBuffers question.entry.old.now question.entry.new.now buffers.old buffers.new }
{
    match question.target {
        Target::Variable(pair) => look_at_points(
            question,
            Point::Variable(pair.old),
            Point::Variable(pair.new),
            buffers,
        ),
        Target::Memory(pair) => look_at_points(
            question,
            Point::Memory(pair.old),
            Point::Memory(pair.new),
            buffers,
        ),
        Target::Contents(pair) => look_at_contents(question, pair, buffers),
    }
}
