//! Which point cases are made of next: one that leaves open what is asked. The choice decides how long a search takes, and nothing else.

ghost use Rattle.std.specs.Prelude.{◌<◌, IfSome};
ghost use Rattle.invariant_cases.specs.Buffers.{AreCaseBuffers, KeepBuffers};
ghost use Rattle.diff_cases.specs.Buffers.{AreAlikeBuffers, KeepAlikeBuffers};
ghost use Rattle.diff_cases.specs.Cases.{MayBeCases};

use crate::buffers::AlikeBuffers;
use crate::joint::Joint;
use crate::looking::{AlikeQuestion, Likeness, scan_case};
use crate::owners::{Owner, find_owner, first_written, is_written_before, read_by};
use crate::partners::{Chosen, Side, number_of};
use crate::pinning::{answer_in, pin_answer_in};
use crate::target::Target;
use crate::trace::Trace;
use crate::tracing::TraceBuffers;
use diagram_declarations::BlockKind;
use diagram_program::{Cell, Operand, Program};
use invariant_cases::choosing::open_point;
use invariant_cases::pinning::{pin, told};
use invariant_cases::{Answer, CaseBuffers, Point, ScanKnowledge, Writers};
use scan_cycle::scene::instance;
use scan_signals::Tri;

/// What is open after a scan of one program: a point, a memory, or the step of an instance.
#[derive(Clone, Copy)]
enum Aim {
    Point(Point),
    Memory(usize),
    Step(usize),
}

/// One program, and where it writes what.
#[derive(Clone, Copy)]
struct View<'a> {
    program: &'a Program,
    writers: &'a Writers,
}

/// A point that leaves a point open after the scan.
fn open_after(view: View<'_>, point: Point, buffers: &CaseBuffers) -> Option<Point> {
    let sight = ScanKnowledge {
        program: view.program,
        writers: view.writers,
        before: &buffers.case,
        after: &buffers.trial,
    };
    open_point(sight, point)
}

/// A point that leaves open what a scan makes of a point, where it was so at some time in the scan.
fn open_within(view: View<'_>, point: Point, buffers: &mut CaseBuffers) -> Option<Point>
    requires { AreCaseBuffers view.program.now buffers.old }
    ensures { KeepBuffers view.entry.program.now buffers.old buffers.new }
{
    pin(point, Tri::Unsure, &mut buffers.trial);
    open_after(view, point, buffers)
}

/// The same, unless it is what the instance answers.
fn beside_answer(open: Option<Point>, inst: usize) -> Option<Point> {
    match open {
        Some(Point::Answer(other)) if other == inst => None,
        Some(_) | None => open,
    }
}

/// A point that leaves the step of an instance open. What it answers makes no difference to that.
fn open_step(view: View<'_>, inst: usize, buffers: &mut CaseBuffers) -> Option<Point>
    requires { AreCaseBuffers view.program.now buffers.old }
    ensures { KeepBuffers view.entry.program.now buffers.old buffers.new }
{
    scan_case(view.program, buffers);
    let before = answer_in(Some(inst), &buffers.case);
    pin_answer_in(Some(inst), Answer::On, &mut buffers.case);
    let open = open_within(view, Point::Output(inst), buffers);
    pin_answer_in(Some(inst), before, &mut buffers.case);
    beside_answer(open, inst)
}

/// A point that leaves open what a contact of a rung reads.
fn open_operand(
    view: View<'_>,
    rung: usize,
    operand: Operand,
    buffers: &mut CaseBuffers,
) -> Option<Point>
    requires rung { rung < view.program.now.rungs }
    requires buffers { AreCaseBuffers view.program.now buffers.old }
    ensures { KeepBuffers view.entry.program.now buffers.old buffers.new }
{
    let point = read_by(operand);
    if is_written_before(view.program, rung, point) {
        return open_within(view, point, buffers);
    }
    match told(point, &buffers.case) {
        Tri::Unsure => Some(point),
        Tri::Off | Tri::On => None,
    }
}

/// A point that leaves open what the cells of a rung write.
fn open_rung(view: View<'_>, rung: usize, buffers: &mut CaseBuffers) -> Option<Point>
    requires rung { rung < view.program.now.rungs }
    requires buffers { AreCaseBuffers view.program.now buffers.old }
    ensures { KeepBuffers view.entry.program.now buffers.old buffers.new }
{
    match first_written(view.program, rung) {
        Some(written) => open_within(view, written, buffers),
        None => None,
    }
}

/// A point that leaves open what a cell makes of its memory.
fn open_owner(view: View<'_>, owner: Owner, buffers: &mut CaseBuffers) -> Option<Point>
    requires rung { owner.rung < view.program.now.rungs }
    requires buffers { AreCaseBuffers view.program.now buffers.old }
    ensures { KeepBuffers view.entry.program.now buffers.old buffers.new }
{
    let read = match owner.cell {
        Cell::Contact { operand, .. } => open_operand(view, owner.rung, operand, buffers),
        _ => None,
    };
    match read {
        Some(point) => Some(point),
        None => open_rung(view, owner.rung, buffers),
    }
}

/// A point that leaves a memory open after the scan, where it is.
fn open_memory(view: View<'_>, number: usize, buffers: &mut CaseBuffers) -> Option<Point>
    requires { AreCaseBuffers view.program.now buffers.old }
    ensures { KeepBuffers view.entry.program.now buffers.old buffers.new }
{
    match (
        told(Point::Memory(number), &buffers.trial),
        find_owner(view.program, number),
    ) {
        (Tri::Unsure, Some(owner)) => open_owner(view, owner, buffers),
        (Tri::Off | Tri::On, _) | (Tri::Unsure, None) => None,
    }
}

/// What is open of the target in one program, where it is.
fn aim_in(question: AlikeQuestion<'_>, side: Side) -> Aim {
    match question.target {
        Target::Variable(pair) => Aim::Point(Point::Variable(number_of(pair, side))),
        Target::Memory(pair) => Aim::Memory(number_of(pair, side)),
        Target::Contents(pair) => match instance(question.old, pair.old).0 {
            BlockKind::Sr | BlockKind::Rs => Aim::Point(Point::Output(number_of(pair, side))),
            BlockKind::Ton | BlockKind::Tof | BlockKind::Tp | BlockKind::Ctu | BlockKind::Ctd => {
                Aim::Step(number_of(pair, side))
            }
        },
    }
}

/// Whether it isn't known which step this is.
fn is_open(trace: Trace) -> bool {
    match trace {
        Trace::Unstepped => false,
        Trace::Stepped { first, second } => first == Tri::Unsure || second == Tri::Unsure,
        Trace::Open => true,
    }
}

/// A point of one program that leaves the target open there.
fn choose_in(
    view: View<'_>,
    aim: Aim,
    traces: &TraceBuffers,
    buffers: &mut CaseBuffers,
) -> Option<Point>
    requires { AreCaseBuffers view.program.now buffers.old }
    ensures { KeepBuffers view.entry.program.now buffers.old buffers.new }
{
    match aim {
        Aim::Point(point) => open_after(view, point, buffers),
        Aim::Memory(number) => open_memory(view, number, buffers),
        Aim::Step(inst) => {
            if is_open(traces.trace(inst)) {
                open_step(view, inst, buffers)
            } else {
                None
            }
        }
    }
}

/// A point that leaves the target open in the old program, or else in the new one, after a look.
fn choose(question: AlikeQuestion<'_>, buffers: &mut AlikeBuffers) -> Option<Chosen>
    requires { AreAlikeBuffers question.old.now question.new.now buffers.old }
    ensures { KeepAlikeBuffers question.entry.old.now question.entry.new.now buffers.old buffers.new }
{
    let old = View {
        program: question.old,
        writers: question.old_writers,
    };
    let aim_of_old = aim_in(question, Side::Old);
    if let Some(point) = choose_in(old, aim_of_old, &buffers.old_traces, &mut buffers.of_old) {
        return Some(Chosen {
            side: Side::Old,
            point,
        });
    }
    let new = View {
        program: question.new,
        writers: question.new_writers,
    };
    let aim_of_new = aim_in(question, Side::New);
    match choose_in(new, aim_of_new, &buffers.new_traces, &mut buffers.of_new) {
        Some(point) => Some(Chosen {
            side: Side::New,
            point,
        }),
        None => None,
    }
}

/// What the next cases are made of, after a look: what leaves the target open in one program, and what belongs to it in the other.
pub fn next_joint(question: AlikeQuestion<'_>, buffers: &mut AlikeBuffers) -> Option<Joint>
    requires { AreAlikeBuffers question.old.now question.new.now buffers.old }
    ensures joint { IfSome result (MayBeCases question.entry.matching.now question.entry.old.now question.entry.new.now) }
    ensures buffers { KeepAlikeBuffers question.entry.old.now question.entry.new.now buffers.old buffers.new }
{
    let Some(chosen) = choose(question, buffers) else {
        return None;
    };
    Some(buffers.partners.joint(question, chosen))
}

/// The same of an input that leaves it open whether what is assumed is true.
pub fn assumed_joint(question: AlikeQuestion<'_>, buffers: &AlikeBuffers) -> Option<Joint>
    ensures { IfSome result (MayBeCases question.entry.matching.now question.entry.old.now question.entry.new.now) }
{
    let assumed = question.assumed;
    match assumed.open_input(&buffers.of_old.case, &buffers.of_new.case) {
        Some(chosen) => Some(buffers.partners.joint(question, chosen)),
        None => None,
    }
}

/// What the next cases are made of, after this look: of what leaves the target open, or else of what leaves it open whether what is assumed is true.
pub(crate) fn joint_after(
    question: AlikeQuestion<'_>,
    likeness: Likeness,
    buffers: &mut AlikeBuffers,
) -> Option<Joint>
    requires { AreAlikeBuffers question.old.now question.new.now buffers.old }
    ensures joint { IfSome result (MayBeCases question.entry.matching.now question.entry.old.now question.entry.new.now) }
    ensures buffers { KeepAlikeBuffers question.entry.old.now question.entry.new.now buffers.old buffers.new }
{
    let open = match likeness {
        Likeness::Open => next_joint(question, buffers),
        Likeness::Alike | Likeness::Different => None,
    };
    match open {
        Some(joint) => Some(joint),
        None => assumed_joint(question, &*buffers),
    }
}
