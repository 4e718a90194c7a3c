//! The search for a state that leaves the coil at the sought value.

ghost use Rattle.std.specs.Prelude.{◌≡◌, ◌<◌, ◌≤◌, IsTrue, length, option_map};
ghost use Rattle.invariant_cases.specs.Assuming.{assumed_of};
ghost use Rattle.scan_partial.specs.Sizes.{AreAsLong};
ghost use Rattle.causes_any_state.specs.Possible.{AreStatesOf, SomeLeavesBy, pairs_of};
ghost use Rattle.causes_any_state.specs.Searching.{AreStateBuffers};

use crate::buffers::StateBuffers;
use crate::candidate::is_found;
use crate::query::StateQuery;
use crate::states::pairs;
use diagram_declarations::Symbol;
use invariant_cases::cases::look;
use invariant_cases::choosing::open_point;
use invariant_cases::partners::next_forced;
use invariant_cases::pinning::{is_known, pin, pin_answer};
use invariant_cases::{Answer, Assumption, Outcome, Pair, Point, Question, ScanKnowledge};
use scan_partial::Knowledge;
use scan_signals::Tri;
use st_expression::Expression;

/// Whether a state was found, and how many scans are left.
#[derive(Clone, Copy)]
pub(crate) struct Attempt {
    pub is_found: bool,
    pub scans: u32,
}

/// The cases of a point, in the order in which they are tried: it is ON or OFF, and an instance may also answer what its input is.
const CASES: [Answer; 3] = [Answer::On, Answer::Off, Answer::Input];

/// Takes a case of a point, where it has that one.
fn choose(point: Point, answer: Answer, case: &mut Knowledge<Tri, Outcome>) -> bool
    ensures { AreAsLong case.new case.old }
{
    match (point, answer) {
        (Point::Answer(inst), _) => pin_answer(inst, answer, case),
        (_, Answer::On) => pin(point, Tri::On, case),
        (_, Answer::Off) => pin(point, Tri::Off, case),
        (_, Answer::Input | Answer::Open) => return false,
    }
    true
}

/// Leaves a point open.
fn leave(point: Point, case: &mut Knowledge<Tri, Outcome>)
    ensures { AreAsLong case.new case.old }
{
    match point {
        Point::Answer(inst) => pin_answer(inst, Answer::Open, case),
        Point::Variable(_) | Point::Output(_) | Point::Memory(_) => pin(point, Tri::Unsure, case),
    }
}

/// What is assumed of these inputs.
pub(crate) fn assumption_of<'a>(
    assumed: Option<&'a Expression>,
    inputs: &'a [usize],
) -> Assumption<'a>
    ensures { assumed_of result ≡ record { inputs = inputs.entry.now; expression = option_map (λ e. e.now) assumed.entry } }
{
    Assumption {
        inputs,
        expression: assumed,
    }
}

/// A point that leaves the coil open after the scan of the case, or where none does, one that may leave open what is assumed.
fn next_point(
    asked: StateQuery<'_>,
    assumed: Option<&Expression>,
    space: &StateBuffers,
) -> Option<Point> {
    let known = &space.knowing;
    let sight = ScanKnowledge {
        program: asked.program,
        writers: &known.writers,
        before: &known.buffers.case,
        after: &known.buffers.trial,
    };
    match open_point(sight, Point::Variable(asked.coil)) {
        Some(point) => Some(point),
        None => assumption_of(assumed, &space.sight.inputs).open_input(&known.buffers.case),
    }
}

/// Whether the case allows no state that is sought, by what a scan of it left of the coil and by what is assumed.
fn is_hopeless(
    asked: StateQuery<'_>,
    assumed: Option<&Expression>,
    value: Tri,
    space: &StateBuffers,
) -> bool {
    is_known(value, !asked.sought)
        || assumption_of(assumed, &space.sight.inputs).is_false(&space.knowing.buffers.case)
}

/// Tries to find a state that leaves the coil at the sought value, among those that the case allows: by further cases, and by at most
/// so many scans over three values. What is found is scanned as it stands.
#[cycle(seeking)]
pub(crate) fn seek(
    asked: StateQuery<'_>,
    assumed: Option<&Expression>,
    space: &mut StateBuffers,
    scans: u32,
) -> Attempt
    requires few { length asked.listed.now ≤ 64 }
    requires coil { asked.coil < length asked.program.now.decls.vars }
    requires states { AreStatesOf asked.program.now asked.states.now }
    requires space { AreStateBuffers asked.program.now space.old }
    ensures found { IsTrue result.is_found → SomeLeavesBy (option_map (λ e. e.now) assumed.entry) asked.entry.program.now asked.entry.coil asked.entry.listed.now asked.entry.states.now asked.entry.sought asked.entry.number }
    ensures scans { result.scans ≤ scans }
    ensures space { AreStateBuffers asked.entry.program.now space.new }
{
    if scans == 0 {
        return Attempt {
            is_found: false,
            scans: 0,
        };
    }
    let left = scans - 1;
    let question = Question {
        program: asked.program,
        writers: &space.knowing.writers,
        // A look asks nothing of it.
        assumption: Assumption::nothing(),
        pairs: pairs(asked.states),
        target: Pair::of_itself(Symbol::Var(asked.coil)),
        wanted: asked.sought,
    };
    let value = look(question, &mut space.knowing.buffers);
    if is_hopeless(asked, assumed, value, space) {
        return Attempt {
            is_found: false,
            scans: left,
        };
    }
    if let Some(point) = next_point(asked, assumed, space) {
        return by_cases(asked, assumed, point, space, left);
    }
    let is_found = is_found(
        asked,
        assumed,
        &space.sight.inputs,
        &space.knowing.buffers.case,
        &mut space.tried,
    );
    Attempt {
        is_found,
        scans: left,
    }
}

/// The same in each case of a point.
#[cycle(seeking)]
fn by_cases(
    asked: StateQuery<'_>,
    assumed: Option<&Expression>,
    point: Point,
    space: &mut StateBuffers,
    scans: u32,
) -> Attempt
    requires few { length asked.listed.now ≤ 64 }
    requires coil { asked.coil < length asked.program.now.decls.vars }
    requires states { AreStatesOf asked.program.now asked.states.now }
    requires space { AreStateBuffers asked.program.now space.old }
    ensures found { IsTrue result.is_found → SomeLeavesBy (option_map (λ e. e.now) assumed.entry) asked.entry.program.now asked.entry.coil asked.entry.listed.now asked.entry.states.now asked.entry.sought asked.entry.number }
    ensures scans { result.scans ≤ scans }
    ensures space { AreStateBuffers asked.entry.program.now space.new }
{
    let mut left = scans;
    for case in 0..CASES.len() {
        if choose(point, CASES[case], &mut space.knowing.buffers.case) {
            let attempt = by_partners(asked, assumed, 0, space, left);
            if attempt.is_found {
                return attempt;
            }
            left = attempt.scans;
        }
    }
    leave(point, &mut space.knowing.buffers.case);
    Attempt {
        is_found: false,
        scans: left,
    }
}

/// The same with all OFF that the pairs from a number on force to be.
#[cycle(seeking)]
fn by_partners(
    asked: StateQuery<'_>,
    assumed: Option<&Expression>,
    number: usize,
    space: &mut StateBuffers,
    scans: u32,
) -> Attempt
    requires few { length asked.listed.now ≤ 64 }
    requires coil { asked.coil < length asked.program.now.decls.vars }
    requires number { number ≤ length (pairs_of asked.states.now.staying) }
    requires states { AreStatesOf asked.program.now asked.states.now }
    requires space { AreStateBuffers asked.program.now space.old }
    ensures found { IsTrue result.is_found → SomeLeavesBy (option_map (λ e. e.now) assumed.entry) asked.entry.program.now asked.entry.coil asked.entry.listed.now asked.entry.states.now asked.entry.sought asked.entry.number }
    ensures scans { result.scans ≤ scans }
    ensures space { AreStateBuffers asked.entry.program.now space.new }
{
    let Some(forced) = next_forced(pairs(asked.states), number, &space.knowing.buffers.case) else {
        return seek(asked, assumed, space, scans);
    };
    pin(forced.point, Tri::Off, &mut space.knowing.buffers.case);
    let attempt = by_partners(asked, assumed, forced.number + 1, space, scans);
    leave(forced.point, &mut space.knowing.buffers.case);
    attempt
}
