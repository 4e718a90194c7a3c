//! The search for two states that agree and count and of which one scan of each leaves the target different.

ghost use Rattle.std.specs.Prelude.{◌≡◌, ◌≤◌, IfSome, IsNone};
ghost use Rattle.diff_cases.specs.Buffers.{AreAlikeBuffers};
ghost use Rattle.diff_meaning.specs.Counting.{AreOfPrograms, CountAssuming};
ghost use Rattle.diff_meaning.specs.Verdicts.{Shows};
ghost use Rattle.diff_verdicts.specs.Judging.{AreTried};

use crate::candidate::make;
use crate::checking::{Ends, Tried, check};
use crate::content::Form;
use diff_cases::choosing::{assumed_joint, next_joint};
use diff_cases::looking::look;
use diff_cases::partners::are_of_one_kind;
use diff_cases::pinning::{pin_answer_in, pin_in};
use diff_cases::{
    AlikeBuffers, AlikeQuestion, Joint, JointInstances, JointPoint, Likeness, Target,
};
use diff_meaning::Counted;
use invariant_cases::Answer;
use scan_signals::Tri;

/// What was found, and how many looks are left.
#[derive(Clone, Copy)]
pub(crate) struct Attempt {
    pub found: Option<Ends>,
    pub looks: u32,
}

/// The cases, in the order in which they are tried: points are ON or OFF, and instances may also answer what their inputs are.
const CASES: [Answer; 3] = [Answer::On, Answer::Off, Answer::Input];

/// How instances of one kind with different presets are tried.
const FORMS: [Form; 3] = [Form::Answering, Form::Reached, Form::NextTo];

/// Whether instances are asked of that have different presets, so that equal steps may leave them different.
fn have_other_presets(question: AlikeQuestion<'_>) -> bool {
    match question.target {
        Target::Contents(pair) => !are_of_one_kind(question.old, question.new, pair),
        Target::Variable(_) | Target::Memory(_) => false,
    }
}

/// Gives points a value in both programs.
fn pin_points(
    question: AlikeQuestion<'_>,
    points: JointPoint,
    value: Tri,
    buffers: &mut AlikeBuffers,
)
    requires { AreAlikeBuffers question.old.now question.new.now buffers.old }
    ensures { AreAlikeBuffers question.entry.old.now question.entry.new.now buffers.new }
{
    pin_in(points.old, value, &mut buffers.of_old.case);
    pin_in(points.new, value, &mut buffers.of_new.case);
}

/// Says what instances answer in both programs.
fn pin_answers(
    question: AlikeQuestion<'_>,
    instances: JointInstances,
    answer: Answer,
    buffers: &mut AlikeBuffers,
)
    requires { AreAlikeBuffers question.old.now question.new.now buffers.old }
    ensures { AreAlikeBuffers question.entry.old.now question.entry.new.now buffers.new }
{
    pin_answer_in(instances.old, answer, &mut buffers.of_old.case);
    pin_answer_in(instances.new, answer, &mut buffers.of_new.case);
}

/// Takes a case, where there is that one, or leaves open what it is made of.
fn take(
    question: AlikeQuestion<'_>,
    joint: Joint,
    answer: Answer,
    buffers: &mut AlikeBuffers,
) -> bool
    requires { AreAlikeBuffers question.old.now question.new.now buffers.old }
    ensures { AreAlikeBuffers question.entry.old.now question.entry.new.now buffers.new }
{
    match (joint, answer) {
        (Joint::Instances(instances), _) => pin_answers(question, instances, answer, buffers),
        (Joint::Points(points), Answer::On) => pin_points(question, points, Tri::On, buffers),
        (Joint::Points(points), Answer::Off) => pin_points(question, points, Tri::Off, buffers),
        (Joint::Points(points), Answer::Open) => pin_points(question, points, Tri::Unsure, buffers),
        (Joint::Points(_), Answer::Input) => return false,
    }
    true
}

/// Tries states that the case allows.
fn try_forms(
    question: AlikeQuestion<'_>,
    counted: &Counted<'_>,
    buffers: &AlikeBuffers,
    tried: &mut Tried,
) -> Option<Ends>
    requires counted { AreOfPrograms counted.now.states question.old.now question.new.now }
    requires tried { AreTried question.old.now question.new.now tried.old }
    ensures shown { IfSome result (λ ends. Shows (CountAssuming counted.now) question.entry.matching.now question.entry.old.now question.entry.new.now question.entry.target
        tried.new.old_state tried.new.new_state ends.of_old ends.of_new) }
    ensures tried { AreTried question.entry.old.now question.entry.new.now tried.new }
{
    for number in 0..FORMS.len() {
        make(question, FORMS[number], buffers, tried);
        let found = check(question, counted, tried);
        if found.is_some() {
            return found;
        }
    }
    None
}

/// What further cases are made of where what is assumed isn't true in the states that were tried: an input that leaves that open.
fn joint_where_false(
    question: AlikeQuestion<'_>,
    buffers: &AlikeBuffers,
    tried: &Tried,
) -> Option<Joint> {
    let assumed = question.assumed;
    if assumed.are_true_in(&tried.old_state, &tried.new_state) {
        return None;
    }
    assumed_joint(question, buffers)
}

/// Tries to find two states that agree and that show a difference, among those that the case allows: by further cases, and by at most so many
/// looks, each a scan of each program. What is found is checked as it stands.
#[cycle(seeking)]
pub(crate) fn seek(
    question: AlikeQuestion<'_>,
    counted: &Counted<'_>,
    buffers: &mut AlikeBuffers,
    tried: &mut Tried,
    looks: u32,
) -> Attempt
    requires counted { AreOfPrograms counted.now.states question.old.now question.new.now }
    requires buffers { AreAlikeBuffers question.old.now question.new.now buffers.old }
    requires tried { AreTried question.old.now question.new.now tried.old }
    ensures shown { IfSome result.found (λ ends. Shows (CountAssuming counted.now) question.entry.matching.now question.entry.old.now question.entry.new.now question.entry.target
        tried.new.old_state tried.new.new_state ends.of_old ends.of_new) }
    ensures none { looks ≡ 0 → IsNone result.found }
    ensures looks { result.looks ≤ looks }
    ensures buffers { AreAlikeBuffers question.entry.old.now question.entry.new.now buffers.new }
    ensures tried { AreTried question.entry.old.now question.entry.new.now tried.new }
{
    if looks == 0 {
        return Attempt {
            found: None,
            looks: 0,
        };
    }
    let left = looks - 1;
    let assumed = question.assumed;
    // No states count that are in the case.
    if assumed.is_one_false(&buffers.of_old.case, &buffers.of_new.case) {
        return Attempt {
            found: None,
            looks: left,
        };
    }
    let likeness = look(question, buffers);
    if likeness == Likeness::Open {
        if let Some(joint) = next_joint(question, buffers) {
            return by_cases(question, counted, joint, buffers, tried, left);
        }
    }
    if likeness == Likeness::Alike && !have_other_presets(question) {
        return Attempt {
            found: None,
            looks: left,
        };
    }
    try_case(question, counted, buffers, tried, left)
}

/// Tries states that the case allows, or else, where what is assumed isn't true in them, those of further cases.
#[cycle(seeking)]
fn try_case(
    question: AlikeQuestion<'_>,
    counted: &Counted<'_>,
    buffers: &mut AlikeBuffers,
    tried: &mut Tried,
    looks: u32,
) -> Attempt
    requires counted { AreOfPrograms counted.now.states question.old.now question.new.now }
    requires buffers { AreAlikeBuffers question.old.now question.new.now buffers.old }
    requires tried { AreTried question.old.now question.new.now tried.old }
    ensures shown { IfSome result.found (λ ends. Shows (CountAssuming counted.now) question.entry.matching.now question.entry.old.now question.entry.new.now question.entry.target
        tried.new.old_state tried.new.new_state ends.of_old ends.of_new) }
    ensures looks { result.looks ≤ looks }
    ensures buffers { AreAlikeBuffers question.entry.old.now question.entry.new.now buffers.new }
    ensures tried { AreTried question.entry.old.now question.entry.new.now tried.new }
{
    let found = try_forms(question, counted, &*buffers, tried);
    if found.is_some() {
        return Attempt { found, looks };
    }
    match joint_where_false(question, &*buffers, &*tried) {
        Some(joint) => by_cases(question, counted, joint, buffers, tried, looks),
        None => Attempt { found: None, looks },
    }
}

/// The same in one case, where there is that one.
#[cycle(seeking)]
fn in_case(
    question: AlikeQuestion<'_>,
    counted: &Counted<'_>,
    joint: Joint,
    answer: Answer,
    buffers: &mut AlikeBuffers,
    tried: &mut Tried,
    looks: u32,
) -> Attempt
    requires counted { AreOfPrograms counted.now.states question.old.now question.new.now }
    requires buffers { AreAlikeBuffers question.old.now question.new.now buffers.old }
    requires tried { AreTried question.old.now question.new.now tried.old }
    ensures shown { IfSome result.found (λ ends. Shows (CountAssuming counted.now) question.entry.matching.now question.entry.old.now question.entry.new.now question.entry.target
        tried.new.old_state tried.new.new_state ends.of_old ends.of_new) }
    ensures looks { result.looks ≤ looks }
    ensures buffers { AreAlikeBuffers question.entry.old.now question.entry.new.now buffers.new }
    ensures tried { AreTried question.entry.old.now question.entry.new.now tried.new }
{
    if !take(question, joint, answer, buffers) {
        return Attempt { found: None, looks };
    }
    seek(question, counted, buffers, tried, looks)
}

/// The same in each case.
#[cycle(seeking)]
fn by_cases(
    question: AlikeQuestion<'_>,
    counted: &Counted<'_>,
    joint: Joint,
    buffers: &mut AlikeBuffers,
    tried: &mut Tried,
    looks: u32,
) -> Attempt
    requires counted { AreOfPrograms counted.now.states question.old.now question.new.now }
    requires buffers { AreAlikeBuffers question.old.now question.new.now buffers.old }
    requires tried { AreTried question.old.now question.new.now tried.old }
    ensures shown { IfSome result.found (λ ends. Shows (CountAssuming counted.now) question.entry.matching.now question.entry.old.now question.entry.new.now question.entry.target
        tried.new.old_state tried.new.new_state ends.of_old ends.of_new) }
    ensures looks { result.looks ≤ looks }
    ensures buffers { AreAlikeBuffers question.entry.old.now question.entry.new.now buffers.new }
    ensures tried { AreTried question.entry.old.now question.entry.new.now tried.new }
{
    let mut left = looks;
    for case in 0..CASES.len() {
        let attempt = in_case(question, counted, joint, CASES[case], buffers, tried, left);
        if attempt.found.is_some() {
            return attempt;
        }
        left = attempt.looks;
    }
    take(question, joint, Answer::Open, buffers);
    Attempt {
        found: None,
        looks: left,
    }
}
