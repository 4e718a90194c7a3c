//! Settling by cases, side by side, that one scan of each program leaves the target alike.

ghost use Rattle.std.specs.Prelude.{◌≡◌, ◌≤◌, ◌<◌, IsTrue, false};
ghost use Rattle.diff_cases.specs.Assuming.{assumed_of_both};
ghost use Rattle.diff_cases.specs.Buffers.{AreAlikeBuffers, KeepAlikeBuffers};
ghost use Rattle.diff_cases.specs.Cases.{BelongTogether, CanAnswerAlike, IsSettledAlikeAssuming, IsToldAlike, MayBeCases, answering_in, pinned_in};

use crate::buffers::AlikeBuffers;
use crate::choosing::joint_after;
use crate::joint::{Joint, JointInstances, JointPoint};
use crate::looking::{AlikeQuestion, Likeness, look};
use crate::pinning::{answer_in, pin_answer_in, pin_in, told_in};
use invariant_cases::Answer;
use scan_signals::Tri;

/// Whether it is settled, and how many looks are left.
#[derive(Clone, Copy, PartialEq, Eq)]
pub struct Search {
    pub is_settled: bool,
    pub looks: u32,
}

/// It is settled, and so many looks are left.
fn settled(looks: u32) -> Search
    ensures settled { IsTrue result.is_settled }
    ensures looks { result.looks ≡ looks }
{
    Search {
        is_settled: true,
        looks,
    }
}

/// Whether the target is settled to be left alike from what is known in the case, where what is assumed of the inputs is true, by at most so many
/// looks, each a scan of each program, with further cases. Both cases are the same afterwards. Whether instances can be compared isn't asked here:
/// `are_of_one_kind` tells it.
#[cycle(settling)]
pub fn settle(question: AlikeQuestion<'_>, buffers: &mut AlikeBuffers, looks: u32) -> Search
    requires { AreAlikeBuffers question.old.now question.new.now buffers.old }
    ensures settled { IsTrue result.is_settled
        → IsSettledAlikeAssuming question.entry.old.now question.entry.new.now (assumed_of_both question.entry.assumed) question.entry.matching.now question.entry.target buffers.old.of_old.case buffers.old.of_new.case }
    ensures at_once { 0 < looks → IsToldAlike question.entry.old.now question.entry.new.now question.entry.target buffers.old.of_old.case buffers.old.of_new.case
        → IsTrue result.is_settled }
    ensures looks { result.looks ≤ looks }
    ensures none { looks ≡ 0 → result.is_settled ≡ false }
    ensures buffers { KeepAlikeBuffers question.entry.old.now question.entry.new.now buffers.old buffers.new }
{
    if looks == 0 {
        return Search {
            is_settled: false,
            looks: 0,
        };
    }
    let left = looks - 1;
    let assumed = question.assumed;
    // No states count that are in the case.
    if assumed.is_one_false(&buffers.of_old.case, &buffers.of_new.case) {
        return settled(left);
    }
    let likeness = look(question, buffers);
    match likeness {
        Likeness::Alike => settled(left),
        Likeness::Different | Likeness::Open => match joint_after(question, likeness, buffers) {
            Some(joint) => split(question, joint, buffers, left),
            None => Search {
                is_settled: false,
                looks: left,
            },
        },
    }
}

/// The same by cases of what both programs have.
#[cycle(settling)]
fn split(
    question: AlikeQuestion<'_>,
    joint: Joint,
    buffers: &mut AlikeBuffers,
    looks: u32,
) -> Search
    requires buffers { AreAlikeBuffers question.old.now question.new.now buffers.old }
    requires joint { MayBeCases question.matching.now question.old.now question.new.now joint }
    ensures settled { IsTrue result.is_settled
        → IsSettledAlikeAssuming question.entry.old.now question.entry.new.now (assumed_of_both question.entry.assumed) question.entry.matching.now question.entry.target buffers.old.of_old.case buffers.old.of_new.case }
    ensures looks { result.looks ≤ looks }
    ensures buffers { KeepAlikeBuffers question.entry.old.now question.entry.new.now buffers.old buffers.new }
{
    match joint {
        Joint::Points(points) => by_values(question, points, buffers, looks),
        Joint::Instances(instances) => by_answers(question, instances, buffers, looks),
    }
}

/// The same where the point is ON, and where it is OFF.
#[cycle(settling)]
fn by_values(
    question: AlikeQuestion<'_>,
    joint: JointPoint,
    buffers: &mut AlikeBuffers,
    looks: u32,
) -> Search
    requires buffers { AreAlikeBuffers question.old.now question.new.now buffers.old }
    requires joint { BelongTogether question.matching.now joint }
    ensures settled { IsTrue result.is_settled
        → IsSettledAlikeAssuming question.entry.old.now question.entry.new.now (assumed_of_both question.entry.assumed) question.entry.matching.now question.entry.target buffers.old.of_old.case buffers.old.of_new.case }
    ensures looks { result.looks ≤ looks }
    ensures buffers { KeepAlikeBuffers question.entry.old.now question.entry.new.now buffers.old buffers.new }
{
    let on = with_value(question, joint, Tri::On, buffers, looks);
    if !on.is_settled {
        return on;
    }
    with_value(question, joint, Tri::Off, buffers, on.looks)
}

/// The same where the point has this value.
#[cycle(settling)]
fn with_value(
    question: AlikeQuestion<'_>,
    joint: JointPoint,
    value: Tri,
    buffers: &mut AlikeBuffers,
    looks: u32,
) -> Search
    requires { AreAlikeBuffers question.old.now question.new.now buffers.old }
    ensures settled { IsTrue result.is_settled
        → IsSettledAlikeAssuming question.entry.old.now question.entry.new.now (assumed_of_both question.entry.assumed) question.entry.matching.now question.entry.target
        (pinned_in buffers.old.of_old.case joint.old value) (pinned_in buffers.old.of_new.case joint.new value) }
    ensures looks { result.looks ≤ looks }
    ensures buffers { KeepAlikeBuffers question.entry.old.now question.entry.new.now buffers.old buffers.new }
{
    let old = told_in(joint.old, &buffers.of_old.case);
    let new = told_in(joint.new, &buffers.of_new.case);
    pin_in(joint.old, value, &mut buffers.of_old.case);
    pin_in(joint.new, value, &mut buffers.of_new.case);
    let search = settle(question, buffers, looks);
    pin_in(joint.old, old, &mut buffers.of_old.case);
    pin_in(joint.new, new, &mut buffers.of_new.case);
    search
}

/// The same with each of the three answers of an instance.
#[cycle(settling)]
fn by_answers(
    question: AlikeQuestion<'_>,
    joint: JointInstances,
    buffers: &mut AlikeBuffers,
    looks: u32,
) -> Search
    requires buffers { AreAlikeBuffers question.old.now question.new.now buffers.old }
    requires joint { CanAnswerAlike question.matching.now question.old.now question.new.now joint }
    ensures settled { IsTrue result.is_settled
        → IsSettledAlikeAssuming question.entry.old.now question.entry.new.now (assumed_of_both question.entry.assumed) question.entry.matching.now question.entry.target buffers.old.of_old.case buffers.old.of_new.case }
    ensures looks { result.looks ≤ looks }
    ensures buffers { KeepAlikeBuffers question.entry.old.now question.entry.new.now buffers.old buffers.new }
{
    let on = with_answer(question, joint, Answer::On, buffers, looks);
    if !on.is_settled {
        return on;
    }
    let off = with_answer(question, joint, Answer::Off, buffers, on.looks);
    if !off.is_settled {
        return off;
    }
    with_answer(question, joint, Answer::Input, buffers, off.looks)
}

/// The same with this answer of an instance.
#[cycle(settling)]
fn with_answer(
    question: AlikeQuestion<'_>,
    joint: JointInstances,
    answer: Answer,
    buffers: &mut AlikeBuffers,
    looks: u32,
) -> Search
    requires { AreAlikeBuffers question.old.now question.new.now buffers.old }
    ensures settled { IsTrue result.is_settled
        → IsSettledAlikeAssuming question.entry.old.now question.entry.new.now (assumed_of_both question.entry.assumed) question.entry.matching.now question.entry.target
        (answering_in buffers.old.of_old.case joint.old answer) (answering_in buffers.old.of_new.case joint.new answer) }
    ensures looks { result.looks ≤ looks }
    ensures buffers { KeepAlikeBuffers question.entry.old.now question.entry.new.now buffers.old buffers.new }
{
    let old = answer_in(joint.old, &buffers.of_old.case);
    let new = answer_in(joint.new, &buffers.of_new.case);
    pin_answer_in(joint.old, answer, &mut buffers.of_old.case);
    pin_answer_in(joint.new, answer, &mut buffers.of_new.case);
    let search = settle(question, buffers, looks);
    pin_answer_in(joint.old, old, &mut buffers.of_old.case);
    pin_answer_in(joint.new, new, &mut buffers.of_new.case);
    search
}
