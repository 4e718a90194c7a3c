//! What belongs to a point or an instance of one program in the other one.

ghost use Rattle.std.specs.Prelude.{◌≡◌, ◌⊎◌, ◌↔◌, Contains, IfSome, IsTrue, Some};
ghost use Rattle.diff_matching.specs.Matching.{Matching};
ghost use Rattle.diff_cases.specs.Cases.{AreOfOneKind, BelongTogether, CanAnswerAlike, MayBeCases};

use crate::joint::{Joint, JointInstances, JointPoint};
use crate::looking::AlikeQuestion;
use diagram_program::Program;
use diff_matching::{Matching, Pair};
use invariant_cases::Point;
use scan_cycle::Memory;
use scan_cycle::scene::instance;
use std::alloc::Global;

/// One of the two programs.
#[derive(Clone, Copy, PartialEq, Eq)]
pub(crate) enum Side {
    Old,
    New,
}

/// A point of one of them.
#[derive(Clone, Copy, PartialEq, Eq)]
pub(crate) struct Chosen {
    pub(crate) side: Side,
    pub(crate) point: Point,
}

/// The number of a pair in the program of a side.
pub(crate) fn number_of(pair: Pair, side: Side) -> usize {
    match side {
        Side::Old => pair.old,
        Side::New => pair.new,
    }
}

/// For each number the number of a pair that it is in, in the program of one side. Past the last pair there is none.
#[derive(Drop)]
struct Places {
    variables: Vec<usize>,
    inputs: Vec<usize>,
    instances: Vec<usize>,
    memories: Vec<usize>,
}

/// For each number of one of so many the last pair that it is in.
fn find_places(
    alloc: Global,
    pairs: &[Pair],
    side: Side,
    count: usize,
) -> Result<Vec<usize>, Memory> {
    let mut places = vec![in alloc; usize::MAX; count]?;
    for number in 0..pairs.len() {
        let at = number_of(pairs[number], side);
        if at < places.len() {
            places[at] = number;
        }
    }
    Ok(places)
}

impl Places {
    /// Those of the program of a side.
    fn new(
        alloc: Global,
        program: &Program,
        matching: &Matching,
        side: Side,
    ) -> Result<Places, Memory> {
        let decls = program.decls();
        let variables = decls.vars().len();
        Ok(Places {
            variables: find_places(alloc, matching.variables(), side, variables)?,
            inputs: find_places(alloc, matching.inputs(), side, variables)?,
            instances: find_places(alloc, matching.instances(), side, decls.instances().len())?,
            memories: find_places(alloc, matching.memories(), side, program.memories())?,
        })
    }
}

/// Where in the matching the numbers of both programs are.
#[derive(Drop)]
pub struct Partners {
    old: Places,
    new: Places,
}

/// Whether the instances of a pair have one kind and one preset.
pub fn are_of_one_kind(old: &Program, new: &Program, pair: Pair) -> bool
    ensures { IsTrue result ↔ AreOfOneKind old.now new.now pair.old pair.new }
{
    instance(old, pair.old) == instance(new, pair.new)
}

/// The pair of a number in the program of a side, where the table has it.
fn pair_at(pairs: &[Pair], places: &[usize], side: Side, number: usize) -> Option<Pair>
    ensures { IfSome result (Contains pairs.now) }
{
    match places.get(number) {
        Some(at) if *at < pairs.len() && number_of(pairs[*at], side) == number => {
            Some(pairs[*at])
        }
        Some(_) | None => None,
    }
}

impl Partners {
    /// Those of two programs.
    ///
    /// # Errors
    ///
    /// `Memory` when out of memory.
    pub fn new(
        alloc: Global,
        old: &Program,
        new: &Program,
        matching: &Matching,
    ) -> Result<Partners, Memory> {
        Ok(Partners {
            old: Places::new(alloc, old, matching, Side::Old)?,
            new: Places::new(alloc, new, matching, Side::New)?,
        })
    }

    /// The places of the numbers of one program.
    fn places(&self, side: Side) -> &Places {
        match side {
            Side::Old => &self.old,
            Side::New => &self.new,
        }
    }

    /// The pair that a variable of one program is in, which may be an input.
    fn variable_pair(&self, matching: &Matching, side: Side, var: usize) -> Option<Pair>
        ensures { IfSome result (λ x. Contains matching.now.variables x ⊎ Contains matching.now.inputs x) }
    {
        let places = self.places(side);
        match pair_at(matching.variables(), &places.variables, side, var) {
            Some(pair) => Some(pair),
            None => pair_at(matching.inputs(), &places.inputs, side, var),
        }
    }

    /// The pair that an instance of one program is in.
    fn instance_pair(&self, matching: &Matching, side: Side, inst: usize) -> Option<Pair>
        ensures { IfSome result (Contains matching.now.instances) }
    {
        pair_at(
            matching.instances(),
            &self.places(side).instances,
            side,
            inst,
        )
    }

    /// The pair that a memory of one program is in.
    fn memory_pair(&self, matching: &Matching, side: Side, number: usize) -> Option<Pair>
        ensures { IfSome result (Contains matching.now.memories) }
    {
        pair_at(
            matching.memories(),
            &self.places(side).memories,
            side,
            number,
        )
    }

    /// A point of one program with the one that belongs to it, where there is one.
    fn joint_point(&self, matching: &Matching, chosen: Chosen) -> JointPoint
        ensures { BelongTogether matching.now result }
    {
        let side = chosen.side;
        match chosen.point {
            Point::Variable(var) => match self.variable_pair(matching, side, var) {
                Some(pair) => both(Point::Variable(pair.old), Point::Variable(pair.new)),
                None => alone(chosen),
            },
            Point::Output(inst) => match self.instance_pair(matching, side, inst) {
                Some(pair) => both(Point::Output(pair.old), Point::Output(pair.new)),
                None => alone(chosen),
            },
            Point::Memory(number) => match self.memory_pair(matching, side, number) {
                Some(pair) => both(Point::Memory(pair.old), Point::Memory(pair.new)),
                None => alone(chosen),
            },
            Point::Answer(_) => alone(chosen),
        }
    }

    /// What was chosen of one program, with what belongs to it.
    pub(crate) fn joint(&self, question: AlikeQuestion<'_>, chosen: Chosen) -> Joint
        ensures { MayBeCases question.entry.matching.now question.entry.old.now question.entry.new.now result }
    {
        match chosen.point {
            Point::Answer(inst) => {
                Joint::Instances(self.joint_instances(question, chosen.side, inst))
            }
            Point::Variable(_) | Point::Output(_) | Point::Memory(_) => {
                Joint::Points(self.joint_point(question.matching, chosen))
            }
        }
    }

    /// An instance of one program with the one that belongs to it, where there is one with the same kind and the same preset.
    fn joint_instances(
        &self,
        question: AlikeQuestion<'_>,
        side: Side,
        inst: usize,
    ) -> JointInstances
        ensures { CanAnswerAlike question.entry.matching.now question.entry.old.now question.entry.new.now result }
    {
        match self.instance_pair(question.matching, side, inst) {
            Some(pair) if are_of_one_kind(question.old, question.new, pair) => {
                JointInstances {
                    old: Some(pair.old),
                    new: Some(pair.new),
                }
            }
            Some(_) | None => match side {
                Side::Old => JointInstances {
                    old: Some(inst),
                    new: None,
                },
                Side::New => JointInstances {
                    old: None,
                    new: Some(inst),
                },
            },
        }
    }
}

/// Two points at once.
fn both(old: Point, new: Point) -> JointPoint
    ensures { result ≡ record { old = Some old; new = Some new } }
{
    JointPoint {
        old: Some(old),
        new: Some(new),
    }
}

/// A point of one program alone.
fn alone(chosen: Chosen) -> JointPoint
    ensures { (m : Matching) → BelongTogether m result }
{
    match chosen.side {
        Side::Old => JointPoint {
            old: Some(chosen.point),
            new: None,
        },
        Side::New => JointPoint {
            old: None,
            new: Some(chosen.point),
        },
    }
}
