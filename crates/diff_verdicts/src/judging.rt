//! The judge of what two programs leave alike.

ghost use Rattle.std.specs.Prelude.{◌≡◌, ◌<◌, Bool, IfOk};
ghost use Rattle.diff_cases.specs.declared.target.Target.TheVariants.{Contents, Memory as Edge, Variable};
ghost use Rattle.diff_matching.specs.Suited.{IsSuited};
ghost use Rattle.diff_meaning.specs.Counting.{AreOfPrograms, CountAssuming};
ghost use Rattle.diff_meaning.specs.Verdicts.{CanBeJudged, IsTrueOf, Shows};
ghost use Rattle.diff_meaning.specs.declared.verdict.TheConstants.{MOMENT};
ghost use Rattle.diff_meaning.specs.declared.verdict.Verdict.TheVariants.{Differs, Same, Unsettled};
ghost use Rattle.diff_rungs.specs.Common.{AreLeftAlike};
ghost use Rattle.diff_verdicts.specs.Judging.{IsToldAtOnce, JudgesTheSame};

use crate::aids::{Aids, BothWriters, searching_with, writers_of};
use crate::asking::{find, is_same};
use crate::checking::Tried;
use crate::copying::copy_of;
use diagram_program::Program;
use diff_cases::{AlikeQuestion, Target};
use diff_matching::Matching;
use diff_meaning::{Counted, MOMENT, Verdict, Witness};
use diff_rungs::{InCommon, common};
use scan_cycle::{Memory, State};
use std::alloc::Global;
use std::marker::Model;

/// Judges what two programs leave alike.
///
/// It borrows the programs, what belongs together in them and which states count. Once made, it does not allocate.
#[derive(Drop)]
pub struct Judge<'a> {
    old_program: &'a Program,
    new_program: &'a Program,
    matching: &'a Matching,
    counted: &'a Counted<'a>,
    writers: BothWriters,
    aids: Aids,
    tried: Tried,
}

impl<'a> Model for Judge<'a> {
    ghost use Rattle.std.specs.Coded.{codes};
    ghost use Rattle.st_expression.specs.contracts.expression.Expression as expression;
    ghost use Rattle.diff_cases.specs.Buffers.{AreAlikeBuffers};
    ghost use Rattle.diff_meaning.specs.Counting.{AreOfPrograms};
    ghost use Rattle.diff_verdicts.specs.Judging.{AreTried, ClaimNothing, Judging};

    ghost Value = { Judging };

    ghost coded = { Prim.hlevel (codes, expression.the_row.coded) };

    ghost view = { λ j. record {
      old_program = j.old_program.now;
      new_program = j.new_program.now;
      matching = j.matching.now;
      counted = j.counted.now;
      old_state = j.tried.old_state;
      new_state = j.tried.new_state;
    } };

    ghost invariant = { λ j. ClaimNothing j.old_program.now j.new_program.now j.aids.nothing
        × AreAlikeBuffers j.old_program.now j.new_program.now j.aids.buffers × AreTried j.old_program.now j.new_program.now j.tried
        × AreOfPrograms j.counted.now.states j.old_program.now j.new_program.now };
}

/// The states that showed a difference, and the moment at which one scan of each does.
#[derive(Clone, Copy)]
pub struct ShownStates<'a> {
    pub moment: u64,
    pub old_state: &'a State,
    pub new_state: &'a State,
}

impl<'a> Judge<'a> {
    /// A judge of two programs, over all states that agree, or over those in which it is so what stays so in each program.
    ///
    /// # Errors
    ///
    /// `Memory` when out of memory.
    pub fn new(
        alloc: Global,
        old: &'a Program,
        new: &'a Program,
        matching: &'a Matching,
        counted: &'a Counted<'a>,
    ) -> Result<Judge<'a>, Memory>
        requires { AreOfPrograms counted.now.states old.now new.now }
        ensures old { IfOk result (λ j. j.old_program ≡ old.now) }
        ensures new { IfOk result (λ j. j.new_program ≡ new.now) }
        ensures matching { IfOk result (λ j. j.matching ≡ matching.now) }
        ensures counted { IfOk result (λ j. j.counted ≡ counted.now) }
    {
        let writers = writers_of(alloc, old, new)?;
        match searching_with(alloc, old, new, matching) {
            Ok(means) => Ok(Judge {
                old_program: old,
                new_program: new,
                matching,
                counted,
                writers,
                aids: means.aids,
                tried: means.tried,
            }),
            Err(fault) => {
                drop(writers);
                Err(fault)
            }
        }
    }

    /// What belongs together in the programs.
    pub fn matching(&self) -> &'a Matching
        ensures { result.now ≡ self.entry.now.matching }
    {
        self.matching
    }

    /// What rungs in common leave alike.
    ///
    /// # Errors
    ///
    /// `Memory` when out of memory.
    pub(crate) fn in_common(&self, alloc: Global) -> Result<InCommon, Memory>
        requires { IsSuited self.now.matching self.now.old_program self.now.new_program }
        ensures variables { IfOk result (λ c. AreLeftAlike Variable self.entry.now.matching.variables c.variables.items self.entry.now.matching self.entry.now.old_program self.entry.now.new_program) }
        ensures instances { IfOk result (λ c. AreLeftAlike Contents self.entry.now.matching.instances c.instances.items self.entry.now.matching self.entry.now.old_program self.entry.now.new_program) }
        ensures memories { IfOk result (λ c. AreLeftAlike Edge self.entry.now.matching.memories c.memories.items self.entry.now.matching self.entry.now.old_program self.entry.now.new_program) }
    {
        common(alloc, self.matching, self.old_program, self.new_program)
    }

    /// The states of the last verdict that something differs. Before one they are any states of the programs.
    pub fn witness(&self) -> ShownStates<'_>
        ensures moment { result.moment ≡ MOMENT }
        ensures old_state { result.old_state.now ≡ self.entry.now.old_state }
        ensures new_state { result.new_state.now ≡ self.entry.now.new_state }
    {
        ShownStates {
            moment: MOMENT,
            old_state: &self.tried.old_state,
            new_state: &self.tried.new_state,
        }
    }

    /// Copies of those states, as a witness that one scan of each leaves these values of the target.
    ///
    /// # Errors
    ///
    /// `Memory` when out of memory.
    pub(crate) fn copied(
        &self,
        alloc: Global,
        target: Target,
        of_old: bool,
        of_new: bool,
    ) -> Result<Witness, Memory>
        ensures { IfOk result (λ w. w ≡ record {
          target = target;
          old_state = self.entry.now.old_state;
          new_state = self.entry.now.new_state;
          of_old = of_old;
          of_new = of_new;
        }) }
    {
        let old_state = copy_of(alloc, self.old_program, &self.tried.old_state)?;
        let new_state = copy_of(alloc, self.new_program, &self.tried.new_state)?;
        Ok(Witness {
            target,
            old_state,
            new_state,
            of_old,
            of_new,
        })
    }

    /// Judges a target by at most so many looks for a proof, and as many for a difference; a look is a scan of each program. Where not all states count,
    /// as many looks again may prove it of all states.
    pub fn judge(&mut self, target: Target, looks: u32) -> Verdict
        requires target { CanBeJudged self.old.matching target }
        ensures truth { IsTrueOf (CountAssuming self.old.counted) self.old.matching self.old.old_program self.old.new_program target result }
        ensures shown { (a b : Bool) → result ≡ Differs a b
            → Shows (CountAssuming self.old.counted) self.old.matching self.old.old_program self.old.new_program target self.new.old_state self.new.new_state a b }
        ensures at_once { 0 < looks → IsToldAtOnce self.old.counted self.old.matching self.old.old_program self.old.new_program target → result ≡ Same }
        ensures none { looks ≡ 0 → result ≡ Unsettled }
        ensures same { JudgesTheSame self.old self.new }
    {
        let counted = self.counted;
        let question = AlikeQuestion {
            old: self.old_program,
            new: self.new_program,
            old_writers: &self.writers.of_old,
            new_writers: &self.writers.of_new,
            matching: self.matching,
            assumed: counted.assumed,
            target,
        };
        let nothing = &self.aids.nothing;
        if is_same(question, counted, nothing, &mut self.aids.buffers, looks) {
            return Verdict::Same;
        }
        match find(
            question,
            counted,
            nothing,
            &mut self.aids.buffers,
            &mut self.tried,
            looks,
        ) {
            Some(ends) => Verdict::Differs {
                old: ends.of_old,
                new: ends.of_new,
            },
            None => Verdict::Unsettled,
        }
    }
}
