//! Whether two states are a witness of a difference, as they stand.

ghost use Rattle.std.specs.Prelude.{◌≡◌, ◌↔◌, IfOk, IfSome, IsTrue};
ghost use Rattle.scan_cycle.specs.Standing.{Fits};
ghost use Rattle.diff_matching.specs.Matching.{Agree, AgreeOnInputs, scanned};
ghost use Rattle.diff_cases.specs.Alike.{AreAlike};
ghost use Rattle.diff_meaning.specs.Counting.{AreOfPrograms, Count, CountAssuming};
ghost use Rattle.diff_meaning.specs.Verdicts.{Shows, new_value, old_value};
ghost use Rattle.diff_meaning.specs.declared.verdict.TheConstants.{MOMENT};
ghost use Rattle.diff_verdicts.specs.Judging.{AreTried};

use diagram_program::Program;
use diff_cases::{AlikeQuestion, Target};
use diff_matching::agree;
use diff_meaning::{Counted, CountedStates, MOMENT};
use invariant_runs::stays_so;
use scan_cycle::{Memory, State, scan};
use scan_signals::Stored;
use std::alloc::Global;

/// Two states that are tried, and what a scan of each leaves.
#[derive(Drop)]
pub(crate) struct Tried {
    pub old_state: State,
    pub new_state: State,
    pub old_end: State,
    pub new_end: State,
}

/// What two scans leave of the target.
#[derive(Clone, Copy)]
pub(crate) struct Ends {
    pub of_old: bool,
    pub of_new: bool,
}

/// A state that is tried, and one that gets what a scan of it leaves.
#[derive(Drop)]
struct Trial {
    state: State,
    end: State,
}

/// Fresh states, of which the first is at the moment at which all are that are tried.
fn trial_of(alloc: Global, program: &Program) -> Result<Trial, Memory>
    ensures fits { IfOk result (λ t. Fits program.now t.state) }
    ensures moment { IfOk result (λ t. t.state.moment ≡ MOMENT) }
    ensures end { IfOk result (λ t. Fits program.now t.end) }
{
    let mut state = State::fresh(alloc, program)?;
    state.set_moment(MOMENT);
    match State::fresh(alloc, program) {
        Ok(end) => Ok(Trial { state, end }),
        Err(fault) => {
            drop(state);
            Err(fault)
        }
    }
}

/// States of two programs.
pub(crate) fn new_tried(alloc: Global, old: &Program, new: &Program) -> Result<Tried, Memory>
    ensures { IfOk result (λ t. AreTried old.now new.now t) }
{
    let of_old = trial_of(alloc, old)?;
    match trial_of(alloc, new) {
        Ok(of_new) => Ok(Tried {
            old_state: of_old.state,
            old_end: of_old.end,
            new_state: of_new.state,
            new_end: of_new.end,
        }),
        Err(fault) => {
            drop(of_old);
            Err(fault)
        }
    }
}

/// Whether both store the same.
fn is_same(a: Stored, b: Stored) -> bool
    ensures { IsTrue result ↔ (a ≡ b) }
{
    a == b
}

/// Whether the target is alike in both states.
fn are_alike(target: Target, old: &State, new: &State) -> bool
    ensures { IsTrue result ↔ AreAlike target old.now.held new.now.held }
{
    match target {
        Target::Variable(pair) => old.value_or_off(pair.old) == new.value_or_off(pair.new),
        Target::Memory(pair) => {
            old.storage().memory_at(pair.old) == new.storage().memory_at(pair.new)
        }
        Target::Contents(pair) => is_same(old.stored(pair.old), new.stored(pair.new)),
    }
}

/// What a state of the old program has of the target.
fn old_value(target: Target, state: &State) -> bool
    ensures { result ≡ old_value target state.now.held }
{
    match target {
        Target::Variable(pair) => state.value_or_off(pair.old),
        Target::Memory(pair) => state.storage().memory_at(pair.old),
        Target::Contents(pair) => state.stored(pair.old).q(),
    }
}

/// What a state of the new program has of it.
fn new_value(target: Target, state: &State) -> bool
    ensures { result ≡ new_value target state.now.held }
{
    match target {
        Target::Variable(pair) => state.value_or_off(pair.new),
        Target::Memory(pair) => state.storage().memory_at(pair.new),
        Target::Contents(pair) => state.stored(pair.new).q(),
    }
}

/// Makes one scan of a copy of the state.
fn scan_copy(program: &Program, state: &State, end: &mut State)
    requires state { Fits program.now state.now }
    requires end { Fits program.now end.old }
    requires moment { state.now.moment ≡ MOMENT }
    ensures held { end.new.held ≡ scanned program.now MOMENT state.now }
    ensures fits { Fits program.now end.new }
{
    state.checked();
    end.checked();
    end.copy_from(state);
    match scan(program, end, &[], MOMENT) {
        Ok(()) => {}
        Err(_) => {}
    }
}

/// Whether the two states are among those that count where nothing is assumed.
fn are_among(question: AlikeQuestion<'_>, states: &CountedStates, tried: &Tried) -> bool
    requires { AreOfPrograms states.now question.old.now question.new.now }
    ensures { IsTrue result → Count states.now tried.now.old_state.held tried.now.new_state.held }
{
    match states {
        CountedStates::All => true,
        CountedStates::Reachable { old, new } => {
            stays_so(question.old, old, &tried.old_state)
                && stays_so(question.new, new, &tried.new_state)
        }
    }
}

/// Whether the two states count.
fn count(question: AlikeQuestion<'_>, counted: &Counted<'_>, tried: &Tried) -> bool
    requires { AreOfPrograms counted.now.states question.old.now question.new.now }
    ensures { IsTrue result → CountAssuming counted.now tried.now.old_state.held tried.now.new_state.held }
{
    let assumed = counted.assumed;
    are_among(question, &counted.states, tried)
        && assumed.are_true_in(&tried.old_state, &tried.new_state)
}

/// Whether the two states agree and count.
fn are_to_be_tried(question: AlikeQuestion<'_>, counted: &Counted<'_>, tried: &Tried) -> bool
    requires { AreOfPrograms counted.now.states question.old.now question.new.now }
    ensures agree { IsTrue result → Agree question.entry.matching.now tried.now.old_state.held tried.now.new_state.held }
    ensures inputs { IsTrue result → AgreeOnInputs question.entry.matching.now tried.now.old_state.held tried.now.new_state.held }
    ensures count { IsTrue result → CountAssuming counted.now tried.now.old_state.held tried.now.new_state.held }
{
    agree(question.matching, &tried.old_state, &tried.new_state) && count(question, counted, tried)
}

/// What a scan of each of the two states leaves, where they agree and count and it leaves the target different.
pub(crate) fn check(
    question: AlikeQuestion<'_>,
    counted: &Counted<'_>,
    tried: &mut Tried,
) -> Option<Ends>
    requires counted { AreOfPrograms counted.now.states question.old.now question.new.now }
    requires tried { AreTried question.old.now question.new.now tried.old }
    ensures shown { IfSome result (λ ends. Shows (CountAssuming counted.now) question.entry.matching.now question.entry.old.now question.entry.new.now question.entry.target
        tried.new.old_state tried.new.new_state ends.of_old ends.of_new) }
    ensures tried { AreTried question.entry.old.now question.entry.new.now tried.new }
{
    tried.old_state.checked();
    tried.new_state.checked();
    if !are_to_be_tried(question, counted, tried) {
        return None;
    }
    scan_copy(question.old, &tried.old_state, &mut tried.old_end);
    scan_copy(question.new, &tried.new_state, &mut tried.new_end);
    if are_alike(question.target, &tried.old_end, &tried.new_end) {
        return None;
    }
    Some(Ends {
        of_old: old_value(question.target, &tried.old_end),
        of_new: new_value(question.target, &tried.new_end),
    })
}
