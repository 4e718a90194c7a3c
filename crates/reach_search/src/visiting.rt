//! All scans from one state, whatever the inputs and whichever times have passed.

ghost use Rattle.std.specs.Prelude.{◌≡◌, ◌<◌, ◌≤◌, ◌+◌, ℕ, ◌⊎◌, Bool, List, IfOk, IfSome, IsNone, IsTrue, false, length, true, slice_index_or};
ghost use Rattle.scan_cycle.specs.Programs.{diagram_of};
ghost use Rattle.scan_cycle.specs.Rung.{Held};
ghost use Rattle.scan_cycle.specs.Standing.{Fits};
ghost use Rattle.scan_partial.specs.Sizes.{HasSizes};
ghost use Rattle.scan_signals.specs.Relations.{Both};
ghost use Rattle.scan_signals.specs.declared.tri.Tri.TheVariants as tri;
ghost use Rattle.assume_truth.specs.Truth.{is_allowed};
ghost use Rattle.invariant_cases.specs.Allowing.{Allows};
ghost use Rattle.reach_runs.specs.Asking.{SwitchesOn, question_of};
ghost use Rattle.reach_runs.specs.declared.timing.Timing.{Timing as TimingOf};
ghost use Rattle.reach_runs.specs.declared.timing.Timing.TheVariants as timing;
ghost use Rattle.reach_states.specs.Allowing.{AllowsFrom, AllowsState};
ghost use Rattle.reach_search.specs.Searches.{IsSearchOf, is_end};
ghost use Rattle.reach_search.specs.Sets.{count_of, state_at};
ghost use Rattle.reach_search.specs.Visits.{Grows, IsIn, Leads, LeadsOn, told_all};
ghost use Rattle.reach_search.specs.declared.visiting.Visit.TheVariants.{Closed, Found, Missed, Unclear};

use crate::index::hash_of;
use crate::possible::is_possible;
use crate::search::{Limits, Search};
use crate::target::told_all;
use crate::telling::Way;
use crate::ways::note_over;
use diagram_program::Program;
use reach_leads::{Kept, forget};
use reach_runs::{RunQuery, Timing};
use reach_states::laws::scan_allows;
use reach_states::{age, next_waiting, over};
use scan_cycle::Memory;
use scan_cycle::scene::instance;
use scan_partial::scan_known;
use scan_signals::Tri;
use std::alloc::Global;

/// Where scans lead.
#[derive(Clone, Copy, Debug, PartialEq, Eq)]
pub(crate) enum Visit {
    /// Each to a state of the set, with the target OFF.
    Closed,
    /// One of them may leave the target ON, but no run was told that does.
    Missed,
    /// It is open what one of them makes of the target: too little is kept of the states.
    Unclear,
    /// There was no room for a state.
    Full,
    /// A run switches the target on.
    Found,
}

/// What is asked, and from which state of the set the scans are.
#[derive(Clone, Copy)]
pub(crate) struct Visiting<'a> {
    pub alloc: Global,
    pub query: RunQuery<'a>,
    pub limits: Limits,
    /// What is kept of a state.
    pub kept: &'a Kept,
    pub from: Option<usize>,
}

/// The further of two.
pub(crate) fn both(one: Visit, other: Visit) -> Visit
    ensures closed { result ≡ Closed → (one ≡ Closed) × (other ≡ Closed) }
    ensures found { result ≡ Found → (one ≡ Found) ⊎ (other ≡ Found) }
    ensures end { is_end result ≡ false → (is_end one ≡ false) × (is_end other ≡ false) }
{
    match (one, other) {
        (Visit::Closed, Visit::Closed) => Visit::Closed,
        (Visit::Found, _) | (_, Visit::Found) => Visit::Found,
        (Visit::Full, _) | (_, Visit::Full) => Visit::Full,
        (Visit::Unclear, _) | (_, Visit::Unclear) => Visit::Unclear,
        (Visit::Missed, _) | (_, Visit::Missed) => Visit::Missed,
    }
}

/// Whether no further scans are to be made.
pub(crate) fn is_end(visit: Visit) -> bool
    ensures { result ≡ is_end visit }
{
    match visit {
        Visit::Unclear | Visit::Full | Visit::Found => true,
        Visit::Closed | Visit::Missed => false,
    }
}

/// Whether a state is in the set.
fn is_there(search: &Search, program: &Program, hash: u64) -> bool
    requires { IsSearchOf program.now search.now }
    ensures { IsTrue result → (number : ℕ) × (number < count_of search.now.set) × (state_at search.now.set number ≡ search.now.after) }
{
    let mut here = search.index.last_of(hash);
    for _ in 0..search.set.count() {
        let Some(number) = here else {
            return false;
        };
        if number < search.set.count() && search.set.is_at(program, number, &search.after) {
            return true;
        }
        here = search.index.before(number);
    }
    false
}

/// A run by the way to the state and this scan.
fn tell(visiting: Visiting<'_>, search: &mut Search) -> Result<Visit, Memory>
    requires state { Fits visiting.query.program.now visiting.query.state.now }
    requires from { visiting.query.state.now.moment ≤ visiting.query.from }
    requires search { IsSearchOf visiting.query.program.now search.old }
    ensures search { IfOk result (λ _. IsSearchOf visiting.entry.query.program.now search.new) }
    ensures grows { IfOk result (λ _. Grows search.old.set search.new.set) }
    ensures before { IfOk result (λ v. is_end v ≡ false → search.new.before ≡ search.old.before) }
    ensures inputs { IfOk result (λ v. is_end v ≡ false → search.new.inputs.items ≡ search.old.inputs.items) }
    ensures seen { IfOk result (λ v. (v ≡ Missed) ⊎ (v ≡ Found)) }
    ensures found { IfOk result (λ v. v ≡ Found → SwitchesOn (question_of visiting.entry.query) search.new.run.items) }
{
    note_over(visiting.query.program, &search.before, &mut search.over);
    let path = search.ways.path(visiting.alloc, visiting.from)?;
    let way = Way {
        set: &search.set,
        ways: &search.ways,
        path: &path,
        kept: visiting.kept,
        inputs: &search.inputs,
        over: &search.over,
    };
    match search
        .teller
        .tell(visiting.alloc, visiting.query, way, visiting.limits.gap)?
    {
        Some(run) => {
            search.run = run;
            Ok(Visit::Found)
        }
        None => Ok(Visit::Missed),
    }
}

/// Adds what is known after a scan to the set, where it isn't there.
fn arrive(visiting: Visiting<'_>, search: &mut Search) -> Result<Visit, Memory>
    requires state { Fits visiting.query.program.now visiting.query.state.now }
    requires from { visiting.query.state.now.moment ≤ visiting.query.from }
    requires search { IsSearchOf visiting.query.program.now search.old }
    ensures search { IfOk result (λ _. IsSearchOf visiting.entry.query.program.now search.new) }
    ensures grows { IfOk result (λ _. Grows search.old.set search.new.set) }
    ensures before { IfOk result (λ v. is_end v ≡ false → search.new.before ≡ search.old.before) }
    ensures inputs { IfOk result (λ v. is_end v ≡ false → search.new.inputs.items ≡ search.old.inputs.items) }
    ensures off { IfOk result (λ v. v ≡ Closed → told_all search.old.after visiting.entry.query.target.now ≡ tri.Off) }
    ensures there { IfOk result (λ v. v ≡ Closed → (now : ℕ) (held : Held)
        → AllowsState visiting.entry.query.timing (diagram_of visiting.entry.query.program.now) now search.old.after held
        → IsIn visiting.entry.query.timing (diagram_of visiting.entry.query.program.now) search.new.set now held) }
    ensures found { IfOk result (λ v. v ≡ Found → SwitchesOn (question_of visiting.entry.query) search.new.run.items) }
{
    let program = visiting.query.program;
    match told_all(visiting.query.target, &search.after) {
        Tri::On => return tell(visiting, search),
        Tri::Unsure => return Ok(Visit::Unclear),
        Tri::Off => {}
    }
    forget(program, visiting.kept, &mut search.after);
    let hash = hash_of(&search.after);
    if is_there(search, program, hash) {
        return Ok(Visit::Closed);
    }
    if visiting.limits.states <= search.set.count() {
        return Ok(Visit::Full);
    }
    note_over(program, &search.before, &mut search.over);
    search
        .ways
        .push(visiting.from, &search.inputs, &search.over)?;
    search.index.push(hash)?;
    search.set.push(program, &search.after)?;
    Ok(Visit::Closed)
}

/// Visits by an input of which both values are tried, and then by at most so many more.
#[cycle(inputs)]
fn by_input(
    visiting: Visiting<'_>,
    search: &mut Search,
    input: usize,
    left: usize,
) -> Result<Visit, Memory>
    requires state { Fits visiting.query.program.now visiting.query.state.now }
    requires from { visiting.query.state.now.moment ≤ visiting.query.from }
    requires search { IsSearchOf visiting.query.program.now search.old }
    requires input { input < length search.old.inputs.items }
    requires open { slice_index_or search.old.inputs.items input tri.Off ≡ tri.Unsure }
    ensures search { IfOk result (λ _. IsSearchOf visiting.entry.query.program.now search.new) }
    ensures grows { IfOk result (λ _. Grows search.old.set search.new.set) }
    ensures before { IfOk result (λ v. is_end v ≡ false → search.new.before ≡ search.old.before) }
    ensures inputs { IfOk result (λ v. is_end v ≡ false → search.new.inputs.items ≡ search.old.inputs.items) }
    ensures closed { IfOk result (λ v. v ≡ Closed → Leads (question_of visiting.entry.query) search.new.set
        (λ now. AllowsState visiting.entry.query.timing (diagram_of visiting.entry.query.program.now) now search.old.before) search.old.inputs.items) }
    ensures found { IfOk result (λ v. v ≡ Found → SwitchesOn (question_of visiting.entry.query) search.new.run.items) }
{
    search.inputs[input] = Tri::Off;
    let off = visit_inputs(visiting, search, left)?;
    if is_end(off) {
        return Ok(off);
    }
    search.inputs[input] = Tri::On;
    let on = visit_inputs(visiting, search, left)?;
    if is_end(on) {
        return Ok(on);
    }
    search.inputs[input] = Tri::Unsure;
    Ok(both(off, on))
}

/// Whether what is assumed is true with none of the inputs, some of which may be open.
fn is_dead_end(query: RunQuery<'_>, search: &mut Search) -> bool
    requires { IsSearchOf query.program.now search.old }
    ensures search { IsSearchOf query.entry.program.now search.new }
    ensures before { search.new.before ≡ search.old.before }
    ensures inputs { search.new.inputs.items ≡ search.old.inputs.items }
    ensures set { search.new.set ≡ search.old.set }
    ensures dead { result ≡ true → (xs : List Bool) → Both Allows search.old.inputs.items xs → is_allowed (question_of query.entry).assumed xs ≡ false }
{
    !is_possible(query.assumed, &mut search.inputs)
}

/// All scans from what is known with the inputs, some of which may be open: at most so many more are tried with both values.
#[cycle(inputs)]
fn visit_open(visiting: Visiting<'_>, search: &mut Search, left: usize) -> Result<Visit, Memory>
    requires state { Fits visiting.query.program.now visiting.query.state.now }
    requires from { visiting.query.state.now.moment ≤ visiting.query.from }
    requires search { IsSearchOf visiting.query.program.now search.old }
    ensures search { IfOk result (λ _. IsSearchOf visiting.entry.query.program.now search.new) }
    ensures grows { IfOk result (λ _. Grows search.old.set search.new.set) }
    ensures before { IfOk result (λ v. is_end v ≡ false → search.new.before ≡ search.old.before) }
    ensures inputs { IfOk result (λ v. is_end v ≡ false → search.new.inputs.items ≡ search.old.inputs.items) }
    ensures closed { IfOk result (λ v. v ≡ Closed → Leads (question_of visiting.entry.query) search.new.set
        (λ now. AllowsState visiting.entry.query.timing (diagram_of visiting.entry.query.program.now) now search.old.before) search.old.inputs.items) }
    ensures found { IfOk result (λ v. v ≡ Found → SwitchesOn (question_of visiting.entry.query) search.new.run.items) }
{
    scan_allows(visiting.query.program);
    search.after.copy_from(&search.before);
    scan_known(
        visiting.query.program,
        &mut search.after,
        &search.inputs,
        0,
        &mut search.room,
    );
    let choice = search.chooser.choose(
        visiting.query,
        visiting.kept,
        &search.before,
        &search.inputs,
        &search.after,
    );
    match choice {
        Some(input) if left > 0 => by_input(visiting, search, input, left - 1),
        _ => arrive(visiting, search),
    }
}

/// All scans from what is known, whatever the inputs that are open, of which at most so many are tried with both values.
#[cycle(inputs)]
pub(crate) fn visit_inputs(
    visiting: Visiting<'_>,
    search: &mut Search,
    left: usize,
) -> Result<Visit, Memory>
    requires state { Fits visiting.query.program.now visiting.query.state.now }
    requires from { visiting.query.state.now.moment ≤ visiting.query.from }
    requires search { IsSearchOf visiting.query.program.now search.old }
    ensures search { IfOk result (λ _. IsSearchOf visiting.entry.query.program.now search.new) }
    ensures grows { IfOk result (λ _. Grows search.old.set search.new.set) }
    ensures before { IfOk result (λ v. is_end v ≡ false → search.new.before ≡ search.old.before) }
    ensures inputs { IfOk result (λ v. is_end v ≡ false → search.new.inputs.items ≡ search.old.inputs.items) }
    ensures closed { IfOk result (λ v. v ≡ Closed → Leads (question_of visiting.entry.query) search.new.set
        (λ now. AllowsState visiting.entry.query.timing (diagram_of visiting.entry.query.program.now) now search.old.before) search.old.inputs.items) }
    ensures found { IfOk result (λ v. v ≡ Found → SwitchesOn (question_of visiting.entry.query) search.new.run.items) }
{
    if is_dead_end(visiting.query, search) {
        return Ok(Visit::Closed);
    }
    visit_open(visiting, search, left)
}

/// All scans from what is known, whichever times of the timers from a number on have passed.
fn visit_times(visiting: Visiting<'_>, search: &mut Search, inst: usize) -> Result<Visit, Memory>
    requires state { Fits visiting.query.program.now visiting.query.state.now }
    requires from { visiting.query.state.now.moment ≤ visiting.query.from }
    requires search { IsSearchOf visiting.query.program.now search.old }
    requires timing { visiting.query.timing ≡ timing.AnyMoments }
    ensures search { IfOk result (λ _. IsSearchOf visiting.entry.query.program.now search.new) }
    ensures grows { IfOk result (λ _. Grows search.old.set search.new.set) }
    ensures before { IfOk result (λ v. is_end v ≡ false → search.new.before ≡ search.old.before) }
    ensures inputs { IfOk result (λ v. is_end v ≡ false → search.new.inputs.items ≡ search.old.inputs.items) }
    ensures closed { IfOk result (λ v. v ≡ Closed → Leads (question_of visiting.entry.query) search.new.set
        (λ now. AllowsFrom inst (diagram_of visiting.entry.query.program.now) now search.old.before) search.old.inputs.items) }
    ensures found { IfOk result (λ v. v ≡ Found → SwitchesOn (question_of visiting.entry.query) search.new.run.items) }
{
    let program = visiting.query.program;
    let Some(inst) = next_waiting(program, &search.before, inst) else {
        let left = search.inputs.len();
        return visit_inputs(visiting, search, left);
    };
    let blocks = search.before.blocks();
    let kept = blocks[inst];
    let waiting = visit_times(visiting, search, inst + 1)?;
    if is_end(waiting) {
        return Ok(waiting);
    }
    let (_kind, preset) = instance(program, inst);
    search.before.keep(inst, over(preset, kept));
    let passed = visit_times(visiting, search, inst + 1)?;
    search.before.keep(inst, kept);
    Ok(both(waiting, passed))
}

/// All scans from what is known before them, after so long a time in a rhythm.
pub(crate) fn visit_scans(
    visiting: Visiting<'_>,
    search: &mut Search,
    time: u64,
) -> Result<Visit, Memory>
    requires state { Fits visiting.query.program.now visiting.query.state.now }
    requires from { visiting.query.state.now.moment ≤ visiting.query.from }
    requires search { IsSearchOf visiting.query.program.now search.old }
    ensures search { IfOk result (λ _. IsSearchOf visiting.entry.query.program.now search.new) }
    ensures grows { IfOk result (λ _. Grows search.old.set search.new.set) }
    ensures inputs { IfOk result (λ v. is_end v ≡ false → search.new.inputs.items ≡ search.old.inputs.items) }
    ensures closed { IfOk result (λ v. v ≡ Closed → LeadsOn (question_of visiting.entry.query) search.new.set search.old.before time search.old.inputs.items) }
    ensures found { IfOk result (λ v. v ≡ Found → SwitchesOn (question_of visiting.entry.query) search.new.run.items) }
{
    match visiting.query.timing {
        Timing::AnyMoments => visit_times(visiting, search, 0),
        Timing::Every(_) => {
            age(visiting.query.program, time, &mut search.before);
            let left = search.inputs.len();
            visit_inputs(visiting, search, left)
        }
    }
}
