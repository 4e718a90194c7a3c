//! A run told by the way to a state and one scan more, and replayed.

ghost use Rattle.std.specs.Prelude.{◌≡◌, ◌<◌, ◌≤◌, IfOk, IfSome, length};
ghost use Rattle.scan_cycle.specs.Standing.{Fits};
ghost use Rattle.scan_partial.specs.Sizes.{HasSizes};
ghost use Rattle.reach_runs.specs.Asking.{SwitchesOn, question_of};
ghost use Rattle.reach_search.specs.Searches.{IsTellerOf};
ghost use Rattle.reach_search.specs.Sets.{IsSetFor};

use crate::moments::{Begin, Bound, least_moments};
use crate::possible::is_possible;
use crate::state_set::StateSet;
use crate::ways::Ways;
use reach_leads::{Kept, forget};
use reach_runs::{RunQuery, RunScan, Timing, switches_on};
use reach_states::{Untimed, know_untimed};
use scan_cycle::scene::instance;
use scan_cycle::{Memory, State};
use scan_partial::Knowledge;
use scan_signals::{Operations, Stored, Tri};
use st_expression::Expression;
use std::alloc::Global;

/// What leads to a state: the set, the ways to its states, what is kept of them, the ones on the way, the inputs of the last scan, and of which
/// timers the time has passed in it.
#[derive(Clone, Copy)]
pub(crate) struct Way<'a> {
    pub set: &'a StateSet,
    pub ways: &'a Ways,
    pub kept: &'a Kept,
    pub path: &'a [usize],
    pub inputs: &'a [Tri],
    pub over: &'a [bool],
}

impl<'a> Way<'a> {
    /// The inputs of a scan, by its number from 0.
    fn inputs_of(self, scan: usize) -> &'a [Tri] {
        match self.path.get(scan) {
            Some(state) if *state < self.ways.inputs.count() => self.ways.inputs.row(*state),
            _ => self.inputs,
        }
    }

    /// Of which timers the time has passed in a scan.
    fn over_in(self, scan: usize) -> &'a [bool] {
        match self.path.get(scan) {
            Some(state) if *state < self.ways.over.count() => self.ways.over.row(*state),
            _ => self.over,
        }
    }
}

/// When the timers of a state began to run.
fn begins_of(alloc: Global, query: RunQuery<'_>) -> Result<Vec<Begin>, Memory> {
    let mut begins: Vec<Begin> = Vec::new(alloc);
    for inst in 0..query.program.decls().instances().len() {
        begins.push(match query.state.stored(inst) {
            Stored::Timer {
                running: true,
                start,
                ..
            } => Begin::Before(start),
            Stored::Timer { .. } | Stored::Counter { .. } | Stored::Bistable { .. } => Begin::No,
        })?;
    }
    Ok(begins)
}

/// When a timer began to run, by what is kept of it before and after a scan.
fn begin_after(
    begin: Begin,
    before: Untimed,
    is_over: bool,
    preset: u32,
    after: Untimed,
    scan: usize,
) -> Begin {
    match (before, after) {
        (
            Untimed::Timer {
                running: true,
                elapsed,
                ..
            },
            Untimed::Timer {
                running: true,
                elapsed: now,
                ..
            },
        ) if now == (if is_over { preset } else { elapsed }) => begin,
        (_, Untimed::Timer { running: true, .. }) => Begin::Scan(scan),
        _ => Begin::No,
    }
}

/// Whether a timer runs whose time hasn't passed.
fn is_waiting(preset: u32, kept: Untimed) -> bool {
    match kept {
        Untimed::Timer {
            running,
            elapsed,
            ..
        } => running && elapsed < preset,
        Untimed::Counter { .. } | Untimed::Output(_) | Untimed::Anything => false,
    }
}

/// Adds what the timers ask of the moment of a scan, and says when each began that runs after it.
fn ask_timers(
    query: RunQuery<'_>,
    over: &[bool],
    scan: usize,
    before: &Knowledge<Tri, Untimed>,
    after: &Knowledge<Tri, Untimed>,
    begins: &mut [Begin],
    bounds: &mut Vec<Bound>,
) -> Result<(), Memory>
    ensures { length begins.new ≡ length begins.old }
{
    for inst in 0..begins.len() {
        if inst >= query.program.decls().instances().len() {
            continue;
        }
        let (_kind, preset) = instance(query.program, inst);
        let kept = before.kept(inst);
        let is_over = match over.get(inst) {
            Some(over) => *over,
            None => false,
        };
        if is_waiting(preset, kept) {
            let begin = begins[inst];
            bounds.push(Bound {
                begin,
                scan,
                preset,
                is_over,
            })?;
        }
        begins[inst] = begin_after(begins[inst], kept, is_over, preset, after.kept(inst), scan);
    }
    Ok(())
}

/// What all timers ask of the moments of a run.
fn bounds_of(
    alloc: Global,
    query: RunQuery<'_>,
    way: Way<'_>,
    before: &mut Knowledge<Tri, Untimed>,
    after: &mut Knowledge<Tri, Untimed>,
) -> Result<Vec<Bound>, Memory>
    requires state { Fits query.program.now query.state.now }
    requires from { query.state.now.moment ≤ query.from }
    requires set { IsSetFor query.program.now way.set.now }
    requires before { HasSizes query.program.now before.old }
    requires after { HasSizes query.program.now after.old }
    ensures before { HasSizes query.entry.program.now before.new }
    ensures after { HasSizes query.entry.program.now after.new }
{
    let mut begins = begins_of(alloc, query)?;
    let mut bounds: Vec<Bound> = Vec::new(alloc);
    know_untimed(query.program, query.state, query.from, before);
    forget(query.program, way.kept, before);
    for scan in 0..way.path.len() {
        if way.path[scan] < way.set.count() {
            way.set.read(query.program, way.path[scan], after);
        }
        ask_timers(
            query,
            way.over_in(scan),
            scan,
            before,
            after,
            &mut begins,
            &mut bounds,
        )?;
        before.copy_from(after);
    }
    let last = way.path.len();
    ask_timers(
        query,
        way.over,
        last,
        before,
        after,
        &mut begins,
        &mut bounds,
    )?;
    Ok(bounds)
}

/// Moments in a rhythm.
fn every_moments(alloc: Global, from: u64, every: u64, scans: usize) -> Result<Vec<u64>, Memory> {
    let mut moments: Vec<u64> = Vec::new(alloc);
    let mut moment = from;
    for _ in 0..scans {
        moments.push(moment)?;
        moment = moment.saturating_add(every);
    }
    Ok(moments)
}

/// The values that the state stores of the inputs, in order of declaration.
fn stored_inputs(alloc: Global, query: RunQuery<'_>) -> Result<Vec<bool>, Memory> {
    let mut inputs: Vec<bool> = Vec::new(alloc);
    let vars = query.program.decls().vars();
    for var in 0..vars.len() {
        if vars[var].is_input() {
            inputs.push(query.state.value_or_off(var))?;
        }
    }
    Ok(inputs)
}

/// The value of an input in a scan. One that is open stays as it is, unless what is assumed can't be true with that; what it gets is known then.
fn settled(assumed: Option<&Expression>, known: &mut [Tri], input: usize, stays: bool) -> bool
    requires { input < length known.old }
    ensures { length known.new ≡ length known.old }
{
    match known[input] {
        Tri::On => return true,
        Tri::Off => return false,
        Tri::Unsure => {}
    }
    known[input] = Tri::known(stays);
    if is_possible(assumed, known) {
        return stays;
    }
    known[input] = Tri::known(!stays);
    !stays
}

/// Gives the inputs the values that are known; the others stay as they are where what is assumed can be true so.
fn set_known(assumed: Option<&Expression>, inputs: &mut [bool], known: &mut [Tri])
    ensures { length inputs.new ≡ length inputs.old }
{
    for input in 0..inputs.len() {
        if input < known.len() {
            inputs[input] = settled(assumed, known, input, inputs[input]);
        }
    }
}

/// The run by a way, at these moments. An input that is open stays as it is where what is assumed can be true so.
fn run_of(
    alloc: Global,
    query: RunQuery<'_>,
    way: Way<'_>,
    moments: &[u64],
) -> Result<Vec<RunScan>, Memory> {
    let mut run: Vec<RunScan> = Vec::new(alloc);
    let mut inputs = stored_inputs(alloc, query)?;
    for scan in 0..moments.len() {
        let mut known = Vec::from_slice(alloc, way.inputs_of(scan))?;
        set_known(query.assumed, &mut inputs, &mut known);
        run.push(RunScan {
            moment: moments[scan],
            inputs: Vec::from_slice(alloc, &inputs)?,
        })?;
    }
    Ok(run)
}

/// What a run is told and replayed with.
#[derive(Drop)]
pub(crate) struct Teller {
    pub before: Knowledge<Tri, Untimed>,
    pub after: Knowledge<Tri, Untimed>,
    pub state: State,
}

impl Teller {
    /// For the runs that the query asks about.
    ///
    /// # Errors
    ///
    /// `Memory` when out of memory.
    pub(crate) fn new(alloc: Global, query: RunQuery<'_>) -> Result<Teller, Memory>
        requires { Fits query.program.now query.state.now }
        ensures { IfOk result (λ t. IsTellerOf query.entry.program.now t) }
    {
        Ok(Teller {
            before: Knowledge::new(alloc, query.program)?,
            after: Knowledge::new(alloc, query.program)?,
            state: query.state.copy(alloc)?,
        })
    }

    /// The run by a way, its scans at least this far apart, where it switches the target on.
    fn tell_apart(
        &mut self,
        alloc: Global,
        query: RunQuery<'_>,
        way: Way<'_>,
        bounds: &[Bound],
        gap: u64,
    ) -> Result<Option<Vec<RunScan>>, Memory>
        requires state { Fits query.program.now query.state.now }
        requires from { query.state.now.moment ≤ query.from }
        requires teller { IsTellerOf query.program.now self.old }
        ensures run { IfOk result (λ found. IfSome found (λ run. SwitchesOn (question_of query.entry) run.items)) }
        ensures teller { IsTellerOf query.entry.program.now self.new }
    {
        let scans = way.path.len() + 1;
        let moments = match query.timing {
            Timing::Every(every) => every_moments(alloc, query.from, every, scans)?,
            Timing::AnyMoments => match least_moments(alloc, scans, query.from, gap, bounds)? {
                Some(moments) => moments,
                None => return Ok(None),
            },
        };
        let run = run_of(alloc, query, way, &moments)?;
        if switches_on(query, &mut self.state, &run) {
            return Ok(Some(run));
        }
        Ok(None)
    }

    /// The run by a way, where it switches the target on. Its scans are at least this far apart where they can be.
    ///
    /// # Errors
    ///
    /// `Memory` when out of memory.
    pub(crate) fn tell(
        &mut self,
        alloc: Global,
        query: RunQuery<'_>,
        way: Way<'_>,
        gap: u64,
    ) -> Result<Option<Vec<RunScan>>, Memory>
        requires state { Fits query.program.now query.state.now }
        requires from { query.state.now.moment ≤ query.from }
        requires set { IsSetFor query.program.now way.set.now }
        requires teller { IsTellerOf query.program.now self.old }
        ensures run { IfOk result (λ found. IfSome found (λ run. SwitchesOn (question_of query.entry) run.items)) }
        ensures teller { IsTellerOf query.entry.program.now self.new }
    {
        let bounds = bounds_of(alloc, query, way, &mut self.before, &mut self.after)?;
        if let Some(run) = self.tell_apart(alloc, query, way, &bounds, gap)? {
            return Ok(Some(run));
        }
        self.tell_apart(alloc, query, way, &bounds, 0)
    }
}
