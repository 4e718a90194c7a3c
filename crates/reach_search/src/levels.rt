//! The levels of a search: after each one all states that one scan more reaches are in the set.

ghost use Rattle.std.specs.Prelude.{◌≡◌, ◌<◌, ◌≤◌, List, false, IfOk, IfSome, IsNone};
ghost use Rattle.scan_cycle.specs.Runs.{OneScan};
ghost use Rattle.scan_cycle.specs.Standing.{Fits};
ghost use Rattle.reach_runs.specs.Asking.{StaysOff, SwitchesOn, question_of};
ghost use Rattle.reach_search.specs.Searches.{AreAsked, IsEnding, IsReachedIn, IsSearchOf, end_of, is_end};
ghost use Rattle.reach_search.specs.Levels.{IsAt, IsDone, deeper};
ghost use Rattle.reach_search.specs.Visits.{Grows, IsVisited, time_of};
ghost use Rattle.reach_search.specs.declared.visiting.Visit.TheVariants.{Closed, Found};

use crate::search::{Limits, Search};
use crate::visiting::{Visit, Visiting, visit_scans};
use reach_leads::forget;
use reach_runs::{RunQuery, Timing};
use reach_states::know_untimed;
use scan_cycle::Memory;

/// How a search ended.
#[derive(Clone, Copy, Debug, PartialEq, Eq)]
pub(crate) enum Ending {
    /// A run was found.
    Found,
    /// There is none.
    Never,
    /// It isn't settled.
    Open,
    /// It isn't settled, and may be where more is kept of the states.
    Unclear,
}

/// How far a search is.
#[derive(Clone, Copy)]
pub(crate) struct Level {
    /// How many scans lead to the states that are visited; 0 before the first scan.
    pub depth: u64,
    /// No run of at most so many scans switches the target on.
    pub scans: u64,
    /// The number of the state that is visited next.
    pub next: usize,
    /// The number before which the states of the level end.
    pub end: usize,
    /// Whether a scan may have left the target ON, but no run was told that does: then only a run is of use.
    pub is_missed: bool,
}

/// How much time passes between two scans in a rhythm.
fn time_of(timing: Timing) -> u64
    ensures { result ≡ time_of timing }
{
    match timing {
        Timing::AnyMoments => 0,
        Timing::Every(every) => every,
    }
}

/// Visits the state that is asked from.
fn visit_first(visiting: Visiting<'_>, search: &mut Search) -> Result<Visit, Memory>
    requires state { Fits visiting.query.program.now visiting.query.state.now }
    requires from { visiting.query.state.now.moment ≤ visiting.query.from }
    requires search { IsSearchOf visiting.query.program.now search.old }
    requires inputs { AreAsked (question_of visiting.query) search.old.inputs.items }
    ensures search { IfOk result (λ _. IsSearchOf visiting.entry.query.program.now search.new) }
    ensures inputs { IfOk result (λ v. is_end v ≡ false → AreAsked (question_of visiting.entry.query) search.new.inputs.items) }
    ensures reached { IfOk result (λ v. v ≡ Closed → IsReachedIn (question_of visiting.entry.query) search.new.set 1) }
    ensures found { IfOk result (λ v. v ≡ Found → SwitchesOn (question_of visiting.entry.query) search.new.run.items) }
{
    let query = visiting.query;
    know_untimed(query.program, query.state, query.from, &mut search.before);
    forget(query.program, visiting.kept, &mut search.before);
    visit_scans(visiting, search, 0)
}

/// Visits the state of a number.
fn visit_state(visiting: Visiting<'_>, search: &mut Search, number: usize) -> Result<Visit, Memory>
    requires state { Fits visiting.query.program.now visiting.query.state.now }
    requires from { visiting.query.state.now.moment ≤ visiting.query.from }
    requires search { IsSearchOf visiting.query.program.now search.old }
    requires inputs { AreAsked (question_of visiting.query) search.old.inputs.items }
    ensures search { IfOk result (λ _. IsSearchOf visiting.entry.query.program.now search.new) }
    ensures inputs { IfOk result (λ v. is_end v ≡ false → AreAsked (question_of visiting.entry.query) search.new.inputs.items) }
    ensures grows { IfOk result (λ _. Grows search.old.set search.new.set) }
    ensures visited { IfOk result (λ v. v ≡ Closed → IsVisited (question_of visiting.entry.query) search.new.set number) }
    ensures found { IfOk result (λ v. v ≡ Found → SwitchesOn (question_of visiting.entry.query) search.new.run.items) }
{
    if search.set.count() <= number {
        return Ok(Visit::Full);
    }
    search
        .set
        .read(visiting.query.program, number, &mut search.before);
    let from = Visiting {
        from: Some(number),
        ..visiting
    };
    visit_scans(from, search, time_of(visiting.query.timing))
}

/// Whether one of the scans may leave the target ON, but no run was told that does.
fn is_missed(seen: Visit) -> bool
    ensures { result ≡ false → is_end seen ≡ false → seen ≡ Closed }
{
    matches!(seen, Visit::Missed)
}

/// How a search ends whose last visit was so, if it does.
fn end_of(seen: Visit) -> Option<Ending>
    ensures { result ≡ end_of seen }
{
    match seen {
        Visit::Found => Some(Ending::Found),
        Visit::Unclear => Some(Ending::Unclear),
        Visit::Full => Some(Ending::Open),
        Visit::Closed | Visit::Missed => None,
    }
}

/// The level of this depth, which begins with so many states: runs of as many scans leave the target OFF where no scan was missed.
fn deeper(level: Level, depth: u64, end: usize) -> Level
    ensures { result ≡ deeper level depth end }
{
    let scans = if level.is_missed { level.scans } else { depth };
    Level {
        depth,
        scans,
        end,
        ..level
    }
}

/// Begins the level of the states that were found since the last one began. The search ends where its runs would have too many scans.
fn deepen(query: RunQuery<'_>, limits: Limits, search: &Search, level: &mut Level) -> Option<Ending>
    requires off { StaysOff (question_of query) level.old.scans }
    requires done { level.old.is_missed ≡ false → IsDone (question_of query) search.now.set level.old }
    ensures off { StaysOff (question_of query.entry) level.new.scans }
    ensures level { IsNone result → IsAt (question_of query.entry) search.now.set level.new }
    ensures open { IfSome result (λ e. e ≡ Ending.Open) }
{
    let _query = query;
    let Some(depth) = level.depth.checked_add(1) else {
        return Some(Ending::Open);
    };
    *level = deeper(*level, depth, search.set.count());
    if limits.scans <= depth {
        return Some(Ending::Open);
    }
    None
}

/// Begins the search.
fn begin(
    visiting: Visiting<'_>,
    search: &mut Search,
    level: &mut Level,
) -> Result<Option<Ending>, Memory>
    requires state { Fits visiting.query.program.now visiting.query.state.now }
    requires from { visiting.query.state.now.moment ≤ visiting.query.from }
    requires search { IsSearchOf visiting.query.program.now search.old }
    requires inputs { AreAsked (question_of visiting.query) search.old.inputs.items }
    requires level { IsAt (question_of visiting.query) search.old.set level.old }
    requires first { level.old.depth ≡ 0 }
    ensures search { IfOk result (λ _. IsSearchOf visiting.entry.query.program.now search.new) }
    ensures inputs { IfOk result (λ e. IsNone e → AreAsked (question_of visiting.entry.query) search.new.inputs.items) }
    ensures level { IfOk result (λ e. IsNone e → IsAt (question_of visiting.entry.query) search.new.set level.new) }
    ensures off { IfOk result (λ _. StaysOff (question_of visiting.entry.query) level.new.scans) }
    ensures ending { IfOk result (λ e. IfSome e (λ e. IsEnding (question_of visiting.entry.query) e search.new.run.items)) }
{
    let seen = visit_first(visiting, search)?;
    match end_of(seen) {
        Some(ending) => Ok(Some(ending)),
        None => {
            level.is_missed = is_missed(seen);
            Ok(deepen(visiting.query, visiting.limits, search, level))
        }
    }
}

/// Visits the next state of the level.
fn visit_next(
    visiting: Visiting<'_>,
    search: &mut Search,
    level: &mut Level,
) -> Result<Option<Ending>, Memory>
    requires state { Fits visiting.query.program.now visiting.query.state.now }
    requires from { visiting.query.state.now.moment ≤ visiting.query.from }
    requires search { IsSearchOf visiting.query.program.now search.old }
    requires inputs { AreAsked (question_of visiting.query) search.old.inputs.items }
    requires level { IsAt (question_of visiting.query) search.old.set level.old }
    requires begun { 0 < level.old.depth }
    requires more { level.old.next < level.old.end }
    ensures search { IfOk result (λ _. IsSearchOf visiting.entry.query.program.now search.new) }
    ensures inputs { IfOk result (λ e. IsNone e → AreAsked (question_of visiting.entry.query) search.new.inputs.items) }
    ensures level { IfOk result (λ e. IsNone e → IsAt (question_of visiting.entry.query) search.new.set level.new) }
    ensures off { IfOk result (λ _. StaysOff (question_of visiting.entry.query) level.new.scans) }
    ensures ending { IfOk result (λ e. IfSome e (λ e. IsEnding (question_of visiting.entry.query) e search.new.run.items)) }
{
    let seen = visit_state(visiting, search, level.next)?;
    match end_of(seen) {
        Some(ending) => Ok(Some(ending)),
        None => {
            level.next += 1;
            level.is_missed |= is_missed(seen);
            Ok(None)
        }
    }
}

/// Ends the level: where no state was found since it began, there is none further.
fn end_level(
    query: RunQuery<'_>,
    limits: Limits,
    search: &Search,
    level: &mut Level,
) -> Option<Ending>
    requires level { IsAt (question_of query) search.now.set level.old }
    requires begun { 0 < level.old.depth }
    requires end { level.old.end ≤ level.old.next }
    ensures off { StaysOff (question_of query.entry) level.new.scans }
    ensures level { IsNone result → IsAt (question_of query.entry) search.now.set level.new }
    ensures ending { (run : List OneScan) → IfSome result (λ e. IsEnding (question_of query.entry) e run) }
{
    if level.end < search.set.count() {
        return deepen(query, limits, search, level);
    }
    if level.is_missed {
        Some(Ending::Unclear)
    } else {
        Some(Ending::Never)
    }
}

/// One step of a search: the scans from one state, or to the next level.
pub(crate) fn step(
    visiting: Visiting<'_>,
    search: &mut Search,
    level: &mut Level,
) -> Result<Option<Ending>, Memory>
    requires state { Fits visiting.query.program.now visiting.query.state.now }
    requires from { visiting.query.state.now.moment ≤ visiting.query.from }
    requires search { IsSearchOf visiting.query.program.now search.old }
    requires inputs { AreAsked (question_of visiting.query) search.old.inputs.items }
    requires level { IsAt (question_of visiting.query) search.old.set level.old }
    ensures search { IfOk result (λ _. IsSearchOf visiting.entry.query.program.now search.new) }
    ensures inputs { IfOk result (λ e. IsNone e → AreAsked (question_of visiting.entry.query) search.new.inputs.items) }
    ensures level { IfOk result (λ e. IsNone e → IsAt (question_of visiting.entry.query) search.new.set level.new) }
    ensures off { IfOk result (λ _. StaysOff (question_of visiting.entry.query) level.new.scans) }
    ensures ending { IfOk result (λ e. IfSome e (λ e. IsEnding (question_of visiting.entry.query) e search.new.run.items)) }
{
    if level.depth == 0 {
        return begin(visiting, search, level);
    }
    if level.next < level.end {
        return visit_next(visiting, search, level);
    }
    Ok(end_level(visiting.query, visiting.limits, search, level))
}
