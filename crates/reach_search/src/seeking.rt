//! The search for a run that switches the target on, or the proof that there is none.

ghost use Rattle.std.specs.Prelude.{◌≡◌, ◌≤◌, IfOk, IfSome, IsNone, false, true};
ghost use Rattle.scan_cycle.specs.Standing.{Fits};
ghost use Rattle.reach_runs.specs.Asking.{RunQuestion, StaysOff, question_of};
ghost use Rattle.reach_search.specs.Levels.{IsSearching};
ghost use Rattle.reach_search.specs.Searches.{IsEnding, IsVerdict};

use crate::levels::{Ending, Level, step};
use crate::search::{Limits, Search};
use crate::visiting::Visiting;
use diagram_program::Program;
use reach_leads::Kept;
use reach_runs::{RunQuery, RunScan};
use scan_cycle::Memory;
use std::alloc::Global;
use std::mem::replace;

/// What a search found.
#[derive(Debug, Drop)]
pub enum Verdict {
    /// A run that switches the target on.
    Run(Vec<RunScan>),
    /// No run does.
    Never,
    /// It isn't settled.
    Open,
}

/// What a search found, and how far it went.
#[derive(Debug, Drop)]
pub struct Sought {
    pub verdict: Verdict,
    /// No run of at most so many scans switches the target on.
    pub scans: u64,
    /// How many states the last search kept.
    pub states: usize,
}

/// How far a search is.
#[derive(Clone, Copy, Debug, PartialEq, Eq)]
pub struct Progress {
    /// How many states it keeps.
    pub states: usize,
    /// No run of at most so many scans switches the target on.
    pub scans: u64,
    /// How many scans over three values were made, of all searches.
    pub looks: u64,
}

/// A search for a run, as far as it is made. It is made in rounds, each of which keeps more of the states than the one before; a round is breadth
/// first.
#[derive(Drop)]
pub struct Searching {
    kept: Kept,
    pub(crate) search: Search,
    pub(crate) level: Level,
    /// How many rounds more there may be.
    rounds: usize,
    /// How many scans the rounds before this one made.
    looks: u64,
}

/// How many steps a search may make: more than any makes.
pub const MOST_STEPS: u64 = u64::MAX;

/// The level before the first scan.
const BEFORE_FIRST: Level = Level {
    depth: 0,
    scans: 0,
    next: 0,
    end: 0,
    is_missed: false,
};

/// How many rounds are made at most after the first one, which keeps nothing.
fn most_rounds(program: &Program) -> usize {
    let decls = program.decls();
    decls
        .vars()
        .len()
        .saturating_add(program.memories())
        .saturating_add(decls.instances().len())
}

/// What a search found that ended so.
fn verdict_of(ending: Ending, run: Vec<RunScan>) -> Verdict
    ensures { (q : RunQuestion) → IsEnding q ending run.items → IsVerdict q result }
{
    match ending {
        Ending::Found => Verdict::Run(run),
        Ending::Never => Verdict::Never,
        Ending::Open | Ending::Unclear => Verdict::Open,
    }
}

impl Searching {
    /// A search of which nothing is made yet.
    ///
    /// # Errors
    ///
    /// `Memory` when out of memory.
    pub fn new(alloc: Global, query: RunQuery<'_>) -> Result<Searching, Memory>
        requires { Fits query.program.now query.state.now }
        ensures { IfOk result (IsSearching (question_of query.entry)) }
    {
        Ok(Searching {
            kept: Kept::nothing(alloc, query.program)?,
            search: Search::new(alloc, query)?,
            level: BEFORE_FIRST,
            rounds: most_rounds(query.program),
            looks: 0,
        })
    }

    /// How far the search is.
    pub fn progress(&self, query: RunQuery<'_>) -> Progress
        requires { IsSearching (question_of query) self.now }
        ensures { StaysOff (question_of query.entry) result.scans }
    {
        let _query = query;
        Progress {
            states: self.search.set.count(),
            scans: self.level.scans,
            looks: self.looks.wrapping_add(self.search.chooser.looks()),
        }
    }

    /// What is known where the search is given up.
    pub fn unsettled(&self, query: RunQuery<'_>) -> Sought
        requires { IsSearching (question_of query) self.now }
        ensures verdict { IsVerdict (question_of query.entry) result.verdict }
        ensures off { StaysOff (question_of query.entry) result.scans }
    {
        let Progress { states, scans, .. } = self.progress(query);
        Sought {
            verdict: Verdict::Open,
            scans,
            states,
        }
    }

    /// Begins the next round after one that ended so, if more can be kept of the states and is of use.
    fn widen(&mut self, alloc: Global, query: RunQuery<'_>, ending: Ending) -> Result<bool, Memory>
        requires { Fits query.program.now query.state.now }
        ensures round { IfOk result (λ b. b ≡ true → IsSearching (question_of query.entry) self.new) }
        ensures same { IfOk result (λ b. b ≡ false → (self.new.search ≡ self.old.search) × (self.new.level ≡ self.old.level)) }
    {
        if ending != Ending::Unclear || self.rounds == 0 {
            return Ok(false);
        }
        if !self.search.chooser.widen(&mut self.kept) {
            return Ok(false);
        }
        self.rounds -= 1;
        self.looks = self.looks.wrapping_add(self.search.chooser.looks());
        let fresh = Search::new(alloc, query)?;
        drop(replace(&mut self.search, fresh));
        self.level = BEFORE_FIRST;
        Ok(true)
    }

    /// What the search found that ended so.
    fn sought(&mut self, alloc: Global, ending: Ending) -> Sought
        ensures verdict { (q : RunQuestion) → IsEnding q ending self.old.search.run.items → IsVerdict q result.verdict }
        ensures scans { result.scans ≡ self.old.level.scans }
    {
        let run = replace(&mut self.search.run, Vec::new(alloc));
        let Level { scans, .. } = self.level;
        Sought {
            verdict: verdict_of(ending, run),
            scans,
            states: self.search.set.count(),
        }
    }

    /// Searches on from one state. There is an answer where the search ends.
    ///
    /// # Errors
    ///
    /// `Memory` when out of memory.
    pub fn go_on(
        &mut self,
        alloc: Global,
        query: RunQuery<'_>,
        limits: Limits,
    ) -> Result<Option<Sought>, Memory>
        requires state { Fits query.program.now query.state.now }
        requires from { query.state.now.moment ≤ query.from }
        requires searching { IsSearching (question_of query) self.old }
        ensures searching { IfOk result (λ found. IsNone found → IsSearching (question_of query.entry) self.new) }
        ensures verdict { IfOk result (λ found. IfSome found (λ s. IsVerdict (question_of query.entry) s.verdict)) }
        ensures off { IfOk result (λ found. IfSome found (λ s. StaysOff (question_of query.entry) s.scans)) }
    {
        let visiting = Visiting {
            alloc,
            query,
            limits,
            kept: &self.kept,
            from: None,
        };
        let Some(ending) = step(visiting, &mut self.search, &mut self.level)? else {
            return Ok(None);
        };
        if self.widen(alloc, query, ending)? {
            return Ok(None);
        }
        Ok(Some(self.sought(alloc, ending)))
    }

    /// Searches on until the search ends.
    fn settle(
        &mut self,
        alloc: Global,
        query: RunQuery<'_>,
        limits: Limits,
    ) -> Result<Sought, Memory>
        requires state { Fits query.program.now query.state.now }
        requires from { query.state.now.moment ≤ query.from }
        requires searching { IsSearching (question_of query) self.old }
        ensures verdict { IfOk result (λ s. IsVerdict (question_of query.entry) s.verdict) }
        ensures off { IfOk result (λ s. StaysOff (question_of query.entry) s.scans) }
    {
        for _ in 0..MOST_STEPS {
            if let Some(sought) = self.go_on(alloc, query, limits)? {
                return Ok(sought);
            }
        }
        Ok(self.unsettled(query))
    }
}

/// A run that switches the target on, or the proof that there is none, or none of at most so many scans.
///
/// # Errors
///
/// `Memory` when out of memory.
pub fn seek(alloc: Global, query: RunQuery<'_>, limits: Limits) -> Result<Sought, Memory>
    requires state { Fits query.program.now query.state.now }
    requires from { query.state.now.moment ≤ query.from }
    ensures verdict { IfOk result (λ s. IsVerdict (question_of query.entry) s.verdict) }
    ensures off { IfOk result (λ s. StaysOff (question_of query.entry) s.scans) }
{
    let mut searching = Searching::new(alloc, query)?;
    let sought = searching.settle(alloc, query, limits);
    // By a call, which is one step of the proof.
    drop(searching);
    sought
}
