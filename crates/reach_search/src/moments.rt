//! The moments of a run by what its timers ask of them. They are a hint: the run is replayed.

ghost use Rattle.std.specs.Prelude.{◌≡◌, length};

use scan_cycle::Memory;
use std::alloc::Global;

/// When a timer began to run.
#[derive(Clone, Copy)]
pub(crate) enum Begin {
    /// It doesn't run.
    No,
    /// At this moment, before the run.
    Before(u64),
    /// In the scan of this number, from 0.
    Scan(usize),
}

/// What a timer asks of the moment of a scan: its preset has passed since it began, or hasn't.
#[derive(Clone, Copy)]
pub(crate) struct Bound {
    pub begin: Begin,
    pub scan: usize,
    pub preset: u32,
    pub is_over: bool,
}

/// How many times the moments are gone through at most.
const ROUNDS: usize = 1000;

/// Whether the moments changed, or can't be so.
#[derive(Clone, Copy, PartialEq, Eq)]
enum Round {
    Same,
    Changed,
    Impossible,
}

/// Raises a moment to the least that it may be.
fn raise(moments: &mut [u64], scan: usize, least: u64) -> Round
    ensures { length moments.new ≡ length moments.old }
{
    match moments.get_mut(scan) {
        Some(moment) if *moment < least => {
            *moment = least;
            Round::Changed
        }
        _ => Round::Same,
    }
}

/// The moment of a scan, and 0 past the last one.
fn moment_at(moments: &[u64], scan: usize) -> u64 {
    match moments.get(scan) {
        Some(moment) => *moment,
        None => 0,
    }
}

/// Keeps each scan this far from the one before it.
fn keep_apart(moments: &mut [u64], gap: u64) -> Round
    ensures { length moments.new ≡ length moments.old }
{
    let mut round = Round::Same;
    for scan in 1..moments.len() {
        let least = moments[scan - 1].saturating_add(gap);
        if let Round::Changed = raise(moments, scan, least) {
            round = Round::Changed;
        }
    }
    round
}

/// Raises the moments by what a timer asks.
fn keep_bound(moments: &mut [u64], bound: Bound) -> Round
    ensures { length moments.new ≡ length moments.old }
{
    let preset = u64::from(bound.preset);
    let moment = moment_at(moments, bound.scan);
    let begun = match bound.begin {
        Begin::No => return Round::Same,
        Begin::Before(begun) => begun,
        Begin::Scan(scan) => moment_at(moments, scan),
    };
    if bound.is_over {
        return raise(moments, bound.scan, begun.saturating_add(preset));
    }
    if moment < begun.saturating_add(preset) {
        return Round::Same;
    }
    match bound.begin {
        Begin::Scan(scan) => raise(
            moments,
            scan,
            moment.saturating_add(1).saturating_sub(preset),
        ),
        Begin::No | Begin::Before(_) => Round::Impossible,
    }
}

/// Raises the moments by what all timers ask.
fn keep_bounds(moments: &mut [u64], bounds: &[Bound]) -> Round
    ensures { length moments.new ≡ length moments.old }
{
    let mut round = Round::Same;
    for number in 0..bounds.len() {
        match keep_bound(moments, bounds[number]) {
            Round::Same => {}
            Round::Changed => round = Round::Changed,
            Round::Impossible => return Round::Impossible,
        }
    }
    round
}

/// The least moments of so many scans from a moment on, each at least this far from the one before it, by what timers ask; `None` where there
/// are none, or where they weren't found.
///
/// # Errors
///
/// `Memory` when out of memory.
pub(crate) fn least_moments(
    alloc: Global,
    scans: usize,
    from: u64,
    gap: u64,
    bounds: &[Bound],
) -> Result<Option<Vec<u64>>, Memory> {
    let mut moments = vec![in alloc; from; scans]?;
    for _ in 0..ROUNDS {
        let apart = keep_apart(&mut moments, gap);
        match (apart, keep_bounds(&mut moments, bounds)) {
            (_, Round::Impossible) => return Ok(None),
            (Round::Same, Round::Same) => return Ok(Some(moments)),
            (Round::Same | Round::Changed | Round::Impossible, Round::Same | Round::Changed) => {}
        }
    }
    Ok(None)
}
