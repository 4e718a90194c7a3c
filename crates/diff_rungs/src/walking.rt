//! Both programs rung by rung, by a plan that says which rungs belong together.

ghost use Rattle.std.specs.Prelude.{◌≡◌, ◌<◌, ◌≤◌, ◌+◌, ℕ, false, true, None, IfOk, IsTrue, Some};
ghost use Rattle.diagram_program.specs.declared.geometry.TheConstants.{RUNGS};
ghost use Rattle.diagram_program.specs.Gates.{exit_of};
ghost use Rattle.scan_cycle.specs.Programs.{diagram_of};
ghost use Rattle.diff_rungs.specs.declared.marks.Side.TheVariants.{Old, New};
ghost use Rattle.diff_rungs.specs.Marks.{StayAsMany};
ghost use Rattle.diff_rungs.specs.Walking.{IsLeap, IsWithin, LeapTogether, LetsOne, LetsPass, Reached};

use crate::marks::{Marks, Side, narrow};
use crate::reading::{Rungs, Versions};
use crate::writing::{spoil_rung, write_rungs};
use diagram_program::Program;
use scan_cycle::Memory;
use scan_cycle::scene::checked;

/// How far both programs are: the next rung of each, the one up to which a jump may pass over rungs, and whether both programs go on
/// together, each at the place or at the target of a pair of jumps.
#[derive(Clone, Copy)]
pub(crate) struct Place {
    pub(crate) old_rung: usize,
    pub(crate) new_rung: usize,
    pub(crate) old_reach: usize,
    pub(crate) new_reach: usize,
    pub(crate) together: bool,
}

/// The rung up to which a jump of a rung or of an earlier one may pass over rungs.
#[tactic(auto, unfolding(scan_cycle::specs::Programs::diagram_of))]
fn reach_after(program: &Program, rung: usize, reach: usize) -> usize
    requires { rung < program.now.rungs }
    ensures further { reach ≤ result }
    ensures target { (place target : ℕ) → (diagram_of program.now).jump rung ≡ Some (place, target) → target ≤ result }
{
    match program.jump(rung) {
        Some((_, _, target)) => target.max(reach),
        None => reach,
    }
}

/// Whether a rung has no jump.
#[tactic(auto, unfolding(scan_cycle::specs::Programs::diagram_of))]
fn has_no_jump(program: &Program, rung: usize) -> bool
    requires { rung < program.now.rungs }
    ensures { IsTrue result → (diagram_of program.now).jump rung ≡ None }
{
    match program.jump(rung) {
        Some(_) => false,
        None => true,
    }
}

/// Whether a target of a pair of jumps lets the rung of one program at the place pass.
fn lets(leap: Rungs, place: Place, side: Side) -> bool
    ensures { IsTrue result → LetsOne side leap place.old_rung place.new_rung }
{
    match side {
        Side::Old => place.old_rung < leap.old || leap.new <= place.new_rung,
        Side::New => place.new_rung < leap.new || leap.old <= place.old_rung,
    }
}

/// Whether all of them do.
fn lets_pass(leaps: &Vec<Rungs>, place: Place, side: Side) -> bool
    ensures { IsTrue result → LetsPass side leaps.now.items place.old_rung place.new_rung }
{
    for n in 0..leaps.len() {
        if !lets(leaps[n], place, side) {
            return false;
        }
    }
    true
}

/// Whether both programs go on together past a rung of one of them.
fn stay_together(
    program: &Program,
    rung: usize,
    place: Place,
    leaps: &Vec<Rungs>,
    side: Side,
) -> bool
    requires { rung < program.now.rungs }
    ensures { IsTrue result → (place.together ≡ true) × ((diagram_of program.now).jump rung ≡ None)
        × LetsPass side leaps.now.items place.old_rung place.new_rung }
{
    place.together && has_no_jump(program, rung) && lets_pass(leaps, place, side)
}

/// Goes past a rung of the old program alone.
pub(crate) fn pass_old(
    versions: Versions<'_>,
    place: Place,
    leaps: &Vec<Rungs>,
    marks: &mut Marks,
) -> Place
    requires rung { place.old_rung < versions.old.now.rungs }
    requires few { place.old_rung < RUNGS }
    requires within { IsWithin versions.old.now versions.new.now place }
    requires reached { Reached versions.matching.now versions.old.now versions.new.now place leaps.now.items marks.old }
    ensures moved { (result.old_rung ≡ place.old_rung + 1) × (result.new_rung ≡ place.new_rung) }
    ensures within { IsWithin versions.entry.old.now versions.entry.new.now result }
    ensures reached { Reached versions.entry.matching.now versions.entry.old.now versions.entry.new.now result leaps.now.items marks.new }
    ensures many { StayAsMany marks.old marks.new }
{
    let rung = place.old_rung;
    spoil_rung(versions.matching, marks, Side::Old, versions.old, rung);
    let together = stay_together(versions.old, rung, place, leaps, Side::Old);
    Place {
        old_rung: rung + 1,
        old_reach: reach_after(versions.old, rung, place.old_reach),
        together,
        ..place
    }
}

/// Goes past a rung of the new program alone.
pub(crate) fn pass_new(
    versions: Versions<'_>,
    place: Place,
    leaps: &Vec<Rungs>,
    marks: &mut Marks,
) -> Place
    requires rung { place.new_rung < versions.new.now.rungs }
    requires few { place.new_rung < RUNGS }
    requires within { IsWithin versions.old.now versions.new.now place }
    requires reached { Reached versions.matching.now versions.old.now versions.new.now place leaps.now.items marks.old }
    ensures moved { (result.old_rung ≡ place.old_rung) × (result.new_rung ≡ place.new_rung + 1) }
    ensures within { IsWithin versions.entry.old.now versions.entry.new.now result }
    ensures reached { Reached versions.entry.matching.now versions.entry.old.now versions.entry.new.now result leaps.now.items marks.new }
    ensures many { StayAsMany marks.old marks.new }
{
    let rung = place.new_rung;
    spoil_rung(versions.matching, marks, Side::New, versions.new, rung);
    let together = stay_together(versions.new, rung, place, leaps, Side::New);
    Place {
        new_rung: rung + 1,
        new_reach: reach_after(versions.new, rung, place.new_reach),
        together,
        ..place
    }
}

/// Whether two rungs go on at the place or at targets together, where `same` tells that they find the same left links. The targets
/// are added to the list.
fn leap(
    versions: Versions<'_>,
    rungs: Rungs,
    same: bool,
    leaps: &mut Vec<Rungs>,
) -> Result<bool, Memory>
    requires old { rungs.old < versions.old.now.rungs }
    requires new { rungs.new < versions.new.now.rungs }
    ensures more { IfOk result (λ _. (r s : ℕ) → IsLeap leaps.old.items r s → IsLeap leaps.new.items r s) }
    ensures same { IfOk result (λ ok. IsTrue ok
        → LeapTogether same (exit_of versions.entry.old.now rungs.old) (exit_of versions.entry.new.now rungs.new) leaps.new.items) }
{
    match (versions.old.exit(rungs.old), versions.new.exit(rungs.new)) {
        (None, None) => Ok(true),
        (Some(old), Some(new)) if same && old.left == new.left => {
            leaps.push(Rungs {
                old: old.target,
                new: new.target,
            })?;
            Ok(true)
        }
        _ => Ok(false),
    }
}

/// Goes past a rung of each program, which are both evaluated, or both passed over where that isn't sure.
fn pass_alike(
    versions: Versions<'_>,
    place: Place,
    surely: bool,
    leaps: &mut Vec<Rungs>,
    marks: &mut Marks,
) -> Result<Place, Memory>
    requires old { place.old_rung < versions.old.now.rungs }
    requires new { place.new_rung < versions.new.now.rungs }
    requires old_few { place.old_rung < RUNGS }
    requires new_few { place.new_rung < RUNGS }
    requires surely { IsTrue surely → (place.old_reach ≤ place.old_rung) × (place.new_reach ≤ place.new_rung) }
    requires together { surely ≡ false → (place.together ≡ true)
        × LetsPass Old leaps.old.items place.old_rung place.new_rung × LetsPass New leaps.old.items place.old_rung place.new_rung }
    requires reached { Reached versions.matching.now versions.old.now versions.new.now place leaps.old.items marks.old }
    ensures within { IfOk result (λ r. IsWithin versions.entry.old.now versions.entry.new.now r) }
    ensures reached { IfOk result (λ r. Reached versions.entry.matching.now versions.entry.old.now versions.entry.new.now r leaps.new.items marks.new) }
    ensures many { IfOk result (λ _. StayAsMany marks.old marks.new) }
{
    checked(versions.old);
    checked(versions.new);
    let rungs = Rungs {
        old: place.old_rung,
        new: place.new_rung,
    };
    let first = marks.copy()?;
    let same = write_rungs(versions, rungs, marks)?;
    narrow(&first, marks, surely);
    let together = leap(versions, rungs, same, leaps)?;
    Ok(Place {
        old_rung: rungs.old + 1,
        new_rung: rungs.new + 1,
        old_reach: reach_after(versions.old, rungs.old, place.old_reach),
        new_reach: reach_after(versions.new, rungs.new, place.new_reach),
        together,
    })
}

/// Goes past a rung of each program. Where one of them may be passed over and the other evaluated, nothing is known of both together.
pub(crate) fn pass_both(
    versions: Versions<'_>,
    place: Place,
    leaps: &mut Vec<Rungs>,
    marks: &mut Marks,
) -> Result<Place, Memory>
    requires old { place.old_rung < versions.old.now.rungs }
    requires new { place.new_rung < versions.new.now.rungs }
    requires old_few { place.old_rung < RUNGS }
    requires new_few { place.new_rung < RUNGS }
    requires within { IsWithin versions.old.now versions.new.now place }
    requires reached { Reached versions.matching.now versions.old.now versions.new.now place leaps.old.items marks.old }
    ensures within { IfOk result (λ r. IsWithin versions.entry.old.now versions.entry.new.now r) }
    ensures reached { IfOk result (λ r. Reached versions.entry.matching.now versions.entry.old.now versions.entry.new.now r leaps.new.items marks.new) }
    ensures many { IfOk result (λ _. StayAsMany marks.old marks.new) }
{
    let surely = place.old_reach <= place.old_rung && place.new_reach <= place.new_rung;
    if surely {
        return pass_alike(versions, place, true, leaps, marks);
    }
    if place.together && lets_pass(leaps, place, Side::Old) && lets_pass(leaps, place, Side::New) {
        return pass_alike(versions, place, false, leaps, marks);
    }
    let past_old = pass_old(versions, place, leaps, marks);
    Ok(pass_new(versions, past_old, leaps, marks))
}

/// Goes past what is left of both programs.
pub(crate) fn pass_rest(
    versions: Versions<'_>,
    place: Place,
    leaps: &Vec<Rungs>,
    marks: &mut Marks,
) -> Place
    requires within { IsWithin versions.old.now versions.new.now place }
    requires reached { Reached versions.matching.now versions.old.now versions.new.now place leaps.now.items marks.old }
    ensures end { (result.old_rung ≡ versions.entry.old.now.rungs) × (result.new_rung ≡ versions.entry.new.now.rungs) }
    ensures reached { Reached versions.entry.matching.now versions.entry.old.now versions.entry.new.now result leaps.now.items marks.new }
    ensures many { StayAsMany marks.old marks.new }
{
    let mut at = place;
    for old in at.old_rung..versions.old.rungs() {
        at = pass_old(versions, at, leaps, marks);
    }
    for new in at.new_rung..versions.new.rungs() {
        at = pass_new(versions, at, leaps, marks);
    }
    at
}
