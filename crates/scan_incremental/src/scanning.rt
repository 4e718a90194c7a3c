//! One scan of a program over its state that passes over the rungs at rest.

ghost use Rattle.std.specs.Prelude.{◌≡◌, ◌<◌, ◌↔◌, ℕ, length, map, IfOk, OnErr, IsErr, None, Some, false, true, slice_index_or};
ghost use Rattle.diagram_program.specs.declared.geometry.TheConstants.{RUNGS};
ghost use Rattle.diagram_program.specs.declared.gates.TheConstants.{LINKS};
ghost use Rattle.scan_cycle.specs.Cells.{Diagram};
ghost use Rattle.scan_cycle.specs.Rung.{evaluated, frame_of, Held, SameSizes, SameLengths};
ghost use Rattle.scan_cycle.specs.Scan.{given, next_rung, after_scan};
ghost use Rattle.scan_cycle.specs.RungByRung.{ArePossible, scanned, shape};
ghost use Rattle.scan_cycle.specs.Programs.{diagram_of, IsSound};
ghost use Rattle.scan_cycle.specs.Standing.{Fits};
ghost use Rattle.scan_incremental.specs.Resting.{known_next, marked, AllRest, AreUsers, IsTrueOf};

use crate::effects::{act_each, are_still};
use crate::marks::Users;
use crate::waking::{known_next, put_to_rest, wake_all, wake_variable};
use diagram_program::Program;
use diagram_program::gates::LINKS;
use scan_cycle::gates::find_links;
use scan_cycle::image::{Image, copy_start};
use scan_cycle::scanning::rung_after;
use scan_cycle::scene::{Scene, checked};
use scan_cycle::storage::Storage;
use scan_cycle::{MomentBack, State};
use std::alloc::{AllocError, Global};
use std::marker::Model;

/// What is remembered from scan to scan: which rungs use what, and for each rung that is known to rest the rung after it.
#[derive(Drop)]
pub struct Resting {
    users: Users,
    next: Vec<Option<usize>>,
}

impl Model for Resting {
    ghost use Rattle.scan_incremental.specs.Resting.{Memory};

    ghost Value = { Memory };

    ghost view = { λ r. record { users = r.users; next = r.next.items } };
}

impl Resting {
    /// What is known before the first scan: no rung is known to rest. It is true of every state of the program.
    ///
    /// # Errors
    ///
    /// `AllocError` when out of memory.
    pub fn new(alloc: Global, program: &Program) -> Result<Resting, AllocError>
        ensures { IfOk result (λ r. (moment : ℕ) (h : Held) → IsTrueOf (diagram_of program.now) moment h r) }
    {
        Ok(Resting {
            users: Users::new(alloc, program)?,
            next: vec![in alloc; None; program.rungs()]?,
        })
    }

    /// Forgets which rungs rest, so that it is true of every state of the program, whatever has changed this one.
    pub fn forget(&mut self)
        ensures { (d : Diagram) → AreUsers d self.old.users → (moment : ℕ) (h : Held) → IsTrueOf d moment h self.new }
    {
        wake_all(&mut self.next);
    }
}

/// Evaluates a rung that isn't known to rest, and returns the rung after it.
fn evaluate(
    scene: Scene<'_>,
    storage: &mut Storage,
    start: &mut Image<bool>,
    links: &mut [bool],
    users: &Users,
    next: &mut [Option<usize>],
) -> usize
    requires links { length links.old ≡ LINKS }
    requires rung { scene.rung < scene.program.now.rungs }
    requires few { scene.rung < RUNGS }
    requires program { IsSound (diagram_of scene.program.now) }
    requires sizes { SameSizes start.old storage.old }
    requires users { AreUsers (diagram_of scene.program.now) users.now }
    requires awake { known_next next.old scene.rung ≡ None }
    requires rest { AllRest (diagram_of scene.program.now) scene.now storage.old next.old }
    ensures held { storage.new ≡ evaluated (diagram_of scene.entry.program.now) scene.entry.now scene.entry.rung storage.old }
    ensures after { result ≡ next_rung (diagram_of scene.entry.program.now) scene.entry.now scene.entry.rung storage.old }
    ensures sizes { SameSizes start.new storage.new }
    ensures links { length links.new ≡ LINKS }
    ensures rest { AllRest (diagram_of scene.entry.program.now) scene.entry.now storage.new next.new }
{
    copy_start(storage, start);
    find_links(scene, storage, start, links);
    let after = rung_after(scene.program, scene.rung, links);
    if are_still(scene, start, links, storage) {
        put_to_rest(next, scene.rung, after);
        return after;
    }
    act_each(scene, start, links, storage, users, next);
    after
}

/// Evaluates a rung unless it is known to rest, and returns the rung after it.
fn scan_rung(
    scene: Scene<'_>,
    storage: &mut Storage,
    start: &mut Image<bool>,
    links: &mut [bool],
    users: &Users,
    next: &mut [Option<usize>],
) -> usize
    requires links { length links.old ≡ LINKS }
    requires rung { scene.rung < scene.program.now.rungs }
    requires few { scene.rung < RUNGS }
    requires program { IsSound (diagram_of scene.program.now) }
    requires sizes { SameSizes start.old storage.old }
    requires users { AreUsers (diagram_of scene.program.now) users.now }
    requires rest { AllRest (diagram_of scene.program.now) scene.now storage.old next.old }
    ensures held { storage.new ≡ evaluated (diagram_of scene.entry.program.now) scene.entry.now scene.entry.rung storage.old }
    ensures after { result ≡ next_rung (diagram_of scene.entry.program.now) scene.entry.now scene.entry.rung storage.old }
    ensures sizes { SameSizes start.new storage.new }
    ensures links { length links.new ≡ LINKS }
    ensures rest { AllRest (diagram_of scene.entry.program.now) scene.entry.now storage.new next.new }
{
    match known_next(next, scene.rung) {
        Some(after) => after,
        None => evaluate(scene, storage, start, links, users, next),
    }
}

/// Goes from rung to rung, except those that a jump passes over.
fn scan_rungs(
    program: &Program,
    now: u64,
    storage: &mut Storage,
    start: &mut Image<bool>,
    users: &Users,
    next: &mut [Option<usize>],
)
    requires program { IsSound (diagram_of program.now) }
    requires sizes { SameSizes start.old storage.old }
    requires users { AreUsers (diagram_of program.now) users.now }
    requires rest { AllRest (diagram_of program.now) now storage.old next.old }
    ensures held { storage.new ≡ (scanned (diagram_of program.now) now storage.old program.now.rungs).held }
    ensures sizes { SameSizes start.new storage.new }
    ensures rest { AllRest (diagram_of program.now) now storage.new next.new }
{
    let mut links = [false; LINKS];
    let mut resume = 0;
    for rung in 0..program.rungs() {
        if resume <= rung {
            let scene = Scene { program, now, rung };
            resume = scan_rung(scene, storage, start, &mut links, users, next);
        }
    }
}

/// Wakes the rungs that use a variable whose value isn't what it was.
fn wake_changed(storage: &Storage, before: &[bool], users: &Users, next: &mut [Option<usize>])
    requires { length before.now ≡ length storage.now.values }
    ensures known { (j n : ℕ) → known_next next.new j ≡ Some n → known_next next.old j ≡ Some n }
    ensures same { (j n v : ℕ) → known_next next.new j ≡ Some n → marked users.now.variables v j ≡ true
        → slice_index_or storage.now.values v false ≡ slice_index_or before.now v false }
{
    for var in 0..before.len() {
        if storage.value(var) != before[var] {
            wake_variable(users, var, next);
        }
    }
}

/// Gives the inputs their values, and wakes the rungs that use a variable that got another one.
fn give(
    program: &Program,
    now: u64,
    inputs: &[bool],
    storage: &mut Storage,
    start: &mut Image<bool>,
    users: &Users,
    next: &mut [Option<usize>],
)
    requires program { IsSound (diagram_of program.now) }
    requires sizes { SameSizes start.old storage.old }
    requires users { AreUsers (diagram_of program.now) users.now }
    requires rest { AllRest (diagram_of program.now) now storage.old next.old }
    ensures given { storage.new ≡ record storage.old { values = given (diagram_of program.now).inputs inputs.now storage.old.values } }
    ensures sizes { SameSizes start.new storage.new }
    ensures rest { AllRest (diagram_of program.now) now storage.new next.new }
{
    copy_start(storage, start);
    storage.give(program.decls(), inputs);
    wake_changed(storage, &start.values, users, next);
}

/// Gives the inputs their values, and evaluates the rungs that aren't known to rest.
fn scan_storage(
    program: &Program,
    now: u64,
    inputs: &[bool],
    storage: &mut Storage,
    start: &mut Image<bool>,
    resting: &mut Resting,
)
    requires program { IsSound (diagram_of program.now) }
    requires sizes { SameSizes start.old storage.old }
    requires resting { IsTrueOf (diagram_of program.now) now storage.old resting.old }
    ensures held { storage.new ≡ after_scan (diagram_of program.now) now inputs.now storage.old }
    ensures sizes { SameSizes start.new storage.new }
    ensures lengths { SameLengths storage.new storage.old }
    ensures shapes { map shape storage.new.kept.blocks ≡ map shape storage.old.kept.blocks }
    ensures possible { ArePossible now storage.old.kept.blocks → ArePossible now storage.new.kept.blocks }
    ensures resting { IsTrueOf (diagram_of program.now) now storage.new resting.new }
{
    give(
        program,
        now,
        inputs,
        storage,
        start,
        &resting.users,
        &mut resting.next,
    );
    scan_rungs(
        program,
        now,
        storage,
        start,
        &resting.users,
        &mut resting.next,
    );
}

/// One scan at the moment `now`, as `scan_cycle::scan` makes it; what is remembered is true of the program and the state, before and
/// after. It is no more once anything else has changed the state.
///
/// # Errors
///
/// `MomentBack` where `now` is before the moment of the state, which is then unchanged.
pub fn scan(
    program: &Program,
    state: &mut State,
    resting: &mut Resting,
    inputs: &[bool],
    now: u64,
) -> Result<(), MomentBack>
    requires resting { IsTrueOf (diagram_of program.now) state.old.moment state.old.held resting.old }
    ensures done { IfOk result (λ _. state.new ≡ record {
      held = after_scan (diagram_of program.now) now inputs.now state.old.held;
      kinds = state.old.kinds;
      moment = now;
    }) }
    ensures fits { Fits program.now state.old → Fits program.now state.new }
    ensures refused { OnErr result (state.new ≡ state.old) }
    ensures back { IsErr result ↔ (now < state.old.moment) }
    ensures resting { IsTrueOf (diagram_of program.now) state.new.moment state.new.held resting.new }
{
    if now < state.moment {
        return Err(MomentBack);
    }
    checked(program);
    scan_storage(
        program,
        now,
        inputs,
        &mut state.storage,
        &mut state.start,
        resting,
    );
    state.moment = now;
    Ok(())
}
