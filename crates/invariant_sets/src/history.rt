//! What random scans leave ON: claims and pairs that need no search. They decide how long a search takes and how much it may find, and nothing else.

ghost use Rattle.std.specs.Prelude.{◌<◌};
ghost use Rattle.invariant_sets.specs.declared.history.TheConstants.{SCANS};

use diagram_declarations::Symbol;
use diagram_program::Program;
use invariant_cases::{Assumption, Pair};
use scan_cycle::{Memory, State, scan};
use std::alloc::Global;

/// How many runs are made from the state, and how many scans each of them has, one for each bit of a word.
const RUNS: u64 = 16;

const SCANS: u32 = 64;

/// How often inputs are changed at most until what is assumed of them is true.
const TRIES: u32 = 16;

/// After which scans of a run each variable was ON, and the output of each instance: a bit for each scan.
#[derive(Drop)]
struct Run {
    variables: Vec<u64>,
    instances: Vec<u64>,
}

/// What random scans leave ON.
#[derive(Drop)]
pub(crate) struct History {
    runs: Vec<Run>,
}

/// Numbers that follow no order that a program could have.
#[derive(Drop)]
struct Chance {
    state: u64,
}

impl Chance {
    /// The next number, of 32 bits.
    fn next(&mut self) -> u64 {
        self.state = self
            .state
            .wrapping_mul(6_364_136_223_846_793_005)
            .wrapping_add(1_442_695_040_888_963_407);
        self.state >> 32
    }

    /// Whether it comes out, as it does once in `many` times.
    fn is_one_of(&mut self, many: u64) -> bool
        requires { 0 < many }
    {
        self.next() % many == 0
    }
}

/// Changes about one input in `many`.
fn change(inputs: &mut [bool], many: u64, chance: &mut Chance)
    requires { 0 < many }
{
    for input in 0..inputs.len() {
        if chance.is_one_of(many) {
            inputs[input] = !inputs[input];
        }
    }
}

/// Changes about one input in `many`, again and again until what is assumed of them is true, and returns whether it is: after so many tries it
/// may not be.
fn change_allowed(
    assumption: Assumption<'_>,
    inputs: &mut [bool],
    many: u64,
    chance: &mut Chance,
) -> bool
    requires { 0 < many }
{
    for _ in 0..TRIES {
        change(inputs, many, chance);
        if assumption.allows(inputs) {
            return true;
        }
    }
    false
}

/// The time to the next scan: often little, and sometimes long.
fn pause(chance: &mut Chance) -> u64 {
    let length = chance.next();
    match chance.next() % 4 {
        0 => length % 10,
        1 => length % 1_000,
        2 => length % 10_000,
        _ => length % 1_000_000,
    }
}

impl Run {
    /// A run of no scan yet.
    fn none(alloc: Global, program: &Program) -> Result<Run, Memory> {
        let decls = program.decls();
        Ok(Run {
            variables: vec![in alloc; 0; decls.vars().len()]?,
            instances: vec![in alloc; 0; decls.instances().len()]?,
        })
    }

    /// Notes which variables a scan left ON.
    fn note_variables(&mut self, state: &State, bit: u32)
        requires { bit < SCANS }
    {
        for var in 0..self.variables.len() {
            if state.value_or_off(var) {
                self.variables[var] |= 1 << bit;
            }
        }
    }

    /// Notes which blocks a scan left with their output ON.
    fn note_instances(&mut self, state: &State, bit: u32)
        requires { bit < SCANS }
    {
        for inst in 0..self.instances.len() {
            if state.stored(inst).q() {
                self.instances[inst] |= 1 << bit;
            }
        }
    }

    /// Makes the scans of the run; before each about one input in `many` changes. Where no inputs were found with which what is assumed is true, no
    /// scan is made.
    fn make(
        &mut self,
        program: &Program,
        assumption: Assumption<'_>,
        state: &mut State,
        inputs: &mut [bool],
        many: u64,
        chance: &mut Chance,
    )
        requires { 0 < many }
    {
        for bit in 0..SCANS {
            if change_allowed(assumption, inputs, many, chance) {
                let moment = state.moment().saturating_add(pause(chance));
                let _ = scan(program, state, inputs, moment);
            }
            self.note_variables(state, bit);
            self.note_instances(state, bit);
        }
    }

    /// After which scans it was ON.
    fn word(&self, symbol: Symbol) -> u64 {
        let word = match symbol {
            Symbol::Var(var) => self.variables.get(var),
            Symbol::Instance(inst) => self.instances.get(inst),
        };
        word.copied().unwrap_or(0)
    }
}

impl History {
    /// Makes runs of scans from the state, with inputs with which what is assumed is true. From run to run they change less often.
    pub(crate) fn new(
        alloc: Global,
        program: &Program,
        state: &State,
        assumption: Assumption<'_>,
    ) -> Result<History, Memory> {
        let mut runs = Vec::new(alloc);
        let mut inputs = vec![in alloc; false; program.decls().inputs()]?;
        let mut chance = Chance { state: 1 };
        for number in 0..RUNS {
            let mut copy = state.copy(alloc)?;
            let mut run = Run::none(alloc, program)?;
            run.make(
                program,
                assumption,
                &mut copy,
                &mut inputs,
                2 + number,
                &mut chance,
            );
            runs.push(run)?;
        }
        Ok(History { runs })
    }

    /// Whether both of a pair were ON after one of the scans.
    pub(crate) fn has_both(&self, pair: Pair) -> bool {
        for run in self.runs.iter() {
            if run.word(pair.first) & run.word(pair.second) != 0 {
                return true;
            }
        }
        false
    }

    /// Whether it had this value after each of the scans.
    pub(crate) fn has_only(&self, symbol: Symbol, value: bool) -> bool {
        let always = if value { u64::MAX } else { 0 };
        for run in self.runs.iter() {
            if run.word(symbol) != always {
                return false;
            }
        }
        true
    }
}
