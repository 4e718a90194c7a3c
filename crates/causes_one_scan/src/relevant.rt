//! The inputs that decide what one scan leaves of a coil, found by looks over likenesses.

ghost use Rattle.std.specs.Prelude.{◌≡◌, ◌<◌, IfErr, IfOk, None, [], length, map, option_map};
ghost use Rattle.diagram_declarations.specs.Decls.{is_input};
ghost use Rattle.causes_query.specs.Assignment.{input_variables};
ghost use Rattle.causes_query.specs.Causes.{question};
ghost use Rattle.causes_query.specs.Refusal.{reason, refusal};
ghost use Rattle.scan_cycle.specs.Standing.{Fits};
ghost use Rattle.scan_symbolic.specs.Sheets.{HasRoom};
ghost use Rattle.causes_one_scan.specs.Assuming.{asked_scan};
ghost use Rattle.causes_one_scan.specs.Looking.{AreNamedAlike, LeavesAlike, alike};
ghost use Rattle.causes_one_scan.specs.Relevant.{AreInputs, Decide, DecideTruth};

use crate::tree::AskedScan;
use assume_truth::is_named;
use causes_query::CauseFault;
use causes_query::refusal::refusal;
use causes_query::source::input_variables;
use diagram_program::Program;
use scan_cycle::{Memory, State};
use scan_signals::Likeness;
use scan_symbolic::laws::look_is_scan;
use scan_symbolic::{Work, liken};
use st_expression::Expression;
use std::alloc::{AllocError, Global};

/// Opens each input with which the coil stays alike in two scans, whatever the values of all that are open; the others stay alike, and so
/// do those that are named in what is assumed.
fn open_inputs(
    scan: AskedScan<'_>,
    assumed: Option<&Expression>,
    image: &mut [Likeness],
    work: &mut Work<Likeness>,
)
    requires state { Fits scan.program.now scan.state.now }
    requires coil { scan.coil < length scan.program.now.decls.vars }
    requires image { LeavesAlike (asked_scan scan []) image.old }
    requires named { AreNamedAlike (option_map (λ e. e.now) assumed) image.old }
    requires work { HasRoom scan.program.now work.old }
    ensures image { LeavesAlike (asked_scan scan.entry []) image.new }
    ensures named { AreNamedAlike (option_map (λ e. e.now) assumed.entry) image.new }
    ensures length { length image.new ≡ length image.old }
{
    let AskedScan {
        program,
        state,
        now,
        coil,
    } = scan;
    look_is_scan(program);
    for input in 0..image.len() {
        if is_named(assumed, input) {
            continue;
        }
        image[input] = Likeness::Open;
        liken(program, state, image, now, work);
        if work.value(coil).is_open() {
            image[input] = Likeness::Alike;
        }
    }
}

/// The numbers of those inputs that have to be the same in both scans.
fn alike(alloc: Global, image: &[Likeness], inputs: &[usize]) -> Result<Vec<usize>, AllocError>
    requires { length image.now ≡ length inputs.now }
    ensures { IfOk result (λ v. v.items ≡ alike image.now inputs.now) }
{
    let mut found: Vec<usize> = Vec::new(alloc);
    for input in 0..inputs.len() {
        if image[input].is_alike() {
            found.push(inputs[input])?;
        }
    }
    Ok(found)
}

/// The inputs that matter, among all of them. `image` has each one alike in both scans before the search.
fn find_among(
    alloc: Global,
    scan: AskedScan<'_>,
    assumed: Option<&Expression>,
    inputs: &[usize],
    image: &mut [Likeness],
) -> Result<Vec<usize>, Memory>
    requires state { Fits scan.program.now scan.state.now }
    requires coil { scan.coil < length scan.program.now.decls.vars }
    requires inputs { inputs.now ≡ input_variables (map is_input scan.program.now.decls.vars) }
    requires as_many { length image.old ≡ length inputs.now }
    requires image { LeavesAlike (asked_scan scan []) image.old }
    requires named { AreNamedAlike (option_map (λ e. e.now) assumed) image.old }
    ensures inputs { IfOk result (λ v. AreInputs scan.entry.program.now v.items) }
    ensures decide { IfOk result (λ v. Decide (asked_scan scan.entry v.items)) }
    ensures truth { IfOk result (λ v. DecideTruth (option_map (λ e. e.now) assumed.entry) (asked_scan scan.entry v.items)) }
{
    let mut work = Work::new(alloc, scan.program)?;
    open_inputs(scan, assumed, image, &mut work);
    let found = alike(alloc, image, inputs)?;
    Ok(found)
}

/// The inputs that matter to a coil that no rule refuses.
fn find_relevant(
    alloc: Global,
    scan: AskedScan<'_>,
    assumed: Option<&Expression>,
) -> Result<Vec<usize>, Memory>
    requires state { Fits scan.program.now scan.state.now }
    requires coil { scan.coil < length scan.program.now.decls.vars }
    ensures inputs { IfOk result (λ v. AreInputs scan.entry.program.now v.items) }
    ensures decide { IfOk result (λ v. Decide (asked_scan scan.entry v.items)) }
    ensures truth { IfOk result (λ v. DecideTruth (option_map (λ e. e.now) assumed.entry) (asked_scan scan.entry v.items)) }
{
    let inputs = input_variables(alloc, scan.program.decls().vars())?;
    let mut image = vec![in alloc; Likeness::Alike; inputs.len()]?;
    find_among(alloc, scan, assumed, &inputs, &mut image)
}

/// The inputs that matter to a coil in one scan of the state at the moment `now`, by the numbers of their variables, in order of
/// declaration: with any two assignments of all inputs that agree on these, the scan leaves the same of the coil's variable.
///
/// They are found from the drawing and what is stored, by a look for each input. Where an input reaches the coil by ways that cancel each
/// other, it may be among them though it makes no difference.
///
/// # Errors
///
/// The first of the rules C1 and C2 that is broken, or `Memory` when out of memory.
pub fn relevant_inputs(
    alloc: Global,
    program: &Program,
    state: &State,
    now: u64,
    coil: usize,
) -> Result<Vec<usize>, CauseFault>
    requires { Fits program.now state.now }
    ensures inputs { IfOk result (λ v. AreInputs program.now v.items) }
    ensures decide { IfOk result (λ v. Decide (question program.now state.now now coil v.items)) }
    ensures accepted { IfOk result (λ _. refusal (question program.now state.now now coil []) None ≡ None) }
    ensures refused { IfErr result (λ e. refusal (question program.now state.now now coil []) None ≡ reason e) }
{
    let scan = AskedScan {
        program,
        state,
        now,
        coil,
    };
    relevant_inputs_assuming(alloc, scan, None)
}

/// The same, and those that are named in an expression over the inputs: they decide whether it is true as well. An operand of it is an input,
/// by its place in order of declaration.
///
/// # Errors
///
/// As for `relevant_inputs`.
pub fn relevant_inputs_assuming(
    alloc: Global,
    scan: AskedScan<'_>,
    assumed: Option<&Expression>,
) -> Result<Vec<usize>, CauseFault>
    requires { Fits scan.program.now scan.state.now }
    ensures inputs { IfOk result (λ v. AreInputs scan.entry.program.now v.items) }
    ensures decide { IfOk result (λ v. Decide (asked_scan scan.entry v.items)) }
    ensures truth { IfOk result (λ v. DecideTruth (option_map (λ e. e.now) assumed.entry) (asked_scan scan.entry v.items)) }
    ensures accepted { IfOk result (λ _. refusal (asked_scan scan.entry []) None ≡ None) }
    ensures refused { IfErr result (λ e. refusal (asked_scan scan.entry []) None ≡ reason e) }
{
    let AskedScan {
        program,
        state,
        now,
        coil,
    } = scan;
    if let Some(fault) = refusal(program, state, now, coil, &[], None) {
        return Err(fault);
    }
    match find_relevant(alloc, scan, assumed) {
        Ok(found) => Ok(found),
        Err(_) => Err(CauseFault::Memory),
    }
}
