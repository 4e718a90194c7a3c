//! A state asked of all numbers of a block at once.

ghost use Rattle.std.specs.Prelude.{◌≡◌, ◌+◌, ◌%◌, ◌<◌, ◌≤◌, ◌==◌, ◌^◌, IfOk, false, length, map, option_map, position, slice_index_or};
ghost use Rattle.causes_query.specs.Patterns.{word_opened};
ghost use Rattle.causes_query.specs.Prefixes.{signal_of};
ghost use Rattle.causes_query.specs.Listable.{IsListable};
ghost use Rattle.scan_cycle.specs.Programs.{diagram_of};
ghost use Rattle.scan_signals.specs.Words.{words};
ghost use Rattle.causes_any_state.specs.Numbers.{EachLeaves, block_bits, places_with};
ghost use Rattle.causes_any_state.specs.Possible.{AreStatesOf};
ghost use Rattle.causes_any_state.specs.Searching.{IsBatchLook, AreStateBuffers, IsTried};

use crate::assumed::true_places;
use crate::content::MOMENT;
use crate::numbers::place_of;
use crate::query::{StateQuery, Tried};
use crate::states::counts;
use causes_query::source::input_variables;
use causes_query::{Open, tail};
use diagram_program::Program;
use scan_cycle::{Memory, State};
use scan_signals::{Operations, Word64};
use scan_symbolic::laws::sound;
use scan_symbolic::{Work, look};
use st_expression::Expression;
use std::alloc::Global;

/// What a look at a block fills.
#[derive(Drop)]
pub(crate) struct BatchLook {
    /// The numbers of the input variables.
    pub inputs: Vec<usize>,
    /// What the look gives them.
    pub image: Vec<Word64>,
    pub work: Work<Word64>,
}

/// Room for the looks at a program.
pub(crate) fn new_batch_look(alloc: Global, program: &Program) -> Result<BatchLook, Memory>
    ensures { IfOk result (λ s. IsBatchLook program.now s) }
{
    let inputs = input_variables(alloc, program.decls().vars())?;
    let image = vec![in alloc; Word64(0); inputs.len()]?;
    Ok(BatchLook {
        image,
        work: Work::new(alloc, program)?,
        inputs,
    })
}

/// What the numbers of a block give a variable: its bits where it is listed, and otherwise its stored value.
fn signal(listed: &[usize], base: u64, state: &State, var: usize) -> Word64
    requires { length listed.now ≤ 64 }
    ensures { result ≡ signal_of words word_opened listed.now (block_bits listed.now) base state.now.held.values var }
{
    let open = tail(listed.len());
    match place_of(listed, var) {
        Some(place) => {
            let shift = (listed.len() - (place + 1)) as u32;
            if shift < open {
                Word64::opened(shift)
            } else {
                Word64::known((base >> shift) & 1 == 1)
            }
        }
        None => Word64::known(state.value_or_off(var)),
    }
}

/// Gives each input its signal over the numbers of a batch.
fn fill(listed: &[usize], base: u64, state: &State, inputs: &[usize], image: &mut [Word64])
    requires few { length listed.now ≤ 64 }
    requires as_many { length image.old ≡ length inputs.now }
    ensures { image.new ≡ map (signal_of words word_opened listed.now (block_bits listed.now) base state.now.held.values) inputs.now }
{
    for input in 0..inputs.len() {
        image[input] = signal(listed, base, state, inputs[input]);
    }
}

/// The places at which the signal is the value.
fn places(signal: Word64, value: bool) -> u64
    ensures { result ≡ places_with signal value }
{
    if value { signal.0 } else { signal.not().0 }
}

/// Which numbers of the block that begins with the asked one the state leaves the coil at the sought value with, where it counts and what is
/// assumed is true: place i of the word is for the i-th.
pub(crate) fn look_at_block(
    asked: StateQuery<'_>,
    assumed: Option<&Expression>,
    tried: &Tried,
    sight: &mut BatchLook,
) -> u64
    requires listable { IsListable asked.program.now asked.coil asked.listed.now }
    requires aligned { asked.number % 2 ^ block_bits asked.listed.now ≡ 0 }
    requires states { AreStatesOf asked.program.now asked.states.now }
    requires tried { IsTried asked.program.now tried.now }
    requires sight { IsBatchLook asked.program.now sight.old }
    ensures found { EachLeaves (option_map (λ e. e.now) assumed.entry) asked.entry.program.now asked.entry.coil asked.entry.listed.now asked.entry.states.now asked.entry.sought asked.entry.number result }
    ensures sight { IsBatchLook asked.entry.program.now sight.new }
{
    if !counts(asked.program, asked.states, asked.coil, &tried.state) {
        return 0;
    }
    fill(
        asked.listed,
        asked.number,
        &tried.state,
        &sight.inputs,
        &mut sight.image,
    );
    tried.state.checked();
    look(
        asked.program,
        &tried.state,
        &sight.image,
        MOMENT,
        &mut sight.work,
    );
    sound::<Word64>(asked.program);
    places(sight.work.value(asked.coil), asked.sought) & true_places(assumed, &sight.image)
}
