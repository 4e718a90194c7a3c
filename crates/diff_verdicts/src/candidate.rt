//! Two states that what is known allows, as near as may be, and that agree. What is found with them is checked as it stands.

ghost use Rattle.std.specs.Prelude.{◌≡◌};
ghost use Rattle.scan_cycle.specs.Standing.{Fits};
ghost use Rattle.diff_verdicts.specs.Judging.{AreTried};
ghost use Rattle.diff_meaning.specs.declared.verdict.TheConstants.{MOMENT};

use crate::checking::Tried;
use crate::content::{Form, Mould, content};
use diagram_program::Program;
use diff_cases::{AlikeBuffers, AlikeQuestion};
use diff_matching::Pair;
use invariant_cases::pinning::answer;
use invariant_cases::{Answer, Outcome};
use scan_cycle::State;
use scan_cycle::scene::instance;
use scan_partial::{Keep, Knowledge};
use scan_signals::Tri;

/// Sets each variable that must be ON, and no other.
fn set_values(program: &Program, case: &Knowledge<Tri, Outcome>, state: &mut State)
    requires fits { Fits program.now state.old }
    ensures fits { Fits program.now state.new }
    ensures moment { state.new.moment ≡ state.old.moment }
{
    for var in 0..program.decls().vars().len() {
        state.set_value(var, case.value(var) == Tri::On);
    }
}

/// Sets each memory that must be ON, and no other.
fn set_memories(program: &Program, case: &Knowledge<Tri, Outcome>, state: &mut State)
    requires fits { Fits program.now state.old }
    ensures fits { Fits program.now state.new }
    ensures moment { state.new.moment ≡ state.old.moment }
{
    for number in 0..program.memories() {
        state.set_memory(number, case.memory(Some(number)) == Tri::On);
    }
}

/// What an instance is to be like by what is known of it.
fn mould_of(program: &Program, case: &Knowledge<Tri, Outcome>, inst: usize) -> Mould {
    Mould {
        form: Form::Answering,
        preset: instance(program, inst).1,
        answer: answer(inst, case),
        q: case.kept(inst).q() == Tri::On,
    }
}

/// Makes an instance like this, where the program has it.
fn put(program: &Program, inst: usize, mould: Mould, state: &mut State)
    requires fits { Fits program.now state.old }
    requires moment { state.old.moment ≡ MOMENT }
    ensures fits { Fits program.now state.new }
    ensures moment { state.new.moment ≡ MOMENT }
{
    let instances = program.decls().instances();
    if inst < instances.len() {
        state.checked();
        let kind = instances[inst].kind;
        state.set_block(inst, content(kind, mould));
    }
}

/// Makes each instance like what is known of it.
fn set_blocks(program: &Program, case: &Knowledge<Tri, Outcome>, state: &mut State)
    requires fits { Fits program.now state.old }
    requires moment { state.old.moment ≡ MOMENT }
    ensures fits { Fits program.now state.new }
    ensures moment { state.new.moment ≡ MOMENT }
{
    for inst in 0..program.decls().instances().len() {
        put(program, inst, mould_of(program, case, inst), state);
    }
}

/// Makes a state like what is known.
fn fill(program: &Program, case: &Knowledge<Tri, Outcome>, state: &mut State)
    requires fits { Fits program.now state.old }
    requires moment { state.old.moment ≡ MOMENT }
    ensures fits { Fits program.now state.new }
    ensures moment { state.new.moment ≡ MOMENT }
{
    set_values(program, case, state);
    set_memories(program, case, state);
    set_blocks(program, case, state);
}

/// Gives variables of the program the values that those of the other state have.
fn share_values(program: &Program, pairs: &[Pair], from: &State, to: &mut State)
    requires fits { Fits program.now to.old }
    ensures fits { Fits program.now to.new }
    ensures moment { to.new.moment ≡ to.old.moment }
{
    let count = program.decls().vars().len();
    for pair in pairs {
        if pair.new < count {
            to.set_value(pair.new, from.value_or_off(pair.old));
        }
    }
}

/// Gives memories of the program the values that those of the other state have.
fn share_memories(program: &Program, pairs: &[Pair], from: &State, to: &mut State)
    requires fits { Fits program.now to.old }
    ensures fits { Fits program.now to.new }
    ensures moment { to.new.moment ≡ to.old.moment }
{
    let count = program.memories();
    for pair in pairs {
        if pair.new < count {
            to.set_memory(pair.new, from.storage().memory_at(pair.old));
        }
    }
}

/// What both instances of a pair are to be like. Where their presets differ, the one that is known to answer leads, or the smaller preset.
fn shared_mould(
    question: AlikeQuestion<'_>,
    pair: Pair,
    form: Form,
    buffers: &AlikeBuffers,
) -> Mould {
    let of_old = mould_of(question.old, &buffers.of_old.case, pair.old);
    let of_new = mould_of(question.new, &buffers.of_new.case, pair.new);
    if of_old.preset == of_new.preset {
        return of_old;
    }
    let leads = match form {
        Form::Answering => of_old.answer != Answer::Open,
        Form::Reached | Form::NextTo => of_old.preset < of_new.preset,
    };
    let leading = if leads { of_old } else { of_new };
    Mould {
        form,
        preset: leading.preset,
        answer: leading.answer,
        q: of_old.q,
    }
}

/// Makes the instances of each pair alike.
fn share_blocks(question: AlikeQuestion<'_>, form: Form, buffers: &AlikeBuffers, tried: &mut Tried)
    requires { AreTried question.old.now question.new.now tried.old }
    ensures { AreTried question.entry.old.now question.entry.new.now tried.new }
{
    for pair in question.matching.instances() {
        let mould = shared_mould(question, *pair, form, buffers);
        put(question.old, pair.old, mould, &mut tried.old_state);
        put(question.new, pair.new, mould, &mut tried.new_state);
    }
}

/// Makes two states like what is known, which agree where that is possible.
pub(crate) fn make(
    question: AlikeQuestion<'_>,
    form: Form,
    buffers: &AlikeBuffers,
    tried: &mut Tried,
)
    requires { AreTried question.old.now question.new.now tried.old }
    ensures { AreTried question.entry.old.now question.entry.new.now tried.new }
{
    let matching = question.matching;
    fill(question.old, &buffers.of_old.case, &mut tried.old_state);
    fill(question.new, &buffers.of_new.case, &mut tried.new_state);
    let old = &tried.old_state;
    let new = &mut tried.new_state;
    share_values(question.new, matching.inputs(), old, new);
    share_values(question.new, matching.variables(), old, new);
    share_memories(question.new, matching.memories(), old, new);
    share_blocks(question, form, buffers, tried);
}
