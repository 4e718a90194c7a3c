//! What the parts of a body do by their power.

ghost use Rattle.std.specs.Prelude.{◌≡◌, Bool, IfOk, IsTrue, Some, codes, true};
ghost use Rattle.std.specs.List.{list_all};
ghost use Rattle.xml_parts.specs.Parts.{items_from, part_of};
ghost use Rattle.network_check.specs.declared.effect.CoilKind.TheVariants.{Plain};
ghost use Rattle.network_check.specs.declared.effect.Effect.TheVariants as effect;
ghost use Rattle.plc_elements.specs.Effects.{IsCall, IsCoil, IsDone, IsTriggerCall, IsWritten, inputs_in, is_known, outputs_in};
ghost use Rattle.plc_elements.specs.Words.{coil_kind, is_plain, negation, says_none};

use crate::connections::is_left;
use crate::inputs::{
    BlockPlace, Callee, Role, are_known, are_plain, inputs_in, is_input, outputs_in,
};
use crate::names::{Body, block_at, is_trigger_block, is_variable};
use crate::parts::is_named;
use crate::presets::is_preset_of;
use crate::words::{coil_kind, is_plain, negation, says_none, word_in};
use network_check::{CoilKind, Effect};
use network_power::Links;
use std::alloc::{AllocError, Global};
use xml_parts::Part;

/// What a coil does.
#[derive(Clone, Copy)]
struct Coil {
    variable: usize,
    kind: CoilKind,
    left: Links,
}

/// What a block does.
#[derive(Clone, Copy)]
struct Call {
    number: usize,
    first: Links,
    second: Links,
}

/// Whether two kinds of coils are one.
pub(crate) fn is_same_kind(first: CoilKind, second: CoilKind) -> bool
    ensures { IsTrue result → first ≡ second }
{
    match (first, second) {
        (CoilKind::Plain, CoilKind::Plain)
        | (CoilKind::Negated, CoilKind::Negated)
        | (CoilKind::Set, CoilKind::Set)
        | (CoilKind::Reset, CoilKind::Reset) => true,
        _ => false,
    }
}

/// Whether an element is a coil of this kind.
fn is_of_kind(body: Body<'_>, place: usize, kind: CoilKind) -> bool
    ensures { IsTrue result → (negated : Bool) × (says_none (codes "edge") (items_from body.entry.document.now place) ≡ true)
        × (negation (items_from body.entry.document.now place) ≡ Some negated)
        × (coil_kind negated (items_from body.entry.document.now place) ≡ Some kind) }
{
    let Some(negated) = negation(body.document, place) else {
        return false;
    };
    match coil_kind(body.document, place, negated) {
        Some(found) => says_none(body.document, place, b"edge") && is_same_kind(found, kind),
        None => false,
    }
}

/// Whether an element is this coil.
fn is_coil(alloc: Global, body: Body<'_>, place: usize, coil: Coil) -> Result<bool, AllocError>
    ensures { IfOk result (λ is. IsTrue is → IsCoil body.entry (items_from body.entry.document.now place) coil.variable coil.kind coil.left) }
{
    let word = word_in(alloc, body.document, place, b"variable")?;
    Ok(
        is_of_kind(body, place, coil.kind)
            && is_variable(body.names, coil.variable, word)
            && is_left(alloc, body, coil.left, place)?,
    )
}

/// Whether an outVariable is this variable, and has these connections.
fn is_written(
    alloc: Global,
    body: Body<'_>,
    place: usize,
    variable: usize,
    left: Links,
) -> Result<bool, AllocError>
    ensures { IfOk result (λ is. IsTrue is → IsWritten body.entry (items_from body.entry.document.now place) variable left) }
{
    let word = word_in(alloc, body.document, place, b"expression")?;
    Ok(
        is_plain(body.document, place)
            && is_variable(body.names, variable, word)
            && is_left(alloc, body, left, place)?,
    )
}

/// Whether the inputs and outputs of a block are those that it has, none of them negated.
fn has_known_pins(alloc: Global, body: Body<'_>, block: BlockPlace) -> Result<bool, AllocError>
    ensures known { IfOk result (λ has. IsTrue has → list_all (is_known block.callee) (inputs_in (items_from body.entry.document.now block.place)) ≡ true) }
    ensures plain { IfOk result (λ has. IsTrue has → list_all is_plain (outputs_in (items_from body.entry.document.now block.place)) ≡ true) }
{
    let inputs = inputs_in(alloc, body.document, block.place)?;
    let outputs = outputs_in(alloc, body.document, block.place)?;
    Ok(
        are_plain(body.document, &outputs)
            && are_known(alloc, body.document, block.callee, &inputs)?,
    )
}

/// Whether an element is this call.
fn is_call(alloc: Global, body: Body<'_>, place: usize, call: Call) -> Result<bool, AllocError>
    ensures { IfOk result (λ is. IsTrue is → IsCall body.entry (items_from body.entry.document.now place) call.number call.first call.second) }
{
    let Some(x) = block_at(body.document, body.names, place, call.number) else {
        return Ok(false);
    };
    let block = BlockPlace {
        callee: Callee::Block(x.kind),
        place,
    };
    Ok(
        has_known_pins(alloc, body, block)?
            && is_input(alloc, body, block, Role::First, call.first)?
            && is_input(alloc, body, block, Role::Second, call.second)?
            && is_preset_of(
                alloc,
                body,
                place,
                x.kind,
                x.kind.traits().parameter,
                x.preset,
            )?,
    )
}

/// A call of a trigger.
#[derive(Clone, Copy)]
struct TriggerCall {
    falling: bool,
    output: usize,
    left: Links,
}

/// Whether an element is this call of a trigger.
fn is_trigger_call(
    alloc: Global,
    body: Body<'_>,
    place: usize,
    call: TriggerCall,
) -> Result<bool, AllocError>
    ensures { IfOk result (λ is. IsTrue is → IsTriggerCall body.entry (items_from body.entry.document.now place) call.falling call.output call.left) }
{
    if !is_trigger_block(body.document, body.names, place, call.falling, call.output) {
        return Ok(false);
    }
    let block = BlockPlace {
        callee: Callee::Trigger,
        place,
    };
    Ok(has_known_pins(alloc, body, block)? && is_input(alloc, body, block, Role::First, call.left)?)
}

/// Whether a part is this call of a trigger, with a memory.
#[tactic(auto, using(crate::specs::Effects::trigger))]
fn does_trigger(
    alloc: Global,
    body: Body<'_>,
    part: Part,
    memory: usize,
    call: TriggerCall,
) -> Result<bool, AllocError>
    ensures { IfOk result (λ does. IsTrue does → IsDone body.entry (part_of body.entry.document.now part).0 (part_of body.entry.document.now part).1 (effect.Trigger call.output memory call.falling call.left)) }
{
    if !is_named(body.document, part, b"block") {
        return Ok(false);
    }
    Ok(is_trigger_call(alloc, body, part.inside, call)?)
}

/// Whether a kind of coils is the plain one.
pub(crate) fn is_plain_kind(kind: CoilKind) -> bool
    ensures { IsTrue result → kind ≡ Plain }
{
    matches!(kind, CoilKind::Plain)
}

/// Whether a part is this coil, or an outVariable that is one.
#[tactic(auto, using(crate::specs::Effects::coil, crate::specs::Effects::written))]
fn does_coil(alloc: Global, body: Body<'_>, part: Part, coil: Coil) -> Result<bool, AllocError>
    ensures { IfOk result (λ does. IsTrue does → IsDone body.entry (part_of body.entry.document.now part).0 (part_of body.entry.document.now part).1 (effect.Coil coil.variable coil.kind coil.left)) }
{
    if is_named(body.document, part, b"coil") {
        return Ok(is_coil(alloc, body, part.inside, coil)?);
    }
    if !is_named(body.document, part, b"outVariable") {
        return Ok(false);
    }
    Ok(is_plain_kind(coil.kind) && is_written(alloc, body, part.inside, coil.variable, coil.left)?)
}

/// Whether a part is this call.
#[tactic(auto, using(crate::specs::Effects::call))]
fn does_call(alloc: Global, body: Body<'_>, part: Part, call: Call) -> Result<bool, AllocError>
    ensures { IfOk result (λ does. IsTrue does → IsDone body.entry (part_of body.entry.document.now part).0 (part_of body.entry.document.now part).1 (effect.Call call.number call.first call.second)) }
{
    if !is_named(body.document, part, b"block") {
        return Ok(false);
    }
    Ok(is_call(alloc, body, part.inside, call)?)
}

/// Whether a part is a return with these connections.
#[tactic(auto, using(crate::specs::Effects::returned))]
fn does_return(alloc: Global, body: Body<'_>, part: Part, left: Links) -> Result<bool, AllocError>
    ensures { IfOk result (λ does. IsTrue does → IsDone body.entry (part_of body.entry.document.now part).0 (part_of body.entry.document.now part).1 (effect.Return left)) }
{
    if !is_named(body.document, part, b"return") {
        return Ok(false);
    }
    Ok(is_left(alloc, body, left, part.inside)?)
}

/// Whether a part is a jump with these connections, over so many of those behind it.
#[tactic(auto, using(crate::specs::Effects::jump))]
fn does_jump(
    alloc: Global,
    body: Body<'_>,
    part: Part,
    over: usize,
    left: Links,
) -> Result<bool, AllocError>
    ensures { IfOk result (λ does. IsTrue does → IsDone body.entry (part_of body.entry.document.now part).0 (part_of body.entry.document.now part).1 (effect.Jump over left)) }
{
    if !is_named(body.document, part, b"jump") {
        return Ok(false);
    }
    Ok(is_left(alloc, body, left, part.inside)?)
}

/// Whether a part is a label.
#[tactic(auto, using(crate::specs::Effects::label))]
fn is_label_part(body: Body<'_>, part: Part) -> bool
    ensures { IsTrue result → IsDone body.entry (part_of body.entry.document.now part).0 (part_of body.entry.document.now part).1 effect.Label }
{
    is_named(body.document, part, b"label")
}

/// Whether a part does this.
pub(crate) fn is_done(
    alloc: Global,
    body: Body<'_>,
    part: Part,
    effect: Effect,
) -> Result<bool, AllocError>
    ensures { IfOk result (λ is. IsTrue is → IsDone body.entry (part_of body.entry.document.now part).0 (part_of body.entry.document.now part).1 effect) }
{
    match effect {
        Effect::Coil {
            variable,
            kind,
            left,
        } => {
            let coil = Coil {
                variable,
                kind,
                left,
            };
            does_coil(alloc, body, part, coil)
        }
        Effect::Call {
            instance,
            first,
            second,
        } => {
            let call = Call {
                number: instance,
                first,
                second,
            };
            does_call(alloc, body, part, call)
        }
        Effect::Return { left } => does_return(alloc, body, part, left),
        Effect::Jump { over, left } => does_jump(alloc, body, part, over, left),
        Effect::Label => Ok(is_label_part(body, part)),
        Effect::Trigger {
            output,
            memory,
            falling,
            left,
        } => {
            let call = TriggerCall {
                falling,
                output,
                left,
            };
            does_trigger(alloc, body, part, memory, call)
        }
    }
}
