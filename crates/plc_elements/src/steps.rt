//! What the parts of a body do, one after the other.

ghost use Rattle.std.specs.Prelude.{ℕ, ◌≡◌, ◌∷◌, IfOk, IfSome, IsTrue, List, Option, Some, codes, slice_get, true};
ghost use Rattle.xml_document.specs.Items.{Item};
ghost use Rattle.xml_parts.specs.Parts.{part_of};
ghost use Rattle.network_check.specs.declared.effect.CoilKind.TheVariants.{Plain};
ghost use Rattle.network_check.specs.declared.effect.Effect.{Effect};
ghost use Rattle.network_check.specs.declared.effect.Effect.TheVariants as act;
ghost use Rattle.network_power.specs.declared.network.Links.{Links};
ghost use Rattle.network_routes.specs.Firsts.{AllWithin, AreOrdered};
ghost use Rattle.plc_elements.specs.Body.{AreDone, IsKeyed, Step, is_behind};
ghost use Rattle.plc_elements.specs.declared.order.Key.{Key};
ghost use Rattle.plc_elements.specs.Edges.{IsNext, IsWatch};
ghost use Rattle.plc_elements.specs.Stages.{IsStage};
ghost use Rattle.plc_elements.specs.Elements.{parts_of};
ghost use Rattle.plc_elements.specs.Order.{are_numbered};

use crate::edges::{Leading, Trigger, is_due, is_edge_coil, is_sense, is_watch};
use crate::effects::is_done;
use crate::jumps::lands;
use crate::names::Body;
use crate::order::{Key, comes_before, key_of};
use crate::parts::{is_named, part_at};
use network_check::{CoilKind, Effect};
use network_power::Links;
use network_routes::is_within;
use std::alloc::{AllocError, Global};
use xml_parts::Part;

/// How far the parts of a body have acted.
#[derive(Clone, Copy)]
pub(crate) struct Stage {
    /// Whether keys go by execution numbers.
    pub numbered: bool,
    /// How many have acted.
    pub at: usize,
    /// The key of the last of them that has one.
    pub before: Option<Key>,
    /// What was done last.
    pub last: Option<Effect>,
}

/// Whether a key is behind that of the part before it, if there is one.
fn is_behind(before: Option<Key>, key: Key) -> bool
    ensures { result ≡ is_behind before key }
{
    match before {
        Some(before) => comes_before(before, key),
        None => true,
    }
}

/// The key of the part with a number, if it is behind that of the part before it.
fn key_behind(
    alloc: Global,
    body: Body<'_>,
    stage: Stage,
    number: usize,
    part: Part,
) -> Result<Option<Key>, AllocError>
    ensures key { IfOk result (λ found. IfSome found (λ key. stage.numbered ≡ are_numbered (parts_of body.entry)
        → slice_get (parts_of body.entry) number ≡ Some (part_of body.entry.document.now part) → IsKeyed body.entry number (part_of body.entry.document.now part) key)) }
    ensures behind { IfOk result (λ found. IfSome found (λ key. is_behind stage.before key ≡ true)) }
{
    let Some(key) = key_of(alloc, body.document, stage.numbered, part, number)? else {
        return Ok(None);
    };
    if is_behind(stage.before, key) {
        Ok(Some(key))
    } else {
        Ok(None)
    }
}

/// The trigger that was called last, if one was.
fn last_trigger(stage: Stage, left: Links) -> Option<Trigger>
    ensures { IfSome result (λ trigger. (trigger.left ≡ left) × ((memory : ℕ) × (links : Links) × (stage.last ≡ Some (act.Trigger trigger.output memory trigger.falling links)))) }
{
    match stage.last {
        Some(
            Effect::Trigger {
                falling,
                output,
                ..
            },
        ) => Some(Trigger {
            falling,
            output,
            left,
        }),
        _ => None,
    }
}

/// The key of the part with a number, if it does this, before those with the numbers `behind`, and its key is behind that of the part before it.
#[tactic(auto, using(crate::specs::Body::acts))]
fn acting(
    alloc: Global,
    body: Body<'_>,
    stage: Stage,
    number: usize,
    effect: Effect,
    behind: &[usize],
) -> Result<Option<Key>, AllocError>
    ensures { IfOk result (λ found. IfSome found (λ key. stage.numbered ≡ are_numbered (parts_of body.entry)
        → (done next : List Effect) → Step body.entry done behind.now next number stage.before (Some key) effect)) }
{
    let Some(part) = part_at(body, number) else {
        return Ok(None);
    };
    if !is_done(alloc, body, part, effect)? || !lands(body, part.inside, effect, behind) {
        return Ok(None);
    }
    let Some(key) = key_behind(alloc, body, stage, number, part)? else {
        return Ok(None);
    };
    Ok(Some(key))
}

/// The key of the part with a number, if it is a coil that writes a variable by its trigger, which was called last, and its key is behind that of the
/// part before it.
#[tactic(auto, using(crate::specs::Body::coil))]
fn writing(
    alloc: Global,
    body: Body<'_>,
    stage: Stage,
    number: usize,
    variable: usize,
    left: Links,
) -> Result<Option<Key>, AllocError>
    ensures { IfOk result (λ found. IfSome found (λ key. (firsts : List ℕ) (done : List Effect) → IsStage body.entry firsts stage done
        → (behind : List ℕ) (next : List Effect) → Step body.entry done behind next number stage.before (Some key) (act.Coil variable Plain left))) }
{
    let (Some(part), Some(trigger)) = (part_at(body, number), last_trigger(stage, left)) else {
        return Ok(None);
    };
    if !is_named(body.document, part, b"coil")
        || !is_edge_coil(alloc, body, number, part.inside, trigger, variable)?
    {
        return Ok(None);
    }
    let Some(key) = key_behind(alloc, body, stage, number, part)? else {
        return Ok(None);
    };
    Ok(Some(key))
}

/// Whether a part is the next one.
fn is_next(number: usize, numbers: &[usize]) -> bool
    ensures { IsTrue result → IsNext number numbers.now }
{
    match numbers {
        [next, ..] => *next == number,
        [] => false,
    }
}

/// Whether the part with a number is a coil that calls its trigger, before it writes.
#[tactic(auto, using(crate::specs::Body::sense))]
fn senses(
    alloc: Global,
    body: Body<'_>,
    number: usize,
    trigger: Trigger,
    behind: &[usize],
) -> Result<bool, AllocError>
    ensures { IfOk result (λ senses. IsTrue senses → (done next : List Effect) (before : Option Key) (memory : ℕ)
        → Step body.entry done behind.now next number before before (act.Trigger trigger.output memory trigger.falling trigger.left)) }
{
    let Some(part) = part_at(body, number) else {
        return Ok(false);
    };
    if !is_named(body.document, part, b"coil") || !is_next(number, behind) {
        return Ok(false);
    }
    Ok(is_sense(alloc, body, number, part.inside, trigger)?)
}

/// Whether the part with a number is a contact that is looked at by its trigger.
fn is_watched(
    alloc: Global,
    body: Body<'_>,
    number: usize,
    trigger: Trigger,
) -> Result<bool, AllocError>
    ensures { IfOk result (λ is. IsTrue is → (part : List ℕ × List Item) × (slice_get (parts_of body.entry) number ≡ Some part) × (part.0 ≡ codes "contact")
        × IsWatch body.entry number part.1 trigger.falling trigger.output trigger.left) }
{
    let Some(part) = part_at(body, number) else {
        return Ok(false);
    };
    if !is_named(body.document, part, b"contact") {
        return Ok(false);
    }
    Ok(is_watch(alloc, body, number, part.inside, trigger)?)
}

/// The parts that act behind another one, and what they do.
#[derive(Clone, Copy)]
struct Rest<'a> {
    numbers: &'a [usize],
    effects: &'a [Effect],
}

/// Whether the part with a number is a contact that is looked at by its trigger when it is due, behind so many that act.
#[tactic(auto, using(crate::specs::Body::watch))]
fn watches(
    alloc: Global,
    body: Body<'_>,
    leading: Leading<'_>,
    at: usize,
    number: usize,
    trigger: Trigger,
    rest: Rest<'_>,
) -> Result<bool, AllocError>
    ensures { IfOk result (λ watches. IsTrue watches → (done : List Effect) → AreOrdered body.entry.network leading.entry.firsts.now
        → AllWithin body.entry.network leading.entry.firsts.now at done → (before : Option Key) (memory : ℕ)
        → Step body.entry done rest.entry.numbers.now rest.entry.effects.now number before before (act.Trigger trigger.output memory trigger.falling trigger.left)) }
{
    if !is_watched(alloc, body, number, trigger)? {
        return Ok(false);
    }
    Ok(is_due(body, leading, at, number, rest.numbers, rest.effects))
}

/// Whether the part with a number calls its trigger, behind so many that act.
fn calls(
    alloc: Global,
    body: Body<'_>,
    leading: Leading<'_>,
    at: usize,
    number: usize,
    trigger: Trigger,
    rest: Rest<'_>,
) -> Result<bool, AllocError>
    ensures { IfOk result (λ calls. IsTrue calls → (done : List Effect) → AreOrdered body.entry.network leading.entry.firsts.now
        → AllWithin body.entry.network leading.entry.firsts.now at done → (before : Option Key) (memory : ℕ)
        → Step body.entry done rest.entry.numbers.now rest.entry.effects.now number before before (act.Trigger trigger.output memory trigger.falling trigger.left)) }
{
    Ok(
        senses(alloc, body, number, trigger, rest.numbers)?
            || watches(alloc, body, leading, at, number, trigger, rest)?,
    )
}

/// The trigger that is called, if one is.
fn trigger_in(effect: Effect) -> Option<Trigger>
    ensures { IfSome result (λ trigger. (memory : ℕ) × (effect ≡ act.Trigger trigger.output memory trigger.falling trigger.left)) }
{
    match effect {
        Effect::Trigger {
            output,
            falling,
            left,
            ..
        } => Some(Trigger {
            falling,
            output,
            left,
        }),
        _ => None,
    }
}

/// The key of the part with a number, if it does this by its key.
fn keyed(
    alloc: Global,
    body: Body<'_>,
    stage: Stage,
    number: usize,
    effect: Effect,
    behind: &[usize],
) -> Result<Option<Key>, AllocError>
    ensures { IfOk result (λ found. IfSome found (λ key. (firsts : List ℕ) (done : List Effect) → IsStage body.entry firsts stage done
        → (next : List Effect) → Step body.entry done behind.now next number stage.before (Some key) effect)) }
{
    if let Effect::Coil {
        variable,
        kind: CoilKind::Plain,
        left,
    } = effect
    {
        if let Some(key) = writing(alloc, body, stage, number, variable, left)? {
            return Ok(Some(key));
        }
    }
    Ok(acting(alloc, body, stage, number, effect, behind)?)
}

/// The key behind the part with a number, if it does this, before the rest.
fn step(
    alloc: Global,
    body: Body<'_>,
    leading: Leading<'_>,
    stage: Stage,
    number: usize,
    effect: Effect,
    rest: Rest<'_>,
) -> Result<Option<Option<Key>>, AllocError>
    ensures { IfOk result (λ found. IfSome found (λ after. (done : List Effect) → AreOrdered body.entry.network leading.entry.firsts.now
        → IsStage body.entry leading.entry.firsts.now stage done
        → Step body.entry done rest.entry.numbers.now rest.entry.effects.now number stage.before after effect)) }
{
    if let Some(trigger) = trigger_in(effect) {
        if calls(alloc, body, leading, stage.at, number, trigger, rest)? {
            return Ok(Some(stage.before));
        }
    }
    match keyed(alloc, body, stage, number, effect, rest.numbers)? {
        Some(key) => Ok(Some(Some(key))),
        None => Ok(None),
    }
}

/// The stage behind another one, if what is connected on the left of what acts leads nowhere later.
fn next_stage(
    body: Body<'_>,
    leading: Leading<'_>,
    stage: Stage,
    after: Option<Key>,
    effect: Effect,
) -> Option<Stage>
    ensures before { IfSome result (λ next. next.before ≡ after) }
    ensures stage { IfSome result (λ next. (done : List Effect) → IsStage body.entry leading.entry.firsts.now stage done
        → IsStage body.entry leading.entry.firsts.now next (effect ∷ done)) }
{
    let at = stage.at.checked_add(1)?;
    if !is_within(body.network, leading.firsts, at, effect) {
        return None;
    }
    Some(Stage {
        numbered: stage.numbered,
        at,
        before: after,
        last: Some(effect),
    })
}

/// Whether the parts with these numbers do this, one after the other, from a stage on.
pub(crate) fn are_done(
    alloc: Global,
    body: Body<'_>,
    leading: Leading<'_>,
    stage: Stage,
    order: &[usize],
    effects: &[Effect],
) -> Result<bool, AllocError>
    ensures { IfOk result (λ are. IsTrue are → (done : List Effect) → AreOrdered body.entry.network leading.entry.firsts.now
        → IsStage body.entry leading.entry.firsts.now stage done → AreDone body.entry done stage.before order.now effects.now) }
{
    match (order, effects) {
        ([], []) => Ok(true),
        ([number, numbers @ ..], [effect, effects @ ..]) => {
            let rest = Rest { numbers, effects };
            let Some(after) = step(alloc, body, leading, stage, *number, *effect, rest)? else {
                return Ok(false);
            };
            let Some(next) = next_stage(body, leading, stage, after, *effect) else {
                return Ok(false);
            };
            Ok(are_done(alloc, body, leading, next, numbers, effects)?)
        }
        _ => Ok(false),
    }
}
