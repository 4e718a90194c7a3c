//! What leads to elements from the left.

ghost use Rattle.std.specs.Prelude.{◌≡◌, IfSome, IsTrue, true};
ghost use Rattle.network_power.specs.Network.{IsFedBy, is_closed};
ghost use Rattle.network_power.specs.Leading.{Env, IsEnd, IsOneLeft, Leads, LeadsTo};

use crate::elements::{element_at, is_rail, is_same_operand, linked, unwired};
use crate::network::{Element, Network};
use st_expression::Operand;

/// Where the power of something comes from.
#[derive(Clone, Copy)]
pub(crate) enum Left<'a> {
    /// A left rail, or what has power always in its place.
    Rail,
    /// One of these elements.
    Elements(&'a [usize]),
}

/// What leads to the first ones of some elements, and the others.
#[derive(Clone, Copy)]
pub(crate) struct Way<'a> {
    pub left: Left<'a>,
    pub rest: &'a [usize],
}

/// Whether a left rail is among these elements.
fn has_rail(net: Network<'_>, ids: &[usize]) -> bool
    ensures { IsTrue result → (env : Env) → IsFedBy net.entry env ids.now }
{
    match ids {
        [] => false,
        [id, rest @ ..] => is_rail(net, *id) || has_rail(net, rest),
    }
}

/// Whether this is the left end: there is power always.
pub(crate) fn is_end(net: Network<'_>, left: Left<'_>) -> bool
    ensures { IsTrue result → IsEnd net.entry left.entry }
{
    match left {
        Left::Rail => true,
        Left::Elements(ids) => has_rail(net, ids),
    }
}

/// Whether both have the same numbers in one order.
fn are_same(first: &[usize], second: &[usize]) -> bool
    ensures { IsTrue result → first.now ≡ second.now }
{
    first == second
}

/// Whether both are the left end, or the same elements.
pub(crate) fn is_one_left(net: Network<'_>, first: Left<'_>, second: Left<'_>) -> bool
    ensures { IsTrue result → IsOneLeft net.entry first.entry second.entry }
{
    if is_end(net, first) && is_end(net, second) {
        return true;
    }
    match (first, second) {
        (Left::Elements(ids), Left::Elements(others)) => are_same(ids, others),
        _ => false,
    }
}

/// What leads to a contact that is closed where an operand is on, or where it is off if that is asked for. Nothing does to an output.
fn before_literal<'a>(
    net: Network<'a>,
    operand: Operand,
    negated: bool,
    id: usize,
) -> Option<Left<'a>>
    ensures { IfSome result (λ left. LeadsTo net.entry id left (λ env. is_closed negated (env operand))) }
{
    match element_at(net, id)? {
        Element::Contact {
            negated: opens,
            operand: read,
            left,
        } if opens == negated && is_same_operand(read, operand) => {
            Some(Left::Elements(unwired(net, linked(net, left)?)))
        }
        Element::Output { operand: read } if !negated && is_same_operand(read, operand) => {
            Some(Left::Rail)
        }
        _ => None,
    }
}

/// The same for the first of some elements, through coils.
pub(crate) fn before_first<'a>(
    net: Network<'a>,
    operand: Operand,
    negated: bool,
    ids: &'a [usize],
) -> Option<Way<'a>>
    ensures { IfSome result (λ way. Leads net.entry ids.now way.left way.rest.now (λ env. is_closed negated (env operand))) }
{
    let [_, rest @ ..] = ids else {
        return None;
    };
    let [id] = unwired(net, &ids[..1]) else {
        return None;
    };
    let left = before_literal(net, operand, negated, *id)?;
    Some(Way { left, rest })
}

/// The elements behind the rails at the start.
fn behind_rails<'a>(net: Network<'_>, ids: &'a [usize]) -> &'a [usize] {
    match ids {
        [id, rest @ ..] if is_rail(net, *id) => behind_rails(net, rest),
        _ => ids,
    }
}

/// The way to the left rails that come first.
pub(crate) fn before_rails<'a>(net: Network<'a>, ids: &'a [usize]) -> Option<Way<'a>>
    ensures { IfSome result (λ way. Leads net.entry ids.now way.left way.rest.now (λ env. true)) }
{
    match ids {
        [id, rest @ ..] if is_rail(net, *id) => Some(Way {
            left: Left::Rail,
            rest: behind_rails(net, rest),
        }),
        _ => None,
    }
}
