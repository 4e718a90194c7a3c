//! Relations between the values of two signals.

ghost use Rattle.scan_signals.specs.Relations.{AllowsAt, IsKept, allows_kept};

use crate::signal::Signal;
use std::marker::PhantomData;

/// A relation between the values of two signals, one for each value of `Self`, that `known` and every operation keep.
pub trait Relation {
    type Left: Signal;

    type Right: Signal;

    ghost related: { Self → Self.Left → Self.Right → Type 0 };

    ghost kept: { (at : Self) → IsKept Self.Left.algebra Self.Right.algebra (related at) };
}

/// What a signal allows at a place: the relation that makes looks sound.
#[derive(Clone, Copy)]
pub struct Allowed<S> {
    pub place: u8,
    pub of: PhantomData<S>,
}

impl<S: Signal> Relation for Allowed<S> {
    type Left = S;

    type Right = bool;

    ghost related = { λ a. AllowsAt S.value S.place S.allows a.place };

    ghost kept = { λ a. allows_kept S.value S.algebra S.place S.allows S.lattice S.allowed a.place };
}
