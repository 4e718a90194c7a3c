//! An expression that is drawn, or its inverse.

ghost use Rattle.std.specs.Prelude.{◌≡◌, ◌≤◌, Bool, false, IfSome, IsTrue, not, if◌then◌else◌};
ghost use Rattle.scan_cycle.specs.Cells.{Frame};

use st_expression::Expression;
use st_statements::constant_of;

/// An expression, or its inverse where it isn't `on`.
#[derive(Clone, Copy)]
pub(crate) struct Part<'a> {
    pub expression: &'a Expression,
    pub on: bool,
}

impl<'a> Part<'a> {
    ghost use Rattle.draw_power.specs.Parts.{shown};

    /// The same part, or its inverse where it isn't `on`.
    pub(crate) fn turned(self, on: bool) -> Part<'a>
        ensures same { result.expression.now ≡ self.entry.expression.now }
        ensures turned { (f : Frame Bool) → shown result f ≡ (if on then shown self.entry f else not (shown self.entry f)) }
    {
        Part {
            expression: self.expression,
            on: self.on == on,
        }
    }

    /// Whether constants decide it to be off, whatever its operands have.
    pub(crate) fn is_never(self) -> bool
        ensures { IsTrue result → (f : Frame Bool) → shown self.entry f ≡ false }
    {
        match self.constant() {
            Some(false) => true,
            Some(true) | None => false,
        }
    }

    /// What constants decide it to be, whatever its operands have.
    pub(crate) fn constant(self) -> Option<bool>
        ensures { IfSome result (λ on. (f : Frame Bool) → shown self.entry f ≡ on) }
    {
        match constant_of(self.expression) {
            Some(value) => Some(value == self.on),
            None => None,
        }
    }
}

/// Two parts that are drawn one behind the other, or one below the other.
#[derive(Clone, Copy)]
pub(crate) struct Pair<'a> {
    pub first: Part<'a>,
    pub second: Part<'a>,
}

impl<'a> Pair<'a> {
    ghost use Rattle.draw_power.specs.Parts.{IsPair, both_of, depth, depth_of, none_of, same_of, shown};

    /// Two expressions, each or its inverse.
    pub(crate) fn new(a: &'a Expression, a_on: bool, b: &'a Expression, b_on: bool) -> Pair<'a>
        ensures { IsPair result a.now a_on b.now b_on }
    {
        Pair {
            first: Part {
                expression: a,
                on: a_on,
            },
            second: Part {
                expression: b,
                on: b_on,
            },
        }
    }

    /// The inverses of both.
    pub(crate) fn inverse(self) -> Pair<'a>
        ensures first { result.first.expression.now ≡ self.entry.first.expression.now }
        ensures second { result.second.expression.now ≡ self.entry.second.expression.now }
        ensures inverse { (f : Frame Bool) → both_of result f ≡ none_of self.entry f }
    {
        Pair {
            first: self.first.turned(false),
            second: self.second.turned(false),
        }
    }

    /// The part that is on where both are or none is, if constants decide the other one.
    pub(crate) fn alone(self) -> Option<Part<'a>>
        ensures depth { IfSome result (λ part. depth part.expression.now ≤ depth_of self.entry) }
        ensures same { IfSome result (λ part. (f : Frame Bool) → shown part f ≡ same_of self.entry f) }
    {
        if let Some(on) = self.first.constant() {
            return Some(self.second.turned(on));
        }
        if let Some(on) = self.second.constant() {
            return Some(self.first.turned(on));
        }
        None
    }
}
