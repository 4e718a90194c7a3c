//! Lanes: a signal of many lanes has, in each of them, a value of another signal.

ghost use Rattle.std.specs.Prelude.{◌≡◌};

use crate::relation::Relation;

/// A lane of the signal `Left`, which holds a value of the signal `Right`. The operations go on each lane alone.
pub trait Lane: Relation {
    /// The value in the lane.
    fn read(self, wide: Self::Left) -> Self::Right
        ensures { (value : Self.Right) → Self.related self wide value → result ≡ value };
}
