//! How much of a list was written.

ghost use Rattle.std.specs.Prelude.{◌≡◌, ◌≢◌, ◌-◌, ◌<◌, ◌≤◌, ◌^◌, Some, None, IfSome, false, true};

/// How much of a list was written, and how many looks it took.
#[derive(Clone, Copy, Debug, PartialEq, Eq)]
pub struct Summary {
    /// The rows after the header.
    pub rows: u64,
    /// The looks that the cursor has made since it was made.
    pub looks: u64,
}

/// Whether a list with this many rows has reached its limit.
pub fn is_reached(limit: Option<u64>, rows: u64) -> bool
    ensures yes { result ≡ true → limit ≡ Some rows }
    ensures no { result ≡ false → limit ≢ Some rows }
{
    match limit {
        Some(most) => most == rows,
        None => false,
    }
}

/// How many more rows a limit allows.
pub(crate) fn rows_left(limit: Option<u64>, rows: u64) -> u64
    requires within { IfSome limit (λ most. rows ≤ most) }
    ensures limited { IfSome limit (λ most. result ≡ most - rows) }
    ensures whole { limit ≡ None → result ≡ 2 ^ 64 - 1 }
{
    match limit {
        Some(most) => most - rows,
        None => u64::MAX,
    }
}
