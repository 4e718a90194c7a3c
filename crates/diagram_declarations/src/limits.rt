//! The limits of the declarations.

/// The most variables that a text may declare.
pub const MOST_VARS: usize = 256;

/// The most function block instances that a text may declare.
pub const MOST_INSTANCES: usize = 64;

/// The characters of the longest name.
pub const LONGEST_NAME: usize = 11;

/// The characters of the longest name of a timer or a counter: with `.Q` after it, it is as long as the longest name.
pub const LONGEST_INSTANCE: usize = LONGEST_NAME - 2;

/// The characters of the longest name of a bistable: with `.Q1` after it, it is as long as the longest name.
pub const LONGEST_BISTABLE: usize = LONGEST_NAME - 3;

/// The digits of the longest number.
pub const MOST_DIGITS: usize = 5;

/// The largest PV of a counter.
pub const LARGEST_COUNT: u32 = 32767;
