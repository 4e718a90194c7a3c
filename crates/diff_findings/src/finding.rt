//! What is said of a name.

use diagram_declarations::Address;
use diff_meaning::Verdict;

/// Of what something is said.
#[derive(Clone, Copy)]
pub enum Sort {
    /// A variable of the new program.
    NewVariable,
    /// An instance of the new program.
    NewInstance,
    /// A variable of the old program.
    OldVariable,
    /// An instance of the old program.
    OldInstance,
    /// A memory of an edge in the new program.
    NewEdge,
}

/// Of which one, by its number in its program.
#[derive(Clone, Copy)]
pub struct Subject {
    pub sort: Sort,
    pub number: usize,
}

/// What is said.
#[derive(Clone, Copy)]
pub enum Remark {
    /// What was judged of what one scan of each program leaves.
    Judged(Verdict),
    /// The programs declare another initial value.
    Initial {
        old: bool,
        new: bool,
    },
    /// They declare another preset.
    Preset {
        old: u32,
        new: u32,
    },
    /// They declare another address.
    Moved {
        old: Option<Address>,
        new: Option<Address>,
    },
    /// It belongs to this program alone.
    Alone,
}

/// What is said of something.
#[derive(Clone, Copy)]
pub struct Finding {
    pub subject: Subject,
    pub remark: Remark,
}
