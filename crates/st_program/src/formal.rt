//! The names of inputs, presets and outputs in calls.

ghost use Rattle.std.specs.Prelude.{◌≡◌, map};
ghost use Rattle.st_program.specs.Formals.{bistable_role, block_role, counter_role, formal_in, formal_of, role_of, timer_role};

use diagram_declarations::{BlockKind, same_letters};

/// What a word is as the name of an input, a preset or an output.
#[derive(Clone, Copy)]
pub(crate) enum Formal {
    Clk,
    In,
    Cu,
    Cd,
    R,
    Ld,
    S1,
    S,
    R1,
    /// `SET1`
    SetOne,
    Reset,
    Set,
    /// `RESET1`
    ResetOne,
    Pt,
    Pv,
    Q,
    Q1,
    /// None of them.
    Other,
}

/// What is called: a trigger, or a block of a kind.
#[derive(Clone, Copy)]
pub(crate) enum Callee {
    Trigger,
    Block(BlockKind),
}

/// What an argument is for the block that is called.
#[derive(Clone, Copy)]
pub(crate) enum Role {
    First,
    Second,
    Preset,
    Output,
    /// The block has nothing of this name.
    Nothing,
}

/// The spellings.
const FORMALS: [(&[u8], Formal); 17] = [
    (b"CLK", Formal::Clk),
    (b"IN", Formal::In),
    (b"CU", Formal::Cu),
    (b"CD", Formal::Cd),
    (b"R", Formal::R),
    (b"LD", Formal::Ld),
    (b"S1", Formal::S1),
    (b"S", Formal::S),
    (b"R1", Formal::R1),
    (b"SET1", Formal::SetOne),
    (b"RESET", Formal::Reset),
    (b"SET", Formal::Set),
    (b"RESET1", Formal::ResetOne),
    (b"PT", Formal::Pt),
    (b"PV", Formal::Pv),
    (b"Q", Formal::Q),
    (b"Q1", Formal::Q1),
];

/// The name beside a word in a table, whatever the case of its letters.
fn formal_in(table: &[(&[u8], Formal)], word: &[u8]) -> Formal
    ensures { result ≡ formal_in word.now (map (λ row. (row.0.now, row.1)) table.now) }
{
    let mut rows = table;
    while let [(spelling, formal), after @ ..] = rows {
        if same_letters(word, spelling) {
            return *formal;
        }
        rows = after;
    }
    Formal::Other
}

/// What a word is as the name of an argument, whatever the case of its letters.
#[tactic(auto, unfolding(crate::specs::Formals::formal_of))]
pub(crate) fn formal_of(word: &[u8]) -> Formal
    ensures { result ≡ formal_of word.now }
{
    formal_in(&FORMALS, word)
}

/// What an argument of a name is for what is called.
pub(crate) fn role_of(callee: Callee, formal: Formal) -> Role
    ensures { result ≡ role_of callee formal }
{
    match (callee, formal) {
        (Callee::Trigger, Formal::Clk) => Role::First,
        (Callee::Trigger, Formal::Q) => Role::Output,
        (Callee::Trigger, _) => Role::Nothing,
        (Callee::Block(kind), _) => block_role(kind, formal),
    }
}

/// The same for a block.
fn block_role(kind: BlockKind, formal: Formal) -> Role
    ensures { result ≡ block_role kind formal }
{
    match kind {
        BlockKind::Ton | BlockKind::Tof | BlockKind::Tp => timer_role(formal),
        BlockKind::Ctu | BlockKind::Ctd => counter_role(kind, formal),
        BlockKind::Sr | BlockKind::Rs => bistable_role(kind, formal),
    }
}

/// The same for a timer.
fn timer_role(formal: Formal) -> Role
    ensures { result ≡ timer_role formal }
{
    match formal {
        Formal::In => Role::First,
        Formal::Pt => Role::Preset,
        Formal::Q => Role::Output,
        _ => Role::Nothing,
    }
}

/// The same for a counter.
fn counter_role(kind: BlockKind, formal: Formal) -> Role
    ensures { result ≡ counter_role kind formal }
{
    match (kind, formal) {
        (BlockKind::Ctu, Formal::Cu) => Role::First,
        (BlockKind::Ctu, Formal::R) => Role::Second,
        (BlockKind::Ctd, Formal::Cd) => Role::First,
        (BlockKind::Ctd, Formal::Ld) => Role::Second,
        (_, Formal::Pv) => Role::Preset,
        (_, Formal::Q) => Role::Output,
        _ => Role::Nothing,
    }
}

/// The same for a bistable.
fn bistable_role(kind: BlockKind, formal: Formal) -> Role
    ensures { result ≡ bistable_role kind formal }
{
    match (kind, formal) {
        (BlockKind::Sr, Formal::S1) => Role::First,
        (BlockKind::Sr, Formal::SetOne) => Role::First,
        (BlockKind::Sr, Formal::R) => Role::Second,
        (BlockKind::Sr, Formal::Reset) => Role::Second,
        (BlockKind::Rs, Formal::S) => Role::First,
        (BlockKind::Rs, Formal::Set) => Role::First,
        (BlockKind::Rs, Formal::R1) => Role::Second,
        (BlockKind::Rs, Formal::ResetOne) => Role::Second,
        (_, Formal::Q1) => Role::Output,
        _ => Role::Nothing,
    }
}
