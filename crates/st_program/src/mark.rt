//! The keywords and symbols.

ghost use Rattle.std.specs.Prelude.{◌≡◌, ◌↔◌, IsTrue, map};
ghost use Rattle.st_program.specs.Marks.{kind_of, mark_in, mark_of, section_of};

use crate::symbols::Section;
use diagram_declarations::{BlockKind, same_letters};

/// What a word is as a keyword or a symbol.
#[derive(Clone, Copy, Debug, PartialEq, Eq)]
pub enum Mark {
    Program,
    EndProgram,
    Var,
    VarInput,
    VarOutput,
    EndVar,
    At,
    Bool,
    Int,
    Ton,
    Tof,
    Tp,
    Ctu,
    Ctd,
    Sr,
    Rs,
    RisingTrigger,
    FallingTrigger,
    /// `TRUE`
    On,
    /// `FALSE`
    Off,
    If,
    Then,
    Elsif,
    Else,
    EndIf,
    Case,
    Of,
    EndCase,
    Return,
    Not,
    /// `AND` or `&`
    And,
    Or,
    /// `XOR`
    Exclusive,
    /// `:=`
    Becomes,
    /// `=>`
    Yields,
    Colon,
    Semicolon,
    Comma,
    Open,
    Close,
    Equal,
    /// `<>`
    Unequal,
    /// A word of a statement or an operator that a ladder diagram can't have, as `FOR` and `+`.
    Undrawable,
    /// Neither a keyword nor a symbol.
    Other,
}

/// The spellings of keywords and symbols.
const MARKS: [(&[u8], Mark); 58] = [
    (b"PROGRAM", Mark::Program),
    (b"END_PROGRAM", Mark::EndProgram),
    (b"VAR", Mark::Var),
    (b"VAR_INPUT", Mark::VarInput),
    (b"VAR_OUTPUT", Mark::VarOutput),
    (b"END_VAR", Mark::EndVar),
    (b"AT", Mark::At),
    (b"BOOL", Mark::Bool),
    (b"INT", Mark::Int),
    (b"TON", Mark::Ton),
    (b"TOF", Mark::Tof),
    (b"TP", Mark::Tp),
    (b"CTU", Mark::Ctu),
    (b"CTD", Mark::Ctd),
    (b"SR", Mark::Sr),
    (b"RS", Mark::Rs),
    (b"R_TRIG", Mark::RisingTrigger),
    (b"F_TRIG", Mark::FallingTrigger),
    (b"TRUE", Mark::On),
    (b"FALSE", Mark::Off),
    (b"IF", Mark::If),
    (b"THEN", Mark::Then),
    (b"ELSIF", Mark::Elsif),
    (b"ELSE", Mark::Else),
    (b"END_IF", Mark::EndIf),
    (b"CASE", Mark::Case),
    (b"OF", Mark::Of),
    (b"END_CASE", Mark::EndCase),
    (b"RETURN", Mark::Return),
    (b"NOT", Mark::Not),
    (b"AND", Mark::And),
    (b"&", Mark::And),
    (b"OR", Mark::Or),
    (b"XOR", Mark::Exclusive),
    (b":=", Mark::Becomes),
    (b"=>", Mark::Yields),
    (b":", Mark::Colon),
    (b";", Mark::Semicolon),
    (b",", Mark::Comma),
    (b"(", Mark::Open),
    (b")", Mark::Close),
    (b"=", Mark::Equal),
    (b"<>", Mark::Unequal),
    (b"FOR", Mark::Undrawable),
    (b"WHILE", Mark::Undrawable),
    (b"REPEAT", Mark::Undrawable),
    (b"EXIT", Mark::Undrawable),
    (b"MOD", Mark::Undrawable),
    (b"+", Mark::Undrawable),
    (b"-", Mark::Undrawable),
    (b"*", Mark::Undrawable),
    (b"/", Mark::Undrawable),
    (b"<", Mark::Undrawable),
    (b">", Mark::Undrawable),
    (b"<=", Mark::Undrawable),
    (b">=", Mark::Undrawable),
    (b"[", Mark::Undrawable),
    (b"]", Mark::Undrawable),
];

/// The mark beside a word in a table, whatever the case of its letters.
fn mark_in(table: &[(&[u8], Mark)], word: &[u8]) -> Mark
    ensures { result ≡ mark_in word.now (map (λ row. (row.0.now, row.1)) table.now) }
{
    let mut rows = table;
    while let [(spelling, mark), after @ ..] = rows {
        if same_letters(word, spelling) {
            return *mark;
        }
        rows = after;
    }
    Mark::Other
}

/// What a word is as a keyword or a symbol, whatever the case of its letters.
#[tactic(auto, unfolding(crate::specs::Marks::mark_of))]
pub fn mark_of(word: &[u8]) -> Mark
    ensures { result ≡ mark_of word.now }
{
    mark_in(&MARKS, word)
}

/// Whether two marks are the same.
pub(crate) fn is_mark(mark: Mark, other: Mark) -> bool
    ensures { IsTrue result ↔ (mark ≡ other) }
{
    mark == other
}

/// The block that a word of a type is.
pub(crate) fn kind_of(mark: Mark) -> Option<BlockKind>
    ensures { result ≡ kind_of mark }
{
    match mark {
        Mark::Ton => Some(BlockKind::Ton),
        Mark::Tof => Some(BlockKind::Tof),
        Mark::Tp => Some(BlockKind::Tp),
        Mark::Ctu => Some(BlockKind::Ctu),
        Mark::Ctd => Some(BlockKind::Ctd),
        Mark::Sr => Some(BlockKind::Sr),
        Mark::Rs => Some(BlockKind::Rs),
        _ => None,
    }
}

/// The section that a word opens.
pub(crate) fn section_of(mark: Mark) -> Option<Section>
    ensures { result ≡ section_of mark }
{
    match mark {
        Mark::Var => Some(Section::Local),
        Mark::VarInput => Some(Section::Input),
        Mark::VarOutput => Some(Section::Output),
        _ => None,
    }
}
