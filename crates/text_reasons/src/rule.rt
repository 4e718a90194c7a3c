//! The number and the sentence of each rule that a program text can break.

ghost use Rattle.std.specs.Prelude.{◌≡◌};
ghost use Rattle.text_reasons.specs.Sentences.{grid_number, grid_sentence, var_number, var_sentence};

use diagram_declarations::VarRule;
use diagram_reader::GridRule;

/// What stands for a rule: its number among those of its letter, and the sentence that explains it.
#[derive(Clone, Copy)]
pub struct RuleText {
    pub number: u64,
    pub sentence: &'static [u8],
}

/// A rule by its number and its sentence.
pub fn rule_text(number: u64, sentence: &'static [u8]) -> RuleText
    ensures number { result.number ≡ number }
    ensures sentence { result.sentence.now ≡ sentence.now }
{
    RuleText { number, sentence }
}

/// The number and the sentence of a rule of the declarations.
pub fn var_rule(rule: VarRule) -> RuleText
    ensures number { result.number ≡ var_number rule }
    ensures sentence { result.sentence.now ≡ var_sentence rule }
{
    match rule {
        VarRule::BadByte => rule_text(1, b"V1: this byte may stand in comments only"),
        VarRule::BadToken => rule_text(2, b"V2: this token may not stand here"),
        VarRule::BadName => rule_text(3, b"V3: this is no name"),
        VarRule::Duplicate => rule_text(4, b"V4: this name was declared before"),
        VarRule::DuplicateAddress => rule_text(5, b"V5: this address was declared before"),
        VarRule::BadPreset => rule_text(6, b"V6: this is no preset for the block"),
        VarRule::TooMany => rule_text(7, b"V7: there are too many variables or instances"),
        VarRule::Unfinished => rule_text(8, b"V8: the text ends too early"),
        VarRule::Memory => rule_text(9, b"V9: out of memory"),
    }
}

/// The number and the sentence of a rule of the drawing.
pub fn grid_rule(rule: GridRule) -> RuleText
    ensures number { result.number ≡ grid_number rule }
    ensures sentence { result.sentence.now ≡ grid_sentence rule }
{
    match rule {
        GridRule::TooWide => rule_text(1, b"G1: past the right rail there may be spaces alone"),
        GridRule::TooTall => rule_text(2, b"G2: a rung has at most 12 lines"),
        GridRule::BadCell => rule_text(3, b"G3: this is no form of a cell"),
        GridRule::BadJoint => rule_text(4, b"G4: this is no joint"),
        GridRule::BrokenVertical => rule_text(5, b"G5: this vertical link has a loose end"),
        GridRule::Unfed => rule_text(6, b"G6: nothing feeds this cell"),
        GridRule::NameMissing => rule_text(7, b"G7: a name is missing over this symbol"),
        GridRule::NameWithoutSymbol => rule_text(8, b"G8: there is no symbol under this text"),
        GridRule::Undeclared => rule_text(9, b"G9: this name isn't declared"),
        GridRule::WrongKind => rule_text(10, b"G10: this symbol can't have this name"),
        GridRule::BlockShape => rule_text(
            11,
            b"G11: the upper or the lower cell of a block is missing",
        ),
        GridRule::DrawnTwice => rule_text(12, b"G12: this instance was drawn before"),
        GridRule::LabelFault => rule_text(13, b"G13: this label or jump can't stand here"),
        GridRule::TwoJumps => rule_text(14, b"G14: a rung has at most one jump or return"),
        GridRule::TooManyRungs => rule_text(15, b"G15: there are too many rungs"),
    }
}
