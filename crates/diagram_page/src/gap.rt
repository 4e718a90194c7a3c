//! The lines between rungs: labels and blank lines.

ghost use Rattle.std.specs.Prelude.{◌≡◌, ◌≤◌, length, drop, if◌then◌else◌, Some, None};
ghost use Rattle.std.specs.List.{list_all, prefix_len};
ghost use Rattle.diagram_declarations.specs.Name.{is_name_byte};
ghost use Rattle.diagram_page.specs.Form.{is_label_name};
ghost use Rattle.diagram_page.specs.Gap.{is_gap_blank, label_in, is_named};

use diagram_declarations::Name;

/// How many blanks a line begins with.
fn blanks_before(text: &[u8]) -> usize
    ensures value { result ≡ prefix_len is_gap_blank text.now }
    ensures within { result ≤ length text.now }
{
    text.iter()
        .take_while(|b| **b == b' ' || **b == b'\t')
        .count()
}

/// A line without the blanks at its start.
fn after_blanks(text: &[u8]) -> &[u8]
    ensures { result.now ≡ drop (prefix_len is_gap_blank text.now) text.now }
{
    text.split_at(blanks_before(text)).1
}

/// Whether a line has nothing but blanks.
pub fn is_blank_line(text: &[u8]) -> bool
    ensures { result ≡ list_all is_gap_blank text.now }
{
    // Each byte is looked at, wherever the first other one is, so that many are tested at once.
    let mut blank = true;
    for b in text {
        blank &= *b == b' ' || *b == b'\t';
    }
    blank
}

/// How long the word at the start of a line is.
pub(crate) fn word_len(text: &[u8]) -> usize
    ensures value { result ≡ prefix_len is_name_byte text.now }
    ensures within { result ≤ length text.now }
{
    text.iter()
        .take_while(|b| b.is_ascii_alphanumeric() || **b == b'_')
        .count()
}

/// The label that is spelled so, where there is one.
pub(crate) fn label_named(word: &[u8]) -> Option<Name>
    ensures { result ≡ (if is_label_name word.now then Some word.now else None) }
{
    if word.len() <= 8 {
        Name::new(word)
    } else {
        None
    }
}

/// The label that a line is: a name between blanks with a colon after it.
#[tactic(auto, using(crate::proofs::LabelLaws::label_by))]
pub fn label_in(text: &[u8]) -> Option<Name>
    ensures { result ≡ label_in text.now }
{
    let text = after_blanks(text);
    let (word, rest) = text.split_at(word_len(text));
    match after_blanks(rest) {
        [] => None,
        [b, end @ ..] => {
            if *b == b':' && is_blank_line(end) {
                label_named(word)
            } else {
                None
            }
        }
    }
}

/// Whether the label is this word, in any letter case.
pub fn is_named(label: &Option<Name>, word: &Name) -> bool
    ensures { result ≡ is_named word.now label.now }
{
    match label {
        Some(label) => word.same(label),
        None => false,
    }
}
