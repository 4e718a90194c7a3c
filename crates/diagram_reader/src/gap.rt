//! The rules of the lines before a rung and after the last one: each is blank or a label.

ghost use Rattle.std.specs.Prelude.{◌≡◌, ◌≤◌, ◌<◌, ◌+◌, ℕ, length, map, IfSome, IfNone, IfOk, IfErr, true, is_some, not, nat_le, ◌==◌, ◌&&◌, ◌||◌};
ghost use Rattle.std.specs.List.{list_any};
ghost use Rattle.std.specs.Option.{option_or};
ghost use Rattle.diagram_program.specs.Bytes.{space};
ghost use Rattle.diagram_page.specs.Gap.{is_named, label_in, label_before};
ghost use Rattle.diagram_page.specs.Picture.{line_at};
ghost use Rattle.diagram_reader.specs.Gap.{GapBreaks, IsSoundGap};
ghost use Rattle.diagram_reader.specs.declared.grid_rule.Rule.{Rule};

use crate::grid_rule::{GridRule, Rule};
use diagram_declarations::Name;
use diagram_page::gap::{is_blank_line, is_named, label_in};
use diagram_page::picture::line_at;

/// Whether an earlier rung already has this label.
fn is_taken(labels: &[Option<Name>], word: &Name) -> bool
    ensures { result ≡ list_any (is_named word.now) labels.now }
{
    labels.iter().any(|label| is_named(label, word))
}

/// The label of a rung, where a line may add one: the first stays.
fn first_of(before: &Option<Name>, label: Option<Name>) -> Option<Name>
    ensures { result ≡ option_or before.now label }
{
    match before {
        Some(first) => Some(*first),
        None => label,
    }
}

/// Whether there is a byte that is neither a tab nor a printable character.
fn has_odd_byte(text: &[u8]) -> bool
    ensures { result ≡ list_any (λ b. not (b == 9 || (nat_le space b && nat_le b 126))) text.now }
{
    text.iter()
        .any(|b| !(*b == b'\t' || (b' ' <= *b && *b <= b'~')))
}

/// The label that the n-th line of the gap is, or the first rule that it breaks, `before` being the gap's label so far.
fn label_on(
    lines: &[&[u8]],
    from: usize,
    unclosed: Option<usize>,
    labels: &[Option<Name>],
    n: usize,
    before: Option<Name>,
) -> Result<Option<Name>, Rule>
    requires known { before ≡ label_before (map (λ l. l.now) lines.now) from n }
    requires within { from + n ≤ length lines.now }
    ensures label { IfOk result (λ x. x ≡ label_in (line_at (map (λ l. l.now) lines.now) (from + n))) }
    ensures kept { IfOk result (λ _. (r : Rule) → GapBreaks r (map (λ l. l.now) lines.now) from unclosed labels.now n → ⊥) }
    ensures broken { IfErr result (λ r. GapBreaks r (map (λ l. l.now) lines.now) from unclosed labels.now n) }
{
    let text = line_at(lines, from + n);
    // A blank line, as most are, has no odd byte and is no label.
    let blank = is_blank_line(text);
    if !blank && has_odd_byte(text) {
        return Err(Rule::BadByte);
    }
    if unclosed == Some(from + n) {
        return Err(Rule::Unfinished);
    }
    if blank {
        return Ok(None);
    }
    match label_in(text) {
        Some(word) if before.is_none() && !is_taken(labels, &word) => Ok(Some(word)),
        Some(_) | None => Err(Rule::Grid(GridRule::LabelFault)),
    }
}

/// The label in the gap of `count` lines, or the first rule that is broken there, with the line of the gap.
pub(crate) fn read_gap(
    lines: &[&[u8]],
    from: usize,
    unclosed: Option<usize>,
    labels: &[Option<Name>],
    count: usize,
) -> Result<Option<Name>, (Rule, usize)>
    requires within { from + count ≤ length lines.now }
    ensures label { IfOk result (λ x. x ≡ label_before (map (λ l. l.now) lines.now) from count) }
    ensures kept { IfOk result (λ _. IsSoundGap (map (λ l. l.now) lines.now) from unclosed labels.now count) }
    ensures broken { IfErr result (λ e. (e.1 < count) × GapBreaks e.0 (map (λ l. l.now) lines.now) from unclosed labels.now e.1) }
{
    let mut label: Option<Name> = None;
    for n in 0..count {
        match label_on(lines, from, unclosed, labels, n, label) {
            Ok(own) => {
                let first = first_of(&label, own);
                label = first;
            }
            Err(rule) => return Err((rule, n)),
        }
    }
    Ok(label)
}

/// The first line of the gap that is a label.
pub(crate) fn label_line(lines: &[&[u8]], from: usize, count: usize) -> Option<usize>
    requires within { from + count ≤ length lines.now }
    ensures some { IfSome result (λ n. (n < count) × (is_some (label_in (line_at (map (λ l. l.now) lines.now) (from + n))) ≡ true)) }
    ensures none { IfNone result ((n : ℕ) → n < count → is_some (label_in (line_at (map (λ l. l.now) lines.now) (from + n))) ≡ true → ⊥) }
{
    for n in 0..count {
        if label_in(line_at(lines, from + n)).is_some() {
            return Some(n);
        }
    }
    None
}
