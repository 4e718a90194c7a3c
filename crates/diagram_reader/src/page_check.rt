//! The rules of a whole page: its parts in order, its labels, and where its jumps lead.

ghost use Rattle.std.specs.Prelude.{◌≡◌, ◌≤◌, ◌<◌, ◌+◌, ◌↔◌, ℕ, List, length, map, option_and_then, take, position, Some, None, IsTrue, IfSome, IfNone, IfOk, IfErr};
ghost use Rattle.diagram_program.specs.declared.geometry.TheConstants.{RUNGS, LINES};
ghost use Rattle.diagram_page.specs.declared.form.Form.TheVariants.{Jump};
ghost use Rattle.diagram_page.specs.Form.{jump_in};
ghost use Rattle.diagram_page.specs.Gap.{is_named};
ghost use Rattle.diagram_page.specs.Lines.{part_in};
ghost use Rattle.diagram_page.specs.Seen.{seen};
ghost use Rattle.diagram_page.specs.Page.{labels_of};
ghost use Rattle.diagram_reader.specs.Checks.{label_of};
ghost use Rattle.diagram_reader.specs.PageRules.{target_of, PartBreaks, EndBreaks, TargetBreaks};
ghost use Rattle.diagram_reader.specs.Stops.{IsSoundPage, IsBrokenIn, IsNear};
ghost use Rattle.diagram_reader.specs.declared.grid_rule.Stop.TheVariants.{Broken};
ghost use Rattle.diagram_reader.specs.declared.grid_rule.Rule.{Rule};

use crate::gap::{label_line, read_gap};
use crate::grid_rule::{GridRule, Rule, Stop};
use crate::rung::broken_rule;
use diagram_declarations::Name;
use diagram_page::gap::is_named;
use diagram_page::lines::last_gap;
use diagram_page::page::{form_at, part_at};
use diagram_page::picture::half_line;
use diagram_page::{Form, Half, PageView};
use diagram_program::geometry::{COLUMNS, PLACES, Place, RUNGS};
use std::alloc::Global;

/// The label of the k-th rung, or the first rule that is broken in its part, with the line; `labels` are those before.
#[tactic(auto, unfolding(crate::specs::PageRules::PartBreaks))]
fn read_part(
    page: PageView<'_, '_>,
    labels: &[Option<Name>],
    rung: usize,
) -> Result<Option<Name>, (Rule, usize)>
    requires rungs { rung < length page.parts.now }
    requires known { labels.now ≡ labels_of (map (λ l. l.now) page.lines.now) (take rung page.parts.now) }
    requires few { rung ≤ RUNGS }
    ensures label { IfOk result (λ x. x ≡ label_of (map (λ l. l.now) page.entry.lines.now) (part_in page.entry.parts.now rung)) }
    ensures kept { IfOk result (λ _. (row : Rule) (line : ℕ) → PartBreaks row (seen page.entry) rung line → ⊥) }
    ensures few { IfOk result (λ _. rung < RUNGS) }
    ensures broken { IfErr result (λ e. PartBreaks e.0 (seen page.entry) rung e.1) }
    ensures near { IfErr result (λ e. e.1 < length page.entry.lines.now + LINES) }
{
    let part = part_at(page, rung);
    match read_gap(
        page.lines,
        part.from,
        page.unclosed,
        labels,
        part.start - part.from,
    ) {
        Err((rule, n)) => Err((rule, part.from + n)),
        Ok(label) => {
            if rung >= RUNGS {
                return Err((Rule::Grid(GridRule::TooManyRungs), part.start));
            }
            match broken_rule(page, rung) {
                Some((rule, n)) => Err((rule, part.start + n)),
                None => Ok(label),
            }
        }
    }
}

/// The labels of the rungs, or the first rule that is broken in a part.
fn read_parts(alloc: Global, page: PageView<'_, '_>) -> Result<Vec<Option<Name>>, Stop>
    ensures labels { IfOk result (λ v. v.items ≡ labels_of (map (λ l. l.now) page.entry.lines.now) page.entry.parts.now) }
    ensures kept { IfOk result (λ _. (rung : ℕ) → rung < length page.entry.parts.now → (row : Rule) (line : ℕ) → PartBreaks row (seen page.entry) rung line → ⊥) }
    ensures few { IfOk result (λ _. length page.entry.parts.now ≤ RUNGS) }
    ensures broken { IfErr result (IsBrokenIn (seen page.entry)) }
    ensures near { IfErr result (IsNear (length page.entry.parts.now) (length page.entry.lines.now)) }
{
    let mut labels: Vec<Option<Name>> = Vec::new(alloc);
    for rung in 0..page.parts.len() {
        match read_part(page, &labels, rung) {
            Err((rule, line)) => return Err(Stop::Broken { rule, rung, line }),
            Ok(label) => labels.push(label)?,
        }
    }
    Ok(labels)
}

/// The first rule that is broken after the last rung, with the line.
#[tactic(auto, unfolding(crate::specs::PageRules::EndBreaks))]
fn broken_end(page: PageView<'_, '_>, labels: &[Option<Name>]) -> Option<(Rule, usize)>
    requires known { labels.now ≡ labels_of (map (λ l. l.now) page.lines.now) page.parts.now }
    ensures some { IfSome result (λ e. EndBreaks e.0 (seen page.entry) e.1) }
    ensures near { IfSome result (λ e. e.1 < length page.entry.lines.now) }
    ensures none { IfNone result ((row : Rule) (line : ℕ) → EndBreaks row (seen page.entry) line → ⊥) }
{
    let from = last_gap(page.parts);
    let count = page.lines.len() - from;
    match read_gap(page.lines, from, page.unclosed, labels, count) {
        Err((rule, n)) => Some((rule, from + n)),
        Ok(None) => None,
        Ok(Some(_)) => match label_line(page.lines, from, count) {
            Some(n) => Some((Rule::Grid(GridRule::LabelFault), from + n)),
            None => None,
        },
    }
}

/// The first rung with this label.
fn position_of(labels: &[Option<Name>], word: &Name) -> Option<usize>
    ensures { result ≡ position (is_named word.now) labels.now }
{
    labels.iter().position(|label| is_named(label, word))
}

/// The label of a jump.
fn jump_on(form: &Option<Form>) -> Option<Name>
    ensures { result ≡ option_and_then jump_in form.now }
{
    match form {
        Some(form) => form.jump(),
        None => None,
    }
}

/// The rung that a cell of the rung k leads to by a label.
pub fn target_of(labels: &[Option<Name>], rung: usize, form: &Option<Form>) -> Option<usize>
    ensures { result ≡ target_of labels.now rung form.now }
{
    match jump_on(form) {
        Some(label) => match position_of(labels, &label) {
            Some(target) if rung < target => Some(target),
            Some(_) | None => None,
        },
        None => None,
    }
}

/// Whether a cell is a jump to a label that no later rung has.
fn leads_nowhere(labels: &[Option<Name>], rung: usize, form: &Option<Form>) -> bool
    ensures { IsTrue result ↔ ((label : List ℕ) × (form.now ≡ Some (Jump label)) × (target_of labels.now rung form.now ≡ None)) }
{
    jump_on(form).is_some() && target_of(labels, rung, form).is_none()
}

/// The first line of the rung where a jump has no target.
fn broken_target(page: PageView<'_, '_>, labels: &[Option<Name>], rung: usize) -> Option<usize>
    requires rungs { rung < length page.parts.now }
    requires few { rung < RUNGS }
    requires known { labels.now ≡ labels_of (map (λ l. l.now) page.lines.now) page.parts.now }
    ensures some { IfSome result (λ line. TargetBreaks (seen page.entry) rung line) }
    ensures near { IfSome result (λ line. line < length page.entry.lines.now + LINES) }
    ensures none { IfNone result ((line : ℕ) → TargetBreaks (seen page.entry) rung line → ⊥) }
{
    for n in 0..PLACES {
        let at = Place {
            rung,
            row: n / COLUMNS,
            column: n % COLUMNS,
        };
        if leads_nowhere(labels, rung, &form_at(page, at)) {
            return Some(part_at(page, rung).start + half_line(at.row, Half::Wire));
        }
    }
    None
}

/// The first rung with a jump that has no target, and the line.
fn broken_targets(page: PageView<'_, '_>, labels: &[Option<Name>]) -> Option<(usize, usize)>
    requires few { length page.parts.now ≤ RUNGS }
    requires known { labels.now ≡ labels_of (map (λ l. l.now) page.lines.now) page.parts.now }
    ensures some { IfSome result (λ e. (e.0 < length page.entry.parts.now) × TargetBreaks (seen page.entry) e.0 e.1) }
    ensures near { IfSome result (λ e. e.1 < length page.entry.lines.now + LINES) }
    ensures none { IfNone result ((rung : ℕ) → rung < length page.entry.parts.now → (line : ℕ) → TargetBreaks (seen page.entry) rung line → ⊥) }
{
    for rung in 0..page.parts.len() {
        if let Some(line) = broken_target(page, labels, rung) {
            return Some((rung, line));
        }
    }
    None
}

/// The labels of the rungs of a sound page; otherwise the first rule that is broken.
///
/// # Errors
///
/// `Broken` with the first rule that is broken and its place, or `NoMemory`.
pub fn check(alloc: Global, page: PageView<'_, '_>) -> Result<Vec<Option<Name>>, Stop>
    ensures labels { IfOk result (λ v. v.items ≡ labels_of (map (λ l. l.now) page.entry.lines.now) page.entry.parts.now) }
    ensures sound { IfOk result (λ _. IsSoundPage (seen page.entry)) }
    ensures few { IfOk result (λ _. length page.entry.parts.now ≤ RUNGS) }
    ensures broken { IfErr result (IsBrokenIn (seen page.entry)) }
    ensures near { IfErr result (IsNear (length page.entry.parts.now) (length page.entry.lines.now)) }
{
    let labels = read_parts(alloc, page)?;
    if let Some((rule, line)) = broken_end(page, &labels) {
        return Err(Stop::Broken {
            rule,
            rung: page.parts.len(),
            line,
        });
    }
    if let Some((rung, line)) = broken_targets(page, &labels) {
        return Err(Stop::Broken {
            rule: Rule::Grid(GridRule::LabelFault),
            rung,
            line,
        });
    }
    Ok(labels)
}
