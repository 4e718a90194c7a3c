//! The rules of cells, joints and names.

ghost use Rattle.std.specs.Prelude.{◌≡◌, ◌≤◌, ◌<◌, ◌+◌, ◌-◌, ◌*◌, ◌↔◌, ℕ, length, map, Some, true, false, IsTrue, IfSome, IfNone};
ghost use Rattle.diagram_program.specs.declared.geometry.TheConstants.{RUNGS, ROWS, COLUMNS, LINES, PITCH};
ghost use Rattle.std.specs.List.{AllByRecursion};
ghost use Rattle.diagram_declarations.specs.Kind.{traits_of};
ghost use Rattle.diagram_page.specs.Seen.{seen};
ghost use Rattle.diagram_program.specs.Bytes.{is_upright};
ghost use Rattle.diagram_reader.specs.Rules.{fits_joint, wants_name, IsBlockWith, IsLowerWith, IsTorn, IsDrawnAt, CellBreaks, BreaksAt};
ghost use Rattle.diagram_page.specs.Picture.{has_text, char_at, half_line};
ghost use Rattle.diagram_page.specs.Form.{leaps};
ghost use Rattle.diagram_reader.specs.Checks.{IsDrawnBefore, IsBrokenAlong, IsBrokenOn, IsKept};
ghost use Rattle.diagram_page.specs.Page.{rung_at, form_at, name_over};
ghost use Rattle.diagram_page.specs.Texts.{text_over};
ghost use Rattle.diagram_reader.specs.declared.grid_rule.GridRule.{GridRule};
ghost use Rattle.diagram_reader.specs.declared.grid_rule.GridRule.TheVariants as rule;
ghost use Rattle.diagram_page.specs.declared.picture.Half.TheVariants as half;

use crate::feeding::{is_unfed, right_link};
use crate::firsts::{first_of, is_before};
use crate::grid_rule::GridRule;
use diagram_declarations::{BlockKind, Pin};
use diagram_page::operand::{block_drawn, is_odd};
use diagram_page::page::{form_at, is_written_over, name_over, rung_at};
use diagram_page::picture::{char_at, half_line, joint};
use diagram_page::{Form, Half, PageView};
use diagram_program::geometry::{COLUMNS, PITCH, Place, ROWS};

/// Whether the character at a joint's place, or at the right rail, is one that can't be there.
fn is_odd_joint(page: PageView<'_, '_>, rung: usize, row: usize, half: Half, column: usize) -> bool
    requires rungs { rung < length page.parts.now }
    requires few { rung < RUNGS }
    requires rows { row < ROWS }
    requires columns { column ≤ COLUMNS }
    ensures { IsTrue result ↔ (fits_joint (seen page.entry) rung row half column (char_at (rung_at (seen page.entry) rung) (half_line row half) (PITCH * column)) ≡ false) }
{
    let lines = rung_at(page, rung);
    let b = char_at(lines, half_line(row, half), PITCH * column);
    if b == b' ' {
        return false;
    }
    if column == COLUMNS {
        return !is_branch(b);
    }
    match half {
        Half::Name => b != b'|',
        Half::Wire => {
            let before = Place {
                rung,
                row,
                column: column.saturating_sub(1),
            };
            if right_link(page, before) {
                return b != b'+' && b != b'-';
            }
            let right = char_at(lines, 2 * row + 1, PITCH * column + 1);
            b != b'+' && (b != b'|' || right == b'-')
        }
    }
}

/// Whether a character stands for a joint that connects rows: `|` or `+`.
fn is_branch(b: u8) -> bool
    ensures { result ≡ is_upright b }
{
    b == b'|' || b == b'+'
}

/// Whether a bar on the name line of a row lacks a branch above it or one below it, which it would join.
fn is_loose(page: PageView<'_, '_>, at: Place) -> bool
    requires { at.rung < length page.parts.now }
    ensures { IsTrue result ↔ CellBreaks rule.BrokenVertical half.Name (seen page.entry) at.rung at.row at.column }
{
    let lines = rung_at(page, at.rung);
    at.column >= 1
        && char_at(lines, 2 * at.row, PITCH * at.column) == b'|'
        && (at.row == 0
            || !is_branch(joint(lines, at.row - 1, at.column))
            || !is_branch(joint(lines, at.row, at.column)))
}

/// Whether a cell of this form needs a name over it: contacts, coils and blocks.
fn wants_name(form: Option<Form>) -> bool
    ensures { result ≡ wants_name form }
{
    match form {
        Some(Form::Contact(_) | Form::Coil(_) | Form::Block(_)) => true,
        None | Some(Form::Empty | Form::Wire | Form::Lower(_, _) | Form::Jump(_) | Form::Return) =>
            false,
    }
}

/// Whether a contact, coil or block has nothing written over it.
fn lacks_name(page: PageView<'_, '_>, at: Place) -> bool
    requires { at.rung < length page.parts.now }
    ensures { IsTrue result ↔ CellBreaks rule.NameMissing half.Name (seen page.entry) at.rung at.row at.column }
{
    wants_name(form_at(page, at)) && !is_written_over(page, at)
}

/// Whether something is written over a cell that takes no name, as a wire.
fn has_idle_text(page: PageView<'_, '_>, at: Place) -> bool
    requires { at.rung < length page.parts.now }
    ensures { IsTrue result ↔ CellBreaks rule.NameWithoutSymbol half.Name (seen page.entry) at.rung at.row at.column }
{
    !wants_name(form_at(page, at)) && is_written_over(page, at)
}

/// Whether the name over a contact, coil or block isn't declared.
fn is_undeclared(page: PageView<'_, '_>, at: Place) -> bool
    requires { at.rung < length page.parts.now }
    ensures { IsTrue result ↔ CellBreaks rule.Undeclared half.Name (seen page.entry) at.rung at.row at.column }
{
    wants_name(form_at(page, at)) && is_written_over(page, at) && name_over(page, at).is_none()
}

/// Whether the name over a cell is one that the cell cannot have, as that of an input over a coil.
fn has_odd_name(page: PageView<'_, '_>, at: Place) -> bool
    requires { at.rung < length page.parts.now }
    ensures { IsTrue result ↔ CellBreaks rule.WrongKind half.Name (seen page.entry) at.rung at.row at.column }
{
    wants_name(form_at(page, at)) && is_odd(page.decls, form_at(page, at), name_over(page, at))
}

/// Whether a cell is the lower cell of a block with this second input.
fn is_lower_with(pin: Pin, form: Option<Form>) -> bool
    ensures { IsTrue result ↔ IsLowerWith pin form }
{
    let Some(form) = form else {
        return false;
    };
    match form.lower() {
        Some(other) => other == pin,
        None => false,
    }
}

/// Whether a block of this kind has this pin for its second input.
fn has_second(kind: BlockKind, pin: Pin) -> bool
    ensures { IsTrue result ↔ ((traits_of kind).second_input ≡ Some pin) }
{
    match kind.traits().second_input {
        Some(second) => second == pin,
        None => false,
    }
}

/// Whether a cell is a block with this second input.
fn is_block_with(pin: Pin, form: Option<Form>) -> bool
    ensures { IsTrue result ↔ IsBlockWith pin form }
{
    let Some(form) = form else {
        return false;
    };
    match form.block() {
        Some(kind) => has_second(kind, pin),
        None => false,
    }
}

/// Whether the next row lacks the lower cell of a block with this second input.
fn lacks_lower(page: PageView<'_, '_>, pin: Pin, at: Place) -> bool
    requires { at.rung < length page.parts.now }
    ensures { IsTrue result ↔ (at.row + 1 < ROWS → ¬ (IsLowerWith pin (form_at (seen page.entry) at.rung (at.row + 1) at.column))) }
{
    at.row + 1 == ROWS || !is_lower_with(pin, form_at(page, at.in_row(at.row + 1)))
}

/// Whether the row before lacks the block of a lower cell with this input.
fn lacks_block(page: PageView<'_, '_>, pin: Pin, at: Place) -> bool
    requires { at.rung < length page.parts.now }
    ensures { IsTrue result ↔ (1 ≤ at.row → ¬ (IsBlockWith pin (form_at (seen page.entry) at.rung (at.row - 1) at.column))) }
{
    at.row == 0 || !is_block_with(pin, form_at(page, at.in_row(at.row - 1)))
}

/// Whether a block lacks the cell below it with its second input, or such a cell lacks the block above it.
fn is_torn(page: PageView<'_, '_>, at: Place) -> bool
    requires { at.rung < length page.parts.now }
    ensures { IsTrue result ↔ IsTorn (seen page.entry) at.rung at.row at.column }
{
    match form_at(page, at) {
        Some(Form::Block(kind)) => match kind.traits().second_input {
            Some(pin) => lacks_lower(page, pin, at),
            None => false,
        },
        Some(Form::Lower(pin, _)) => lacks_block(page, pin, at),
        None
        | Some(
            Form::Empty
            | Form::Wire
            | Form::Contact(_)
            | Form::Coil(_)
            | Form::Jump(_)
            | Form::Return,
        ) => false,
    }
}

/// Whether an earlier place has a block of the instance.
fn is_drawn_before(page: PageView<'_, '_>, inst: usize, at: Place) -> bool
    requires { at.rung < length page.parts.now }
    ensures { IsTrue result ↔ IsDrawnBefore (seen page.entry) inst at.rung at.row at.column }
{
    is_before(first_of(page.firsts, inst), at.reading_number())
}

/// The instance whose block is at the place.
fn drawn_at(page: PageView<'_, '_>, at: Place) -> Option<usize>
    requires { at.rung < length page.parts.now }
    ensures { (inst : ℕ) → (result ≡ Some inst) ↔ IsDrawnAt (seen page.entry) inst at.rung at.row at.column }
{
    block_drawn(page.decls, form_at(page, at), name_over(page, at))
}

/// Whether the block at a place is that of an instance whose block is drawn before.
fn is_drawn_twice(page: PageView<'_, '_>, at: Place) -> bool
    requires { at.rung < length page.parts.now }
    ensures { IsTrue result ↔ CellBreaks rule.DrawnTwice half.Name (seen page.entry) at.rung at.row at.column }
{
    match drawn_at(page, at) {
        Some(inst) => is_drawn_before(page, inst, at),
        None => false,
    }
}

/// Whether a cell of this form leaves its rung: a jump or a return.
fn leaps(form: Option<Form>) -> bool
    ensures { result ≡ leaps form }
{
    match form {
        Some(Form::Jump(_) | Form::Return) => true,
        None
        | Some(
            Form::Empty
            | Form::Wire
            | Form::Contact(_)
            | Form::Coil(_)
            | Form::Block(_)
            | Form::Lower(_, _),
        ) => false,
    }
}

/// Whether a jump or return comes after another one of its rung, in the order of reading.
fn is_second_jump(page: PageView<'_, '_>, at: Place) -> bool
    requires { at.rung < length page.parts.now }
    ensures { IsTrue result ↔ CellBreaks rule.TwoJumps half.Wire (seen page.entry) at.rung at.row at.column }
{
    if !leaps(form_at(page, at)) {
        return false;
    }
    for n in 0..COLUMNS * at.row + at.column {
        let earlier = Place {
            rung: at.rung,
            row: n / COLUMNS,
            column: n % COLUMNS,
        };
        if leaps(form_at(page, earlier)) {
            return true;
        }
    }
    false
}

/// Whether a place breaks this rule on the wire line of its row, which has the cells.
fn wire_breaks(rule: GridRule, page: PageView<'_, '_>, at: Place) -> bool
    requires { at.rung < length page.parts.now }
    ensures { IsTrue result ↔ CellBreaks rule half.Wire (seen page.entry) at.rung at.row at.column }
{
    match rule {
        GridRule::BadCell => form_at(page, at).is_none(),
        GridRule::Unfed => is_unfed(page, at),
        GridRule::BlockShape => is_torn(page, at),
        GridRule::TwoJumps => is_second_jump(page, at),
        GridRule::TooWide
        | GridRule::TooTall
        | GridRule::BadJoint
        | GridRule::BrokenVertical
        | GridRule::NameMissing
        | GridRule::NameWithoutSymbol
        | GridRule::Undeclared
        | GridRule::WrongKind
        | GridRule::DrawnTwice
        | GridRule::LabelFault
        | GridRule::TooManyRungs => false,
    }
}

/// Whether a place breaks this rule on the name line of its row, which has the names over the cells and the bars between rows.
fn name_breaks(rule: GridRule, page: PageView<'_, '_>, at: Place) -> bool
    requires { at.rung < length page.parts.now }
    ensures { IsTrue result ↔ CellBreaks rule half.Name (seen page.entry) at.rung at.row at.column }
{
    match rule {
        GridRule::BrokenVertical => is_loose(page, at),
        GridRule::NameMissing => lacks_name(page, at),
        GridRule::NameWithoutSymbol => has_idle_text(page, at),
        GridRule::Undeclared => is_undeclared(page, at),
        GridRule::WrongKind => has_odd_name(page, at),
        GridRule::DrawnTwice => is_drawn_twice(page, at),
        GridRule::TooWide
        | GridRule::TooTall
        | GridRule::BadCell
        | GridRule::BadJoint
        | GridRule::Unfed
        | GridRule::BlockShape
        | GridRule::TwoJumps
        | GridRule::LabelFault
        | GridRule::TooManyRungs => false,
    }
}

/// Whether a place breaks this rule on this line of its row.
fn breaks(
    rule: GridRule,
    page: PageView<'_, '_>,
    rung: usize,
    row: usize,
    half: Half,
    column: usize,
) -> bool
    requires rungs { rung < length page.parts.now }
    requires rows { row < ROWS }
    requires columns { column ≤ COLUMNS }
    requires few { rung < RUNGS }
    ensures { IsTrue result ↔ BreaksAt rule (seen page.entry) rung row half column }
{
    if rule == GridRule::BadJoint {
        return column >= 1 && is_odd_joint(page, rung, row, half, column);
    }
    if column == COLUMNS {
        return false;
    }
    let at = Place { rung, row, column };
    match half {
        Half::Wire => wire_breaks(rule, page, at),
        Half::Name => name_breaks(rule, page, at),
    }
}

/// The first column in which the rule is broken on this line of a row.
pub(crate) fn broken_column(
    rule: GridRule,
    page: PageView<'_, '_>,
    rung: usize,
    row: usize,
    half: Half,
) -> Option<usize>
    requires rungs { rung < length page.parts.now }
    requires rows { row < ROWS }
    requires few { rung < RUNGS }
    ensures some { IfSome result (λ c. BreaksAt rule (seen page.entry) rung row half c) }
    ensures near { IfSome result (λ c. c ≤ COLUMNS) }
    ensures none { IfNone result (IsBrokenAlong rule (seen page.entry) rung row half → ⊥) }
{
    for column in 0..COLUMNS + 1 {
        if breaks(rule, page, rung, row, half, column) {
            return Some(column);
        }
    }
    None
}

/// Whether some place of a row breaks this rule on this line of it.
fn is_broken_along(
    rule: GridRule,
    page: PageView<'_, '_>,
    rung: usize,
    row: usize,
    half: Half,
) -> bool
    requires rungs { rung < length page.parts.now }
    requires rows { row < ROWS }
    requires few { rung < RUNGS }
    ensures { IsTrue result ↔ IsBrokenAlong rule (seen page.entry) rung row half }
{
    broken_column(rule, page, rung, row, half).is_some()
}

/// The first line of the rung on which the rule is broken.
fn broken_line(rule: GridRule, page: PageView<'_, '_>, rung: usize) -> Option<usize>
    requires rungs { rung < length page.parts.now }
    requires few { rung < RUNGS }
    ensures some { IfSome result (λ line. IsBrokenOn rule (seen page.entry) rung line) }
    ensures near { IfSome result (λ line. line < LINES) }
    ensures none { IfNone result (IsKept (seen page.entry) rung rule) }
{
    for row in 0..ROWS {
        if is_broken_along(rule, page, rung, row, Half::Name) {
            return Some(half_line(row, Half::Name));
        }
        if is_broken_along(rule, page, rung, row, Half::Wire) {
            return Some(half_line(row, Half::Wire));
        }
    }
    None
}

/// The rules of places, in the order in which a fault is looked for.
const ORDER: [GridRule; 11] = [
    GridRule::BadCell,
    GridRule::BadJoint,
    GridRule::BrokenVertical,
    GridRule::Unfed,
    GridRule::NameMissing,
    GridRule::NameWithoutSymbol,
    GridRule::Undeclared,
    GridRule::WrongKind,
    GridRule::BlockShape,
    GridRule::DrawnTwice,
    GridRule::TwoJumps,
];

/// The first rule of several that a rung breaks, and the first line where it does.
fn first_broken(
    mut rules: &[GridRule],
    page: PageView<'_, '_>,
    rung: usize,
) -> Option<(GridRule, usize)>
    requires rungs { rung < length page.parts.now }
    requires few { rung < RUNGS }
    ensures some { IfSome result (λ x. IsBrokenOn x.0 (seen page.entry) rung x.1) }
    ensures near { IfSome result (λ x. x.1 < LINES) }
    ensures none { IfNone result (AllByRecursion (IsKept (seen page.entry) rung) rules.entry.now) }
{
    while let [rule, rest @ ..] = rules {
        if let Some(line) = broken_line(*rule, page, rung) {
            return Some((*rule, line));
        }
        rules = rest;
    }
    None
}

/// The first rule about places that a rung breaks, and its line.
pub(crate) fn broken_place(page: PageView<'_, '_>, rung: usize) -> Option<(GridRule, usize)>
    requires rungs { rung < length page.parts.now }
    requires few { rung < RUNGS }
    ensures some { IfSome result (λ x. IsBrokenOn x.0 (seen page.entry) rung x.1) }
    ensures near { IfSome result (λ x. x.1 < LINES) }
    ensures none { IfNone result ((rule : GridRule) → IsKept (seen page.entry) rung rule) }
{
    first_broken(&ORDER, page, rung)
}
