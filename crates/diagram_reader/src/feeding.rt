//! Right links, and which cells they feed on a page.

ghost use Rattle.std.specs.Prelude.{◌≡◌, ◌<◌, ◌↔◌, length, IsTrue};
ghost use Rattle.diagram_page.specs.Seen.{seen};
ghost use Rattle.diagram_reader.specs.Feeding.{right_link, enters, IsFed, IsUnfed};

use diagram_page::page::{form_at, rung_at};
use diagram_page::picture::{char_at, joint, same_group};
use diagram_page::{Form, PageView};
use diagram_program::geometry::{CELL, PITCH, Place, ROWS};

/// Whether power can leave a cell on its right.
pub fn right_link(page: PageView<'_, '_>, at: Place) -> bool
    requires { at.rung < length page.parts.now }
    ensures { result ≡ right_link (seen page.entry) at.rung at.row at.column }
{
    match form_at(page, at) {
        Some(Form::Lower(_, _) | Form::Jump(_) | Form::Return) => false,
        Some(Form::Empty | Form::Wire | Form::Contact(_) | Form::Coil(_) | Form::Block(_)) | None =>
            {
                char_at(
                    rung_at(page, at.rung),
                    2 * at.row + 1,
                    PITCH * at.column + CELL,
                ) != b' '
            }
    }
}

/// Whether the cell on the left of a joint passes its right link on into it: it has one, and the joint is a wire or a crossing.
fn enters(page: PageView<'_, '_>, at: Place) -> bool
    requires { at.rung < length page.parts.now }
    ensures { result ≡ enters (seen page.entry) at.rung at.row at.column }
{
    let joint = joint(rung_at(page, at.rung), at.row, at.column);
    right_link(page, at.before()) && (joint == b'-' || joint == b'+')
}

/// Whether power can enter the group of joints on the left of a cell from the column before.
fn is_fed(page: PageView<'_, '_>, at: Place) -> bool
    requires { at.rung < length page.parts.now }
    ensures { IsTrue result ↔ IsFed (seen page.entry) at.rung at.row at.column }
{
    for row in 0..ROWS {
        if enters(page, at.in_row(row))
            && same_group(rung_at(page, at.rung), at.column, at.row, row)
        {
            return true;
        }
    }
    false
}

/// Whether a cell that needs power on its left can get none from the column before.
pub(crate) fn is_unfed(page: PageView<'_, '_>, at: Place) -> bool
    requires { at.rung < length page.parts.now }
    ensures { IsTrue result ↔ IsUnfed (seen page.entry) at.rung at.row at.column }
{
    let lines = rung_at(page, at.rung);
    if at.column == 0 || char_at(lines, 2 * at.row + 1, PITCH * at.column + 1) != b'-' {
        return false;
    }
    let joint = joint(lines, at.row, at.column);
    joint == b' ' || (joint == b'+' && !is_fed(page, at))
}
