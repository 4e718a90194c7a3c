//! What the page of a drawing has at a place of a rung.

ghost use Rattle.std.specs.Prelude.{◌≡◌, ◌<◌, ◌-◌, ◌==◌, if◌then◌else◌, map, length, Some, None};
ghost use Rattle.diagram_declarations.specs.declared.kind.BlockKind.{BlockKind};
ghost use Rattle.diagram_page.specs.declared.form.Form.TheVariants as form;
ghost use Rattle.diagram_page.specs.Seen.{seen};
ghost use Rattle.diagram_page.specs.Page.{labels_of, instance_at};
ghost use Rattle.diagram_reader.specs.Reading.{is_edge, cell_with, cell_drawn, site_drawn};

use crate::feeding::right_link;
use crate::page_check::target_of;
use diagram_declarations::{Name, Symbol};
use diagram_page::page::{form_at, instance_at, name_over, rung_at};
use diagram_page::picture::{joint, vertical};
use diagram_page::{Form, PageView};
use diagram_program::geometry::Place;
use diagram_program::{Cell, CoilMode, Joint, Mode, Operand, Site};

/// Whether a cell of this form is a contact or a coil that acts on an edge, which needs a memory.
pub(crate) fn is_edge(form: Option<Form>) -> bool
    ensures { result ≡ is_edge form }
{
    match form {
        Some(
            Form::Contact(Mode::Rising | Mode::Falling)
            | Form::Coil(CoilMode::Rising | CoilMode::Falling),
        ) => true,
        None
        | Some(
            Form::Empty
            | Form::Wire
            | Form::Contact(Mode::Plain | Mode::Negated)
            | Form::Coil(CoilMode::Store | CoilMode::Inverse | CoilMode::Set | CoilMode::Reset)
            | Form::Block(_)
            | Form::Lower(_, _)
            | Form::Jump(_)
            | Form::Return,
        ) => false,
    }
}

/// The cell of a contact under the name of a variable or an instance; the number of its place is its memory if it is an edge
/// contact.
fn contact_on(number: usize, mode: Mode, symbol: Symbol) -> Cell
    ensures { result ≡ cell_with number (Some (form.Contact mode)) (Some symbol) None None }
{
    let operand = match symbol {
        Symbol::Var(var) => Operand::Var(var),
        Symbol::Instance(inst) => Operand::Output(inst),
    };
    let memory = if is_edge(Some(Form::Contact(mode))) {
        Some(number)
    } else {
        None
    };
    Cell::Contact {
        mode,
        operand,
        memory,
    }
}

/// The cell of a coil under the name of a variable; the number of its place is its memory if it is an edge coil.
fn coil_on(number: usize, mode: CoilMode, symbol: Symbol) -> Cell
    ensures { result ≡ cell_with number (Some (form.Coil mode)) (Some symbol) None None }
{
    match symbol {
        Symbol::Var(var) => {
            let memory = if is_edge(Some(Form::Coil(mode))) {
                Some(number)
            } else {
                None
            };
            Cell::Coil { mode, var, memory }
        }
        Symbol::Instance(_) => Cell::Empty,
    }
}

/// The cell of a block under the name of an instance.
fn block_on(symbol: Symbol) -> Cell
    ensures { (kind : BlockKind) → result ≡ cell_with 0 (Some (form.Block kind)) (Some symbol) None None }
{
    match symbol {
        Symbol::Instance(inst) => Cell::Block { inst },
        Symbol::Var(_) => Cell::Empty,
    }
}

/// The instance whose block is in the row above, of which a lower cell is a part.
fn instance_above(page: PageView<'_, '_>, at: Place) -> Option<usize>
    requires { at.rung < length page.parts.now }
    ensures { result ≡ (if at.row == 0 then None else instance_at (seen page.entry) at.rung (at.row - 1) at.column) }
{
    if at.row == 0 {
        None
    } else {
        instance_at(page, at.in_row(at.row - 1))
    }
}

/// What is at a place; `number` is that of the next memory.
pub(crate) fn site_drawn(
    page: PageView<'_, '_>,
    labels: &[Option<Name>],
    number: usize,
    at: Place,
) -> Site
    requires rungs { at.rung < length page.parts.now }
    requires known { labels.now ≡ labels_of (map (λ l. l.now) page.lines.now) page.parts.now }
    ensures { result ≡ record (site_drawn (seen page.entry) at.rung at.row at.column) { cell = cell_drawn (seen page.entry) number at.rung at.row at.column } }
{
    let form = form_at(page, at);
    let name = name_over(page, at).map(|name| name.symbol);
    let above = instance_above(page, at);
    let target = target_of(labels, at.rung, &form);
    let lines = rung_at(page, at.rung);
    Site {
        right_link: right_link(page, at),
        vertical: vertical(lines, at.row, at.column),
        joint: match joint(lines, at.row, at.column) {
            b'-' => Joint::Dash,
            b'+' => Joint::Plus,
            b'|' => Joint::Bar,
            _ => Joint::Blank,
        },
        cell: match form {
            Some(Form::Wire) => Cell::Wire,
            Some(Form::Contact(mode)) => name.map_or(Cell::Empty, |x| contact_on(number, mode, x)),
            Some(Form::Coil(mode)) => name.map_or(Cell::Empty, |x| coil_on(number, mode, x)),
            Some(Form::Block(_)) => name.map_or(Cell::Empty, |x| block_on(x)),
            Some(Form::Lower(_, linked)) => {
                above.map_or(Cell::Empty, |inst| Cell::Lower { inst, linked })
            }
            Some(Form::Jump(_)) => match target {
                Some(target) => Cell::Jump { target },
                None => Cell::Empty,
            },
            Some(Form::Return) => Cell::Return,
            Some(Form::Empty) | None => Cell::Empty,
        },
    }
}
