//! Records as a table.

ghost use Rattle.std.specs.Prelude.{◌≡◌, [], get_or, map};
ghost use Rattle.std.specs.List.{flat_map};
ghost use Rattle.csv.specs.Records.{fields_of};
ghost use Rattle.text_report.specs.Adding.{Adds};
ghost use Rattle.text_report.specs.Marks.{mark_in};
ghost use Rattle.text_report.specs.declared.marks.Mark.TheVariants.{Rule};
ghost use Rattle.text_report.specs.Report.{cell, heading_row, name_cell, record_row, rows_text, rules, tick};

use crate::escaping::add_text;
use crate::form::Form;
use crate::marks::{Mark, add_mark, mark_of};
use csv::ByteRecord;
use io_table::Table;

/// A field of a record; empty past the last one.
fn field(row: &ByteRecord, number: usize) -> &[u8]
    ensures { result.now ≡ get_or (fields_of row.now) number [] }
{
    match row.get(number) {
        Some(field) => field,
        None => &[],
    }
}

/// Adds what stands before the cells of a row, where rows are ticked.
fn add_tick(page: &mut Table<u8>, ticked: bool, mark: &[u8])
    ensures { Adds page.old page.new (tick ticked mark.now) }
{
    page.add(if ticked { mark } else { b"" });
}

/// Adds a name of the heading.
fn add_name(page: &mut Table<u8>, form: Form, name: &[u8])
    ensures { Adds page.old page.new (name_cell form name.now) }
{
    add_mark(page, form, Mark::NameBegin);
    add_text(page, form, name);
    add_mark(page, form, Mark::NameEnd);
}

/// Adds all names of the heading.
fn add_names(page: &mut Table<u8>, form: Form, row: &ByteRecord)
    ensures { Adds page.old page.new (flat_map (name_cell form) (fields_of row.now)) }
{
    for number in 0..row.len() {
        add_name(page, form, field(row, number));
    }
}

/// Adds a rule for each name of the heading.
fn add_name_rules(page: &mut Table<u8>, form: Form, row: &ByteRecord)
    ensures { Adds page.old page.new (flat_map (λ name. mark_in form Rule) (fields_of row.now)) }
{
    for _ in 0..row.len() {
        add_mark(page, form, Mark::Rule);
    }
}

/// Adds the rules below the heading.
fn add_rules(page: &mut Table<u8>, form: Form, ticked: bool, row: &ByteRecord)
    ensures { Adds page.old page.new (rules form ticked (fields_of row.now)) }
{
    add_mark(page, form, Mark::RulesBegin);
    add_tick(page, ticked, mark_of(form, Mark::Rule));
    add_name_rules(page, form, row);
    add_mark(page, form, Mark::RulesEnd);
}

/// Adds the heading.
fn add_heading_row(page: &mut Table<u8>, form: Form, ticked: bool, row: &ByteRecord)
    ensures { Adds page.old page.new (heading_row form ticked (fields_of row.now)) }
{
    add_mark(page, form, Mark::NamesBegin);
    add_tick(page, ticked, mark_of(form, Mark::NoName));
    add_names(page, form, row);
    add_mark(page, form, Mark::NamesEnd);
    add_rules(page, form, ticked, row);
}

/// Adds the cell of a field.
fn add_cell(page: &mut Table<u8>, form: Form, field: &[u8])
    ensures { Adds page.old page.new (cell form field.now) }
{
    add_mark(page, form, Mark::CellBegin);
    add_text(page, form, field);
    add_mark(page, form, Mark::CellEnd);
}

/// Adds the cells of a record.
fn add_cells(page: &mut Table<u8>, form: Form, row: &ByteRecord)
    ensures { Adds page.old page.new (flat_map (cell form) (fields_of row.now)) }
{
    for number in 0..row.len() {
        add_cell(page, form, field(row, number));
    }
}

/// Adds a record as a row.
fn add_row(page: &mut Table<u8>, form: Form, ticked: bool, row: &ByteRecord)
    ensures { Adds page.old page.new (record_row form ticked (fields_of row.now)) }
{
    add_mark(page, form, Mark::RowBegin);
    add_tick(page, ticked, mark_of(form, Mark::BoxCell));
    add_cells(page, form, row);
    add_mark(page, form, Mark::RowEnd);
}

/// Adds the rows of records.
fn add_body(page: &mut Table<u8>, form: Form, ticked: bool, rows: &[ByteRecord])
    ensures { Adds page.old page.new (flat_map (record_row form ticked) (map fields_of rows.now)) }
{
    for row in rows {
        add_row(page, form, ticked, row);
    }
}

/// Adds records, of which the first one is the heading.
pub(crate) fn add_rows(page: &mut Table<u8>, form: Form, ticked: bool, rows: &[ByteRecord])
    ensures { Adds page.old page.new (rows_text form ticked (map fields_of rows.now)) }
{
    match rows {
        [] => (),
        [names, rest @ ..] => {
            add_heading_row(page, form, ticked, names);
            add_body(page, form, ticked, rest);
        }
    }
}
