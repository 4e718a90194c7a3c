//! The parts of a report.

ghost use Rattle.text_report.specs.Adding.{Adds};
ghost use Rattle.text_report.specs.Report.{body_text, part_text};

use crate::escaping::{add_placed_text, add_text};
use crate::form::Form;
use crate::marks::{Mark, add_mark};
use crate::table::add_rows;
use csv::ByteRecord;
use io_table::Table;

/// What stands in a part below what is said of it.
#[derive(Clone, Copy)]
pub enum Body<'a> {
    /// A text whose characters have their places.
    Text(&'a [u8]),
    /// Records, of which the first one is the heading.
    Records {
        rows: &'a [ByteRecord],
        /// Whether there is a box to tick before each other one.
        ticked: bool,
    },
}

/// A part of a report.
#[derive(Clone, Copy)]
pub struct Part<'a> {
    /// Its heading.
    pub heading: &'a [u8],
    /// What is said of it.
    pub sentence: &'a [u8],
    pub body: Body<'a>,
}

/// Adds the body of a part.
fn add_body(page: &mut Table<u8>, form: Form, body: Body<'_>)
    ensures { Adds page.old page.new (body_text form body.entry) }
{
    match body {
        Body::Text(text) => {
            add_mark(page, form, Mark::TextBegin);
            add_placed_text(page, form, text);
            add_mark(page, form, Mark::TextEnd);
        }
        Body::Records { rows, ticked } => {
            add_mark(page, form, Mark::TableBegin);
            add_rows(page, form, ticked, rows);
            add_mark(page, form, Mark::TableEnd);
        }
    }
}

/// Adds a part to a report.
pub fn add_part(page: &mut Table<u8>, form: Form, part: Part<'_>)
    ensures { Adds page.old page.new (part_text form part.entry) }
{
    add_mark(page, form, Mark::HeadingBegin);
    add_text(page, form, part.heading);
    add_mark(page, form, Mark::HeadingEnd);
    add_text(page, form, part.sentence);
    add_mark(page, form, Mark::SentenceEnd);
    add_body(page, form, part.body);
    add_mark(page, form, Mark::PartEnd);
}
