//! What stands around the parts of a report and of a table, in each form.

ghost use Rattle.std.specs.Prelude.{◌≡◌};
ghost use Rattle.text_report.specs.Adding.{Adds};
ghost use Rattle.text_report.specs.Marks.{in_markdown, in_page, mark_in};

use crate::form::Form;
use io_table::Table;

/// What stands around something.
#[derive(Clone, Copy)]
pub(crate) enum Mark {
    /// Before the heading of a part.
    HeadingBegin,
    /// Between it and what is said of the part.
    HeadingEnd,
    /// Between that and the part's body.
    SentenceEnd,
    /// After the body.
    PartEnd,
    /// Before the first fact.
    FactsBegin,
    /// Before the name of a fact.
    FactBegin,
    /// Between the name of a fact and what it is.
    FactMiddle,
    /// After what a fact is.
    FactEnd,
    /// After the last fact.
    FactsEnd,
    /// Before a text whose characters have their places.
    TextBegin,
    /// After it.
    TextEnd,
    /// Before a table.
    TableBegin,
    /// After it.
    TableEnd,
    /// Before a row of a table.
    RowBegin,
    /// After it.
    RowEnd,
    /// Before the heading of a table.
    NamesBegin,
    /// After it.
    NamesEnd,
    /// Before a name in the heading of a table.
    NameBegin,
    /// After it.
    NameEnd,
    /// In the heading, above the boxes.
    NoName,
    /// Before the rules below the heading.
    RulesBegin,
    /// A rule below a name.
    Rule,
    /// After the rules.
    RulesEnd,
    /// Before a field.
    CellBegin,
    /// After it.
    CellEnd,
    /// A box to tick.
    BoxCell,
}

/// A mark in HTML.
#[tactic(auto, unfolding(crate::specs::Marks::in_page))]
fn in_page(mark: Mark) -> &'static [u8]
    ensures { result.now ≡ in_page mark }
{
    match mark {
        Mark::HeadingBegin => b"<section>\n<h2>",
        Mark::HeadingEnd => b"</h2>\n<p>",
        Mark::SentenceEnd => b"</p>\n",
        Mark::PartEnd => b"</section>\n",
        Mark::FactsBegin => b"<dl>\n",
        Mark::FactBegin => b"<dt>",
        Mark::FactMiddle => b"</dt><dd>",
        Mark::FactEnd => b"</dd>\n",
        Mark::FactsEnd => b"</dl>\n",
        Mark::TextBegin => b"<pre>\n",
        Mark::TextEnd => b"</pre>\n",
        Mark::TableBegin => b"<table>\n",
        Mark::TableEnd => b"</table>\n",
        Mark::RowBegin => b"<tr>",
        Mark::RowEnd => b"</tr>\n",
        Mark::NamesBegin => b"<thead><tr>",
        Mark::NamesEnd => b"</tr></thead>\n",
        Mark::NameBegin => b"<th>",
        Mark::NameEnd => b"</th>",
        Mark::NoName => b"<th></th>",
        Mark::RulesBegin => b"",
        Mark::Rule => b"",
        Mark::RulesEnd => b"",
        Mark::CellBegin => b"<td>",
        Mark::CellEnd => b"</td>",
        Mark::BoxCell => b"<td class=box></td>",
    }
}

/// A mark in Markdown.
#[tactic(auto, unfolding(crate::specs::Marks::in_markdown))]
fn in_markdown(mark: Mark) -> &'static [u8]
    ensures { result.now ≡ in_markdown mark }
{
    match mark {
        Mark::HeadingBegin => b"## ",
        Mark::HeadingEnd => b"\n\n",
        Mark::SentenceEnd => b"\n\n",
        Mark::PartEnd => b"\n",
        Mark::FactsBegin => b"",
        Mark::FactBegin => b"- ",
        Mark::FactMiddle => b": ",
        Mark::FactEnd => b"\n",
        Mark::FactsEnd => b"\n",
        Mark::TextBegin => b"    ",
        Mark::TextEnd => b"\n",
        Mark::TableBegin => b"",
        Mark::TableEnd => b"",
        Mark::RowBegin => b"|",
        Mark::RowEnd => b"\n",
        Mark::NamesBegin => b"|",
        Mark::NamesEnd => b"\n",
        Mark::NameBegin => b" ",
        Mark::NameEnd => b" |",
        Mark::NoName => b"   |",
        Mark::RulesBegin => b"|",
        Mark::Rule => b"---|",
        Mark::RulesEnd => b"\n",
        Mark::CellBegin => b" ",
        Mark::CellEnd => b" |",
        Mark::BoxCell => b" \\[ \\] |",
    }
}

/// A mark in a form.
pub(crate) fn mark_of(form: Form, mark: Mark) -> &'static [u8]
    ensures { result.now ≡ mark_in form mark }
{
    match form {
        Form::Page => in_page(mark),
        Form::Markdown => in_markdown(mark),
    }
}

/// Adds a mark.
pub(crate) fn add_mark(page: &mut Table<u8>, form: Form, mark: Mark)
    ensures { Adds page.old page.new (mark_in form mark) }
{
    page.add(mark_of(form, mark));
}
