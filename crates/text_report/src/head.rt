//! The head of a report, and its end.

ghost use Rattle.text_report.specs.Adding.{Adds};
ghost use Rattle.text_report.specs.Report.{fact_text, facts_end, head_text, is_plain, margin, margins, markdown_title, page_title, quoted, quoted_text, tail_text, title_text};
ghost use Rattle.std.specs.Prelude.{◌≡◌};

use crate::escaping::add_text;
use crate::form::Form;
use crate::marks::{Mark, add_mark};
use io_table::Table;

/// What begins a page, up to its title.
const PAGE_OPENING: &[u8] = b"<!DOCTYPE html>
<html lang=en>
<meta charset=utf-8>
<meta name=viewport content=\"width=device-width,initial-scale=1\">
<title>";

/// The end of the title, and the style. On paper no row, and no text that fits on a sheet, is cut in two, a heading stands with what follows it,
/// and that of a table is repeated.
const PAGE_STYLE: &[u8] = b"</title>
<style>
:root{color-scheme:light}
body{margin:1.5em auto;padding:0 1em;max-width:60em;background:#fff;color:#1b1f24;font:1em/1.45 system-ui,sans-serif}
h1{margin:0 0 .6em;font-size:1.6em;overflow-wrap:anywhere}
h2{margin:1.6em 0 .4em;font-size:1.15em;break-after:avoid;overflow-wrap:anywhere}
p{margin:0 0 .6em;break-after:avoid}
dl{display:grid;grid-template-columns:max-content 1fr;gap:.2em 1.2em;margin:0}
dt{font-weight:600}
dd{margin:0;overflow-wrap:anywhere}
pre{margin:0;padding:.6em 0;font:.85em/1.35 ui-monospace,\"DejaVu Sans Mono\",Consolas,monospace;overflow-x:auto}
table{border-collapse:collapse;font-size:.92em}
th,td{padding:.2em .6em;border:1px solid #aab2ba;text-align:left;vertical-align:top;font-variant-numeric:tabular-nums}
th{background:#eef1f4;font-weight:600}
td.box{width:1.1em;padding:.2em .5em}
td.box::before{content:\"\";display:inline-block;width:.9em;height:.9em;border:1.5px solid #1b1f24;vertical-align:-.1em}
.sign td{height:2.2em;min-width:12em}
@page{margin:2cm 1.5cm;size:auto}
@media print{body{margin:0;padding:0;max-width:none;font-size:10pt}tr{break-inside:avoid}thead{display:table-header-group}th{-webkit-print-color-adjust:exact;print-color-adjust:exact}pre{font-size:min(8.5pt,1.3vw);white-space:pre-wrap;overflow:visible;break-inside:avoid}}
";

/// The end of a page: lines to sign.
const PAGE_TAIL: &[u8] = b"<section class=sign>
<h2>Signatures</h2>
<table>
<thead><tr><th></th><th>Name</th><th>Date</th><th>Signature</th></tr></thead>
<tr><th>Tested by</th><td></td><td></td><td></td></tr>
<tr><th>Accepted by</th><td></td><td></td><td></td></tr>
</table>
</section>
</html>
";

/// The same in Markdown.
const MARKDOWN_TAIL: &[u8] = b"## Signatures

| | Name | Date | Signature |
|---|---|---|---|
| Tested by | | | |
| Accepted by | | | |
";

/// The head of a report.
#[derive(Clone, Copy)]
pub struct Head<'a> {
    /// Its title.
    pub title: &'a [u8],
    /// The file of the program.
    pub file: &'a [u8],
    /// The digest of its text.
    pub digest: &'a [u8],
    /// The program that writes the report.
    pub writer: &'a [u8],
}

/// Whether the character stands for itself in a style.
fn is_plain(b: u8) -> bool
    ensures { result ≡ is_plain b }
{
    matches!(b, b'0'..=b'9' | b'A'..=b'Z' | b'a'..=b'z' | 128..=255)
}

/// Adds a character of a style.
fn add_quoted(page: &mut Table<u8>, b: u8)
    ensures { Adds page.old page.new (quoted b) }
{
    if is_plain(b) {
        return page.push(b);
    }
    let both = [b'\\', b];
    page.add(both.as_slice());
}

/// Adds a text in a style.
fn add_quoted_text(page: &mut Table<u8>, text: &[u8])
    ensures { Adds page.old page.new (quoted_text text.now) }
{
    for b in text {
        add_quoted(page, *b);
    }
}

/// Adds what stands at a margin of each sheet: a text, with a word before it.
fn add_margin(page: &mut Table<u8>, place: &[u8], word: &[u8], text: &[u8])
    ensures { Adds page.old page.new (margin place.now word.now text.now) }
{
    page.add(b"@");
    page.add(place);
    page.add(b"{content:\"");
    page.add(word);
    add_quoted_text(page, text);
    page.add(b"\"}");
}

/// Adds what stands at the margins.
fn add_margins(page: &mut Table<u8>, head: Head<'_>)
    ensures { Adds page.old page.new (margins head.entry) }
{
    page.add(b"@page{");
    add_margin(page, b"top-left", b"", head.file);
    add_margin(page, b"top-right", b"", head.writer);
    add_margin(page, b"bottom-left", b"sha256 ", head.digest);
    page.add(b"@bottom-right{content:counter(page) \" of \" counter(pages)}}\n</style>\n");
}

/// Adds the title of a page, and its style.
#[tactic(auto, unfolding(crate::specs::Report::page_opening, crate::specs::Report::page_style))]
fn add_page_title(page: &mut Table<u8>, head: Head<'_>)
    ensures { Adds page.old page.new (page_title head.entry) }
{
    page.add(PAGE_OPENING);
    add_text(page, Form::Page, head.title);
    page.add(PAGE_STYLE);
    add_margins(page, head);
    page.add(b"<h1>");
    add_text(page, Form::Page, head.title);
    page.add(b"</h1>\n");
}

/// Adds the title of a text in Markdown.
fn add_markdown_title(page: &mut Table<u8>, title: &[u8])
    ensures { Adds page.old page.new (markdown_title title.now) }
{
    page.add(b"# ");
    add_text(page, Form::Markdown, title);
    page.add(b"\n\n");
}

/// Adds the title.
fn add_title(page: &mut Table<u8>, form: Form, head: Head<'_>)
    ensures { Adds page.old page.new (title_text form head.entry) }
{
    match form {
        Form::Page => add_page_title(page, head),
        Form::Markdown => add_markdown_title(page, head.title),
    }
}

/// Begins a report: its title, and what comes before its facts.
pub fn add_head(page: &mut Table<u8>, form: Form, head: Head<'_>)
    ensures { Adds page.old page.new (head_text form head.entry) }
{
    add_title(page, form, head);
    add_mark(page, form, Mark::FactsBegin);
}

/// Adds a fact: its name, and what it is.
pub fn add_fact(page: &mut Table<u8>, form: Form, name: &[u8], value: &[u8])
    ensures { Adds page.old page.new (fact_text form name.now value.now) }
{
    add_mark(page, form, Mark::FactBegin);
    add_text(page, form, name);
    add_mark(page, form, Mark::FactMiddle);
    add_text(page, form, value);
    add_mark(page, form, Mark::FactEnd);
}

/// Ends the facts.
pub fn end_facts(page: &mut Table<u8>, form: Form)
    ensures { Adds page.old page.new (facts_end form) }
{
    add_mark(page, form, Mark::FactsEnd);
}

/// Ends a report.
#[tactic(auto, unfolding(crate::specs::Report::page_tail, crate::specs::Report::markdown_tail))]
pub fn add_tail(page: &mut Table<u8>, form: Form)
    ensures { Adds page.old page.new (tail_text form) }
{
    match form {
        Form::Page => page.add(PAGE_TAIL),
        Form::Markdown => page.add(MARKDOWN_TAIL),
    }
}
