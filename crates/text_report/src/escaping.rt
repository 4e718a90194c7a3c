//! Texts in which each character stands for itself.

ghost use Rattle.std.specs.Prelude.{◌≡◌, ◌∷◌, []};
ghost use Rattle.text_report.specs.Adding.{Adds};
ghost use Rattle.text_report.specs.Report.{escaped, escaped_in_markdown, escaped_in_page, escaped_text, is_sign, placed, placed_text};

use crate::form::Form;
use io_table::Table;

/// Adds one byte.
fn add_byte(page: &mut Table<u8>, b: u8)
    ensures { Adds page.old page.new (b ∷ []) }
{
    page.push(b);
}

/// Adds a character of a page.
fn add_in_page(page: &mut Table<u8>, b: u8)
    ensures { Adds page.old page.new (escaped_in_page b) }
{
    match b {
        b'&' => page.add(b"&amp;"),
        b'<' => page.add(b"&lt;"),
        b'>' => page.add(b"&gt;"),
        b'"' => page.add(b"&quot;"),
        _ => add_byte(page, b),
    }
}

/// Whether the character means something in Markdown.
fn is_sign(b: u8) -> bool
    ensures { result ≡ is_sign b }
{
    matches!(
        b,
        b'\\' | b'`' | b'*' | b'_' | b'<' | b'>' | b'[' | b']' | b'|' | b'&' | b'#' | b'~'
    )
}

/// Adds a character of Markdown.
fn add_in_markdown(page: &mut Table<u8>, b: u8)
    ensures { Adds page.old page.new (escaped_in_markdown b) }
{
    if is_sign(b) {
        let both = [b'\\', b];
        return page.add(both.as_slice());
    }
    add_byte(page, b);
}

/// Adds a character that stands for itself.
fn add_escaped(page: &mut Table<u8>, form: Form, b: u8)
    ensures { Adds page.old page.new (escaped form b) }
{
    match form {
        Form::Page => add_in_page(page, b),
        Form::Markdown => add_in_markdown(page, b),
    }
}

/// Adds a text in which each character stands for itself.
pub(crate) fn add_text(page: &mut Table<u8>, form: Form, text: &[u8])
    ensures { Adds page.old page.new (escaped_text form text.now) }
{
    for b in text {
        add_escaped(page, form, *b);
    }
}

/// Adds a character that has its place.
fn add_placed(page: &mut Table<u8>, form: Form, b: u8)
    ensures { Adds page.old page.new (placed form b) }
{
    match form {
        Form::Page => add_in_page(page, b),
        Form::Markdown if b == b'\n' => page.add(b"\n    "),
        Form::Markdown => add_byte(page, b),
    }
}

/// Adds a text whose characters have their places.
pub(crate) fn add_placed_text(page: &mut Table<u8>, form: Form, text: &[u8])
    ensures { Adds page.old page.new (placed_text form text.now) }
{
    for b in text {
        add_placed(page, form, *b);
    }
}
