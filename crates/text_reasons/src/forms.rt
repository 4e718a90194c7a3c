//! G3: the forms of a cell that differ least from what is drawn.

ghost use Rattle.std.specs.Prelude.{◌≡◌, ◌<◌, ◌≤◌, ◌+◌, ◌==◌, [], IfSome, Some, if◌then◌else◌, slice_index_or};
ghost use Rattle.io_text.specs.Buffer.{Sends};
ghost use Rattle.text_reasons.specs.Forms.{apart, differing, first_near, form_text, forms_at, is_beside, least, near_from, nearest_text, next_near, quotes, strips, told, told_text, wholes};
ghost use Rattle.text_reasons.specs.declared.forms.TheConstants.{FORMS, STRIPS, WHOLE};

use crate::blocks::{behind, cut};
use crate::joints::byte_at;
use io_text::{Piece, Sink, TextBuffer, WriteFault, add_pieces};

/// How many cells are spelled in one way.
const WHOLE: usize = 14;

/// How many symbols there are, each with both fillers.
const STRIPS: usize = 20;

/// How many dashes can be before a symbol.
const OFFSETS: usize = 8;

/// How many forms there are.
const FORMS: usize = WHOLE + STRIPS * OFFSETS;

/// The cells that are spelled in one way.
const WHOLE_CELLS: [&[u8]; WHOLE] = [
    b"-----------",
    b"-|IN TON Q|",
    b"-|IN TOF Q|",
    b"-|IN TP  Q|",
    b"-|CU CTU Q|",
    b"-|CD CTD Q|",
    b"-|S1 SR Q1|",
    b"-|S  RS Q1|",
    b"-|R       |",
    b" |R       |",
    b"-|LD      |",
    b" |LD      |",
    b"-|R1      |",
    b" |R1      |",
];

/// The symbols between dashes, and with spaces behind them.
const SYMBOLS: [&[u8]; STRIPS] = [
    b"--------| |-------",
    b"--------|/|-------",
    b"--------|P|-------",
    b"--------|N|-------",
    b"--------( )-------",
    b"--------(/)-------",
    b"--------(S)-------",
    b"--------(R)-------",
    b"--------(P)-------",
    b"--------(N)-------",
    b"--------| |       ",
    b"--------|/|       ",
    b"--------|P|       ",
    b"--------|N|       ",
    b"--------( )       ",
    b"--------(/)       ",
    b"--------(S)       ",
    b"--------(R)       ",
    b"--------(P)       ",
    b"--------(N)       ",
];

/// A cell that is spelled in one way.
fn whole_cell(n: usize) -> &'static [u8]
    requires { n < WHOLE }
    ensures { result.now ≡ slice_index_or wholes n [] }
{
    WHOLE_CELLS[n]
}

/// A symbol between dashes, or with spaces behind it.
fn strip(n: usize) -> &'static [u8]
    requires { n < STRIPS }
    ensures { result.now ≡ slice_index_or strips n [] }
{
    SYMBOLS[n]
}

/// A form of a cell.
fn form_text(n: usize) -> &'static [u8]
    requires { n < FORMS }
    ensures { result.now ≡ form_text n }
{
    if n < WHOLE {
        whole_cell(n)
    } else {
        let at = n - WHOLE;
        cut(strip(at / OFFSETS), at % OFFSETS)
    }
}

/// In how many characters of a form a cell has another one.
fn differing(cell: &[u8], form: &[u8]) -> usize
    ensures value { result ≡ differing cell.now form.now }
{
    let mut cell_left = cell;
    let mut form_left = form;
    let mut count = 0;
    while let [f, more @ ..] = form_left {
        count += other(byte_at(cell_left, 0), *f);
        cell_left = behind(cell_left, 1);
        form_left = more;
    }
    count
}

/// 1 for two characters that aren't the same.
fn other(a: u8, b: u8) -> usize
    ensures { result ≡ (if a == b then 0 else 1) }
{
    if a == b { 0 } else { 1 }
}

/// Whether a cell is the form one or two places too far left, or one too far right.
fn is_beside(cell: &[u8], form: &[u8]) -> bool
    ensures { result ≡ is_beside cell.now form.now }
{
    differing(cell, behind(form, 1)) == 0
        || differing(cell, behind(form, 2)) == 0
        || differing(form, behind(cell, 1)) == 0
}

/// How far a cell is from a form: in how many characters it differs, and 4 or 5 where these are more than three.
fn apart(cell: &[u8], form: &[u8]) -> usize
    ensures { result ≡ apart cell.now form.now }
{
    let count = differing(cell, form);
    if count <= 3 {
        count
    } else if is_beside(cell, form) {
        4
    } else {
        5
    }
}

/// The first of so many forms, from this one on, that differs in so many characters.
fn near_from(cell: &[u8], distance: usize, from: usize, count: usize) -> Option<usize>
    requires { from + count ≤ FORMS }
    ensures value { result ≡ near_from cell.now distance from count }
    ensures within { IfSome result (λ n. n < FORMS) }
{
    let mut n = from;
    let mut left = count;
    while left > 0 {
        if apart(cell, form_text(n)) == distance {
            return Some(n);
        }
        n += 1;
        left -= 1;
    }
    None
}

/// The first of all forms that differs in so many characters.
#[tactic(auto, unfolding(crate::specs::Forms::first_near))]
fn first_near(cell: &[u8], distance: usize) -> Option<usize>
    ensures value { result ≡ first_near cell.now distance }
    ensures within { IfSome result (λ n. n < FORMS) }
{
    near_from(cell, distance, 0, FORMS)
}

/// The next one behind a form.
fn next_near(cell: &[u8], distance: usize, form: Option<usize>) -> Option<usize>
    requires { IfSome form (λ n. n < FORMS) }
    ensures value { result ≡ next_near cell.now distance form }
    ensures within { IfSome result (λ n. n < FORMS) }
{
    match form {
        Some(n) => near_from(cell, distance, n + 1, FORMS - (n + 1)),
        None => None,
    }
}

/// How far the nearest form is.
fn least(cell: &[u8]) -> usize
    ensures { result ≡ least cell.now }
{
    if first_near(cell, 1).is_some() {
        1
    } else if first_near(cell, 2).is_some() {
        2
    } else if first_near(cell, 3).is_some() {
        3
    } else {
        4
    }
}

/// What stands between a form that is told and the one before it.
fn quotes(form: Option<usize>) -> &'static [u8]
    ensures { result.now ≡ quotes form }
{
    match form {
        Some(_) => b"\" \"",
        None => b"",
    }
}

/// The characters of a form that is told.
fn told(form: Option<usize>) -> &'static [u8]
    requires { IfSome form (λ n. n < FORMS) }
    ensures { result.now ≡ told form }
{
    match form {
        Some(n) => form_text(n),
        None => b"",
    }
}

/// Adds up to three forms.
fn add_told<W: Sink>(
    buffer: &mut TextBuffer,
    first: usize,
    second: Option<usize>,
    third: Option<usize>,
    writer: &mut W,
) -> Result<(), WriteFault>
    requires first { first < FORMS }
    requires second { IfSome second (λ n. n < FORMS) }
    requires third { IfSome third (λ n. n < FORMS) }
    ensures { Sends (W.log writer.old) (W.log writer.new) buffer.old buffer.new result (told_text first second third) }
{
    let pieces = [
        Piece::Text(b"nearest forms: \""),
        Piece::Text(form_text(first)),
        Piece::Text(quotes(second)),
        Piece::Text(told(second)),
        Piece::Text(quotes(third)),
        Piece::Text(told(third)),
        Piece::Text(b"\"\n"),
    ];
    add_pieces(buffer, pieces.as_slice(), writer)
}

/// Adds the first three forms that differ in so many characters.
fn add_forms<W: Sink>(
    buffer: &mut TextBuffer,
    cell: &[u8],
    distance: usize,
    first: usize,
    writer: &mut W,
) -> Result<(), WriteFault>
    requires { first < FORMS }
    ensures { Sends (W.log writer.old) (W.log writer.new) buffer.old buffer.new result (forms_at cell.now distance (Some first)) }
{
    let second = next_near(cell, distance, Some(first));
    let third = next_near(cell, distance, second);
    add_told(buffer, first, second, third, writer)
}

/// Adds the forms that differ least from a cell.
pub(crate) fn add_nearest<W: Sink>(
    buffer: &mut TextBuffer,
    cell: &[u8],
    writer: &mut W,
) -> Result<(), WriteFault>
    ensures { Sends (W.log writer.old) (W.log writer.new) buffer.old buffer.new result (nearest_text cell.now) }
{
    let distance = least(cell);
    match first_near(cell, distance) {
        Some(first) => add_forms(buffer, cell, distance, first, writer),
        None => Ok(()),
    }
}
