//! In which column of its line a rule is broken.

ghost use Rattle.std.specs.Prelude.{◌≡◌, ◌/◌, ◌≤◌, ◌==◌, count_by, length, IfOk, IfSome};
ghost use Rattle.diagram_reader.specs.Columns.{IsColumnIn, IsColumnOf};
ghost use Rattle.diagram_program.specs.Bytes.{line_feed};
ghost use Rattle.diagram_page.specs.Picture.{half_line};
ghost use Rattle.diagram_page.specs.ReadLines.{page_of};
ghost use Rattle.diagram_page.specs.Seen.{seen};

use crate::firsts::firsts;
use crate::grid_rule::GridRule;
use crate::rules::broken_column;
use diagram_declarations::{Decls, read_decls};
use diagram_page::lines::{lines, parts, shown_text};
use diagram_page::outline::behind;
use diagram_page::page::{forms, overs, part_at};
use diagram_page::{Half, PageView};
use diagram_program::geometry::{LINES, RUNGS};
use std::alloc::{AllocError, Global};

/// Which half of its row a line of a rung is: the name line or the wire line.
fn half_of(line: usize) -> Half
    ensures { half_line (line / 2) result ≡ line }
{
    if line % 2 == 0 {
        Half::Name
    } else {
        Half::Wire
    }
}

/// The first column in which a rung breaks the rule on this line of the page.
fn column_in(page: PageView<'_, '_>, rule: GridRule, rung: usize, line: usize) -> Option<usize>
    ensures { IfSome result (IsColumnIn (seen page.entry) rule rung line) }
{
    if rung >= page.parts.len() || rung >= RUNGS {
        return None;
    }
    let start = part_at(page, rung).start;
    if line < start || line - start >= LINES {
        return None;
    }
    let at = line - start;
    broken_column(rule, page, rung, at / 2, half_of(at))
}

/// The first column in which a rung breaks the rule, on the page that the text after END_VAR is.
fn column_after(
    alloc: Global,
    decls: &Decls,
    text: &[u8],
    rule: GridRule,
    rung: usize,
    line: usize,
) -> Result<Option<usize>, AllocError>
    ensures { IfOk result (λ found. IfSome found (IsColumnIn (page_of decls.now text.now) rule rung line)) }
{
    let shown = shown_text(alloc, text)?;
    let lines = lines(alloc, &shown.text)?;
    let parts = parts(alloc, &lines)?;
    let forms = forms(alloc, &lines, &parts)?;
    let overs = overs(alloc, decls, &lines, &parts)?;
    let firsts = firsts(alloc, decls, parts.len().min(RUNGS), &forms, &overs)?;
    let page = PageView {
        decls,
        lines: &lines,
        unclosed: shown.unclosed,
        parts: &parts,
        forms: &forms,
        overs: &overs,
        firsts: &firsts,
    };
    Ok(column_in(page, rule, rung, line))
}

/// How many line ends a text has.
fn line_feeds(text: &[u8]) -> usize
    ensures value { result ≡ count_by (λ b. b == line_feed) text.now }
    ensures few { result ≤ length text.now }
{
    text.iter().filter(|b| **b == b'\n').count()
}

/// The first column in which the rule is broken on a line of the text, with the rung and the line as a fault has them. None where the rule
/// isn't one of places, where it isn't broken there, or when out of memory.
pub fn column_of(
    alloc: Global,
    text: &[u8],
    rule: GridRule,
    rung: usize,
    line: usize,
) -> Option<usize>
    ensures { IfSome result (IsColumnOf text.now rule rung line) }
{
    let Ok((decls, place)) = read_decls(alloc, text) else {
        return None;
    };
    let before = line_feeds(&text[..place]);
    if rung == 0 || line <= before {
        return None;
    }
    match column_after(
        alloc,
        &decls,
        behind(text, place),
        rule,
        rung - 1,
        line - before - 1,
    ) {
        Ok(column) => column,
        Err(_) => None,
    }
}
