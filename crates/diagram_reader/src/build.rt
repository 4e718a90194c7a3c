//! Builds the program of a page on which no rule is broken.

ghost use Rattle.std.specs.Prelude.{◌≡◌, ◌≤◌, ◌<◌, ◌+◌, ◌^◌, if◌then◌else◌, map, length, IfOk, IfErr};
ghost use Rattle.diagram_program.specs.declared.geometry.TheConstants.{RUNGS};
ghost use Rattle.diagram_page.specs.ReadLines.{page_of};
ghost use Rattle.diagram_page.specs.Seen.{seen};
ghost use Rattle.diagram_page.specs.Page.{labels_of};
ghost use Rattle.diagram_program.specs.AllPlaces.{all_places};
ghost use Rattle.diagram_program.specs.Program.{drawing};
ghost use Rattle.diagram_reader.specs.Stops.{IsBrokenIn, IsSmall, IsNear};
ghost use Rattle.diagram_reader.specs.Reading.{is_edge, site_drawn, IsDrawn};

use crate::drawn::{is_edge, site_drawn};
use crate::firsts::firsts;
use crate::grid_rule::Stop;
use crate::page_check::check;
use diagram_declarations::{Decls, Name};
use diagram_page::lines::{lines, parts, shown_text};
use diagram_page::page::{form_at, forms, overs};
use diagram_page::{Form, PageView};
use diagram_program::geometry::{PLACES, Place, RUNGS};
use diagram_program::{Program, Site};
use std::alloc::{AllocError, Global};

/// The number for the next memory, after a cell of this form: edge contacts and edge coils take one.
fn after_memory(number: usize, form: Option<Form>) -> usize
    requires { number < 2 ^ 32 }
    ensures value { result ≡ number + (if is_edge form then 1 else 0) }
    ensures close { result ≤ number + 1 }
{
    if is_edge(form) { number + 1 } else { number }
}

/// The site at each place, by rung, column and row; memories are numbered in this order.
fn sites(
    alloc: Global,
    page: PageView<'_, '_>,
    labels: &[Option<Name>],
) -> Result<Vec<Site>, AllocError>
    requires few { length page.parts.now ≤ RUNGS }
    requires known { labels.now ≡ labels_of (map (λ l. l.now) page.lines.now) page.parts.now }
    ensures { IfOk result (λ v. v.items ≡ all_places (site_drawn (seen page.entry)) (length page.entry.parts.now)) }
{
    let mut sites = Vec::new(alloc);
    let mut next = 0;
    for n in 0..PLACES * page.parts.len() {
        let at = Place::from_number(n);
        sites.push(site_drawn(page, labels, next, at))?;
        next = after_memory(next, form_at(page, at));
    }
    Ok(sites)
}

/// The sites of a page, where no rule is broken on it.
fn checked_sites(alloc: Global, page: PageView<'_, '_>) -> Result<(usize, Vec<Site>), Stop>
    ensures found { IfOk result (λ x. IsDrawn (seen page.entry) (drawing page.entry.decls.now x.0 x.1.items)) }
    ensures broken { IfErr result (IsBrokenIn (seen page.entry)) }
    ensures near { IfErr result (IsNear (length page.entry.parts.now) (length page.entry.lines.now)) }
{
    let labels = check(alloc, page)?;
    let sites = sites(alloc, page, &labels)?;
    Ok((page.parts.len(), sites))
}

/// The sites of the drawing in a text, for these declarations.
pub(crate) fn read_sites(
    alloc: Global,
    decls: &Decls,
    text: &[u8],
) -> Result<(usize, Vec<Site>), Stop>
    ensures found { IfOk result (λ x. IsDrawn (page_of decls.now text.now) (drawing decls.now x.0 x.1.items)) }
    ensures broken { IfErr result (IsBrokenIn (page_of decls.now text.now)) }
    ensures small { IfErr result IsSmall }
{
    let shown = shown_text(alloc, text)?;
    let lines = lines(alloc, &shown.text)?;
    let parts = parts(alloc, &lines)?;
    let forms = forms(alloc, &lines, &parts)?;
    let overs = overs(alloc, decls, &lines, &parts)?;
    let rungs = parts.len().min(RUNGS);
    let firsts = firsts(alloc, decls, rungs, &forms, &overs)?;
    checked_sites(
        alloc,
        PageView {
            decls,
            lines: &lines,
            unclosed: shown.unclosed,
            parts: &parts,
            forms: &forms,
            overs: &overs,
            firsts: &firsts,
        },
    )
}

/// The program of the declarations and of the drawing after them.
pub(crate) fn read_drawing(alloc: Global, decls: Decls, text: &[u8]) -> Result<Program, Stop>
    ensures found { IfOk result (λ p. IsDrawn (page_of decls text.now) p) }
    ensures broken { IfErr result (IsBrokenIn (page_of decls text.now)) }
    ensures small { IfErr result IsSmall }
{
    let (rungs, sites) = read_sites(alloc, &decls, text)?;
    let program = Program::new(alloc, decls, rungs, sites)?;
    Ok(program)
}
