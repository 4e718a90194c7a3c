//! Where the rungs of a program text are.

ghost use Rattle.std.specs.Prelude.{◌≡◌, ◌≢◌, ◌≤◌, drop, length, IfOk, IfErr};
ghost use Rattle.diagram_declarations.specs.Grammar.{HasNoDecls};
ghost use Rattle.diagram_declarations.specs.Rules.{BreaksOn};
ghost use Rattle.diagram_page.specs.Outline.{HasOutline, IsOnlyOutline};
ghost use Rattle.diagram_page.specs.ReadLines.{lines_of, parts_of};

use crate::lines::{Part, lines, parts, shown_text};
use diagram_declarations::{VarFault, VarRule, read_decls};
use std::alloc::{AllocError, Global};

/// Where END_VAR ends, and the rungs among the lines of what follows it, the rest of END_VAR's line being the first.
#[derive(Drop)]
pub struct Outline {
    pub place: usize,
    pub parts: Vec<Part>,
}

/// The parts of a drawing, from its text without comments.
fn rung_parts(alloc: Global, text: &[u8]) -> Result<Vec<Part>, AllocError>
    ensures { IfOk result (λ v. v.items ≡ parts_of (lines_of text.now)) }
{
    let shown = shown_text(alloc, text)?;
    let lines = lines(alloc, &shown.text)?;
    parts(alloc, &lines)
}

/// The text from a place on.
pub fn behind(text: &[u8], place: usize) -> &[u8]
    requires { place ≤ length text.now }
    ensures { result.now ≡ drop place text.now }
{
    &text[place..]
}

/// Where the rungs of a text are. No rule of the drawing is tested.
///
/// # Errors
///
/// A rule of the declarations that the text breaks, or V9 when out of memory.
pub fn outline_of(alloc: Global, text: &[u8]) -> Result<Outline, VarFault>
    ensures found { IfOk result (λ x. HasOutline text.now x.place x.parts.items) }
    ensures only { IfOk result (λ x. IsOnlyOutline text.now x.place x.parts.items) }
    // A text is refused for another reason than memory only where it has no declarations.
    ensures none { IfErr result (λ e. e.rule ≢ VarRule.Memory → HasNoDecls text.now) }
    ensures broken { IfErr result (λ e. BreaksOn e.rule text.now e.line) }
{
    let (_, place) = read_decls(alloc, text)?;
    match rung_parts(alloc, behind(text, place)) {
        Ok(parts) => Ok(Outline { place, parts }),
        Err(_) => Err(VarFault {
            rule: VarRule::Memory,
            line: 0,
        }),
    }
}
