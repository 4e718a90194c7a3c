//! The page that a drawing is read from, as the code holds it.

ghost use Rattle.std.specs.Prelude.{◌≡◌, ◌*◌, length, map, min, All};
ghost use Rattle.diagram_program.specs.declared.geometry.TheConstants.{RUNGS, PLACES};
ghost use Rattle.diagram_page.specs.ReadLines.{IsWithin};
ghost use Rattle.diagram_page.specs.Tables.{AreFirsts, HasBlock, overs_of};

use crate::form::Form;
use crate::lines::Part;
use crate::operand::NameOver;
use diagram_declarations::Decls;

/// What a drawing is read from: the lines after END_VAR, the rungs among them, each with its gap, the line where a comment
/// begins that never ends, what the cells are, what is written over them, and where each instance is drawn first.
#[derive(Clone, Copy)]
pub struct PageView<'a, 'b> {
    pub decls: &'a Decls,
    pub lines: &'a [&'b [u8]],
    pub unclosed: Option<usize>,
    pub parts: &'a [Part],
    pub forms: &'a [Option<Form>],
    pub overs: &'a [NameOver],
    pub firsts: &'a [Option<usize>],
    ghost within: { All (IsWithin (length lines.now)) parts.now },
    ghost told: { overs.now ≡ overs_of decls.now (map (λ l. l.now) lines.now) parts.now },
    ghost drawn: { AreFirsts (HasBlock decls.now forms.now overs.now) (length decls.now.instances) (PLACES * min (length parts.now) RUNGS) firsts.now },
}
