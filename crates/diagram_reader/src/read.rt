//! Reads a program from a text.

ghost use Rattle.std.specs.Prelude.{ℕ, ◌≡◌, ◌<◌, ◌≤◌, ◌+◌, ◌^◌, ◌==◌, length, drop, IfOk, IfErr};
ghost use Rattle.diagram_reader.specs.Stops.{IsSmall};
ghost use Rattle.diagram_declarations.specs.declared.fault.VarRule.TheVariants.{Memory};
ghost use Rattle.diagram_reader.specs.declared.grid_rule.Rule.{Rule};
ghost use Rattle.diagram_reader.specs.declared.grid_rule.Stop.TheVariants.{NoMemory, Broken};
ghost use Rattle.diagram_reader.specs.declared.fault.GridFault.TheVariants.{Vars};
ghost use Rattle.diagram_program.specs.Program.{Drawing};
ghost use Rattle.diagram_page.specs.Lines.{line_feeds};
ghost use Rattle.diagram_reader.specs.Reading.{fault_with, IsProgram, IsMemory, IsRight};

use crate::build::read_drawing;
use crate::fault::GridFault;
use crate::grid_rule::{Rule, Stop};
use diagram_declarations::{VarFault, VarRule, read_decls};
use diagram_program::Program;
use std::alloc::Global;

/// The number of a line that is counted from the end of a text, whose own lines are counted before it.
fn line_behind(text: &[u8], line: usize) -> usize
    requires few { length text.now + line + 1 < 2 ^ 64 }
    ensures { result ≡ line_feeds text.now + line + 1 }
{
    text.iter().filter(|b| **b == b'\n').count() + line + 1
}

/// How a fault of the drawing is reported; `place` is where END_VAR ends.
pub(crate) fn fault_of(text: &[u8], place: usize, stop: Stop) -> GridFault
    requires within { place ≤ length text.now }
    requires small { IsSmall stop }
    ensures memory { stop ≡ NoMemory → result ≡ Vars (record { rule = Memory; line = 0 }) }
    ensures broken { (r : Rule) (rung line : ℕ) → stop ≡ Broken r rung line → result ≡ fault_with text.now place r rung line }
{
    match stop {
        Stop::NoMemory => GridFault::Vars(VarFault {
            rule: VarRule::Memory,
            line: 0,
        }),
        Stop::Broken { rule, rung, line } => {
            let line = line_behind(&text[..place], line);
            match rule {
                Rule::BadByte => GridFault::Vars(VarFault {
                    rule: VarRule::BadByte,
                    line,
                }),
                Rule::Unfinished => GridFault::Vars(VarFault {
                    rule: VarRule::Unfinished,
                    line: line_behind(text, 0),
                }),
                Rule::Grid(rule) => GridFault::Grid {
                    rule,
                    rung: rung + 1,
                    line,
                },
            }
        }
    }
}

/// The text from a place on.
pub(crate) fn behind(text: &[u8], place: usize) -> &[u8]
    requires { place ≤ length text.now }
    ensures { result.now ≡ drop place text.now }
{
    &text[place..]
}

/// Reads the program of a text.
///
/// The declarations are read first. Then each rung follows in order: the gap lines before it, line by line (V1, V8, G13), G15,
/// and its own rules in the order V1, G2, G1, G3 to G12, G14, each over the whole rung. Last come the gap after the last rung
/// and the targets of jumps (G13).
///
/// # Errors
///
/// The first rule that the text breaks in this order, with its line, and for a rule of the drawing its rung; or V9 when out
/// of memory.
pub fn read_program(alloc: Global, text: &[u8]) -> Result<Program, GridFault>
    ensures found { IfOk result (λ p. IsProgram text.now p) }
    // A text is refused for another reason than memory only where it is no program.
    ensures none { IfErr result (λ e. ¬ (IsMemory e) → (d : Drawing) → IsProgram text.now d → ⊥) }
    ensures broken { IfErr result (IsRight text.now) }
    // No text is two programs.
    ensures only { IfOk result (λ p. (d : Drawing) → IsProgram text.now d → d ≡ p) }
{
    let (decls, place) = match read_decls(alloc, text) {
        Ok(read) => read,
        Err(fault) => return Err(GridFault::Vars(fault)),
    };
    match read_drawing(alloc, decls, behind(text, place)) {
        Ok(program) => Ok(program),
        Err(stop) => Err(fault_of(text, place, stop)),
    }
}
