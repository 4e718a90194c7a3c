//! Reads the block of declarations at the head of a text.

ghost use Rattle.std.specs.Prelude.{◌≡◌, ◌≤◌, ◌+◌, ◌≢◌, ℕ, List, length, drop, false, true, if◌then◌else◌, IfOk, IfErr};
ghost use Rattle.diagram_declarations.specs.Decls.{Declared};
ghost use Rattle.diagram_declarations.specs.Name.{has_name_form, is_name};
ghost use Rattle.diagram_declarations.specs.Grammar.{HasDecls, HasNoDecls};
ghost use Rattle.diagram_declarations.specs.Rules.{Breaks, BreaksOn, line_of};
ghost use Rattle.diagram_declarations.specs.ReadDecls.{IfBroken};

use crate::declaration::{body_at, expect};
use crate::decls::Decls;
use crate::fault::{Fault, Stopped, VarFault, VarRule};
use crate::letters::same_letters;
use crate::name::{Name, has_name_form};
use crate::text::token;
use std::alloc::Global;

/// The name that a word is, where a name is expected; `left` bytes of the text are after it.
fn name_of(word: &[u8], left: usize) -> Result<Name, Fault>
    ensures some { IfOk result (λ name. (name ≡ word.now) × (is_name word.now ≡ true)) }
    ensures none { IfErr result (λ f. (is_name word.now ≡ false) × (f.rule ≡ (if has_name_form word.now then VarRule.BadName else VarRule.BadToken)) × (f.left ≡ left)) }
{
    match Name::new(word) {
        Some(name) => Ok(name),
        None => {
            let rule = if has_name_form(word) {
                VarRule::BadName
            } else {
                VarRule::BadToken
            };
            Err(Fault { rule, left })
        }
    }
}

/// The declarations of a text, and what follows their END_VAR.
fn all_of(alloc: Global, text: &[u8]) -> Result<(Decls, &[u8]), Stopped>
    ensures found { IfOk result (λ x. HasDecls text.now x.0 x.1.now) }
    ensures only { IfOk result (λ x. (declared : Declared) (rest : List ℕ) → HasDecls text.now declared rest → (declared ≡ x.0) × (rest ≡ x.1.now)) }
    ensures broken { IfErr result (λ e. IfBroken e (λ f. Breaks f.rule text.now f.left × HasNoDecls text.now)) }
{
    let mut rest = expect(b"VAR", text)?;
    let mut decls = Decls::new(alloc);
    loop {
        let (word, after) = token(rest)?;
        if same_letters(word, b"END_VAR") {
            return Ok((decls, after));
        }
        let name = name_of(word, after.len())?;
        let (body, next) = body_at(after)?;
        decls.add(name, body, after.len())?;
        rest = next;
    }
}

/// The number of the line, counted from 1, with the place after which `left` bytes of the text are left.
pub(crate) fn line_of(text: &[u8], left: usize) -> usize
    ensures { result ≡ line_of text.now left }
{
    let before = &text[..text.len().saturating_sub(left)];
    1 + before.iter().filter(|b| **b == b'\n').count()
}

/// Reads the declarations of a program text. Returns them with the place right after END_VAR.
///
/// # Errors
///
/// A rule that the text breaks, and its line. V1, V2, V3 and V6 are reported at the token where the
/// reading stops, V8 at the line after the last line end. When a declaration has ended, V3 of an
/// instance's length, V4, V5 and V7 are tested in this order, and reported at the line of its name.
/// V9 when out of memory.
pub fn read_decls(alloc: Global, text: &[u8]) -> Result<(Decls, usize), VarFault>
    ensures found { IfOk result (λ x. (x.1 ≤ length text.now) × HasDecls text.now x.0 (drop x.1 text.now)) }
    // A text is refused for another reason than memory only where it has no declarations.
    ensures none { IfErr result (λ e. e.rule ≢ VarRule.Memory → HasNoDecls text.now) }
    // The rule of a refusal is broken on its line.
    ensures broken { IfErr result (λ e. BreaksOn e.rule text.now e.line) }
    // No text has two readings.
    ensures only { IfOk result (λ x. (declared : Declared) (rest : List ℕ) → HasDecls text.now declared rest → (declared ≡ x.0) × (rest ≡ drop x.1 text.now)) }
{
    match all_of(alloc, text) {
        Ok((decls, rest)) => Ok((decls, text.len() - rest.len())),
        Err(Stopped::NoMemory) => Err(VarFault {
            rule: VarRule::Memory,
            line: 0,
        }),
        Err(Stopped::Broken(fault)) => Err(VarFault {
            rule: fault.rule,
            line: line_of(text, fault.left),
        }),
    }
}
