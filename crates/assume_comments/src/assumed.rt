//! What the comments of a block of declarations assume.

ghost use Rattle.std.specs.Prelude.{◌≡◌, ◌++◌, ◌∷◌, [], IfOk, map, string_bytes};
ghost use Rattle.assume_comments.specs.Comments.{assumed_by, AreAssumed};

use crate::comment::assumption_of;
use crate::front::{Front, front_of};
use std::alloc::{AllocError, Global};

/// Adds what a comment assumes, where it does.
fn add_assumed(alloc: Global, texts: &mut Vec<String>, comment: &[u8]) -> Result<(), AllocError>
    ensures { IfOk result (λ _. map string_bytes texts.new.items ≡ map string_bytes texts.old.items ++ assumed_by (comment.now ∷ [])) }
{
    if let Some(assumed) = assumption_of(comment) {
        texts.push(String::from_utf8_lossy(alloc, assumed)?)?;
    }
    Ok(())
}

/// The texts behind `assume:` in the comments `(* .. *)` of a block of declarations, up to its END_VAR and in their order. Letter case makes no
/// difference. A text that is no such block has none.
///
/// # Errors
///
/// An error when out of memory.
pub fn assumed_in(alloc: Global, text: &[u8]) -> Result<Vec<String>, AllocError>
    ensures { IfOk result (λ texts. AreAssumed text.now (map string_bytes texts.items)) }
{
    let mut texts = Vec::new(alloc);
    let mut rest = text;
    while let Some(front) = front_of(rest) {
        match front {
            Front::End => return Ok(texts),
            Front::Comment {
                inside,
                rest: behind,
            } => {
                add_assumed(alloc, &mut texts, inside)?;
                rest = behind;
            }
            Front::Other(behind) => rest = behind,
        }
    }
    Ok(Vec::new(alloc))
}
