//! Comments, processing instructions and CDATA sections.

ghost use Rattle.std.specs.Prelude.{◌≡◌, IfSome};
ghost use Rattle.xml_document.specs.Markup.{Comment, Instruction, Section, is_apart};

use crate::characters::{behind, is_blank, name_at, up_to};

/// What is behind the comment at the start of a text.
pub(crate) fn behind_comment(text: &[u8]) -> Option<&[u8]>
    ensures { IfSome result (λ rest. Comment text.now rest.now) }
{
    let (_, end) = up_to(behind(b"<!--", text)?, b"--")?;
    behind(b">", end)
}

/// Whether what follows the target of an instruction is behind a blank.
fn is_apart(inside: &[u8]) -> bool
    ensures { result ≡ is_apart inside.now }
{
    match inside {
        [] => true,
        [b, ..] => is_blank(*b),
    }
}

/// What is behind the processing instruction at the start of a text.
pub(crate) fn behind_instruction(text: &[u8]) -> Option<&[u8]>
    ensures { IfSome result (λ rest. Instruction text.now rest.now) }
{
    let (target, after) = name_at(behind(b"<?", text)?)?;
    let (inside, rest) = up_to(after, b"?>")?;
    if target.eq_ignore_ascii_case(b"xml") || !is_apart(inside) {
        return None;
    }
    Some(rest)
}

/// What is inside the CDATA section at the start of a text, and what is behind it.
pub(crate) fn section_at(text: &[u8]) -> Option<(&[u8], &[u8])>
    ensures { IfSome result (λ x. Section text.now x.1.now x.0.now) }
{
    up_to(behind(b"<![CDATA[", text)?, b"]]>")
}
