//! Ranges of the bytes of a document.

ghost use Rattle.std.specs.Prelude.{◌≡◌};
ghost use Rattle.xml_document.specs.Items.{bytes_at};

use xml_document::Span;

/// The bytes of a range.
#[tactic(auto, using(crate::proofs::Ranges::clamped))]
pub fn bytes_at(bytes: &[u8], span: Span) -> &[u8]
    ensures { result.now ≡ bytes_at bytes.now span }
{
    let end = span.end.min(bytes.len());
    &bytes[span.start.min(end)..end]
}
