//! Which texts are XML.

ghost use Rattle.std.specs.Prelude.{◌≡◌};
ghost use Rattle.cli_plc.specs.Kind.{is_xml};

/// Whether a text begins as a document in XML does: with `<`, behind a byte order mark or without one.
pub fn is_xml(text: &[u8]) -> bool
    ensures { result ≡ is_xml text.now }
{
    text.starts_with(b"<") || text.starts_with(b"\xEF\xBB\xBF<")
}
