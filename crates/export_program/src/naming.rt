//! Whether a word of the text is the name of a declaration of the drawing.

ghost use Rattle.std.specs.Prelude.{◌≡◌, ◌++◌, IfSome, IsTrue};
ghost use Rattle.std.specs.Char.{is_ascii_digit};
ghost use Rattle.std.specs.List.{list_all};
ghost use Rattle.export_program.specs.Declarations.{IsNamed, IsNumbered};

/// What is behind a name that a word begins with; None where it begins with something else.
pub(crate) fn behind<'a>(word: &'a [u8], name: &[u8]) -> Option<&'a [u8]>
    ensures { IfSome result (λ rest. word.now ≡ name.now ++ rest.now) }
{
    word.strip_prefix(name)
}

/// Whether a word has decimal digits alone.
fn are_digits(word: &[u8]) -> bool
    ensures { result ≡ list_all is_ascii_digit word.now }
{
    word.iter().all(|b| b.is_ascii_digit())
}

/// Whether a word is a name, an underscore and a number in decimal.
fn is_numbered(word: &[u8], name: &[u8]) -> bool
    ensures { IsTrue result → IsNumbered word.now name.now }
{
    match behind(word, name) {
        Some([b'_', digits @ ..]) => !digits.is_empty() && are_digits(digits),
        _ => false,
    }
}

/// Whether a text may call a declaration by this word.
pub(crate) fn is_named(word: &[u8], name: &[u8], title: &[u8]) -> bool
    ensures { IsTrue result → IsNamed word.now name.now title.now }
{
    word == name || word == title || is_numbered(word, name)
}
