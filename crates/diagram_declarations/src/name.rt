//! Names of variables and instances: their form, and when two are the same.

ghost use Rattle.std.specs.Prelude.{◌≡◌, true, false, IfSome, IfNone};
ghost use Rattle.std.specs.List.{list_all, list_any};
ghost use Rattle.diagram_declarations.specs.Name.{keywords, is_name_byte, has_name_form, is_name, same_letters};

use crate::letters::same_letters;
use crate::limits::LONGEST_NAME;
use std::marker::Model;

/// The words that are no names.
const KEYWORDS: [&[u8]; 14] = [
    b"VAR", b"END_VAR", b"AT", b"BOOL", b"TRUE", b"FALSE", b"TON", b"TOF", b"TP", b"CTU", b"CTD",
    b"SR", b"RS", b"RETURN",
];

/// Whether a word is one of several, whatever the letter case.
fn is_one_of(words: &[&[u8]], word: &[u8]) -> bool
    ensures { result ≡ list_any (λ w. same_letters word.now w.now) words.now }
{
    words.iter().any(|w| same_letters(word, w))
}

/// Whether a word is reserved by IEC 61131-3, so that it can't be a name.
fn is_keyword(word: &[u8]) -> bool
    ensures { result ≡ list_any (λ w. same_letters word.now w) keywords }
{
    is_one_of(&KEYWORDS, word)
}

/// Whether all bytes may be part of a name: ASCII letters, digits and `_`.
fn are_name_bytes(bytes: &[u8]) -> bool
    ensures { result ≡ list_all is_name_byte bytes.now }
{
    bytes
        .iter()
        .all(|b| b.is_ascii_alphanumeric() || *b == b'_')
}

/// Whether a word is a letter or an underscore, and then letters, digits and underscores.
pub(crate) fn has_name_form(word: &[u8]) -> bool
    ensures { result ≡ has_name_form word.now }
{
    match word {
        [] => false,
        [first, rest @ ..] => {
            (first.is_ascii_alphabetic() || *first == b'_') && are_name_bytes(rest)
        }
    }
}

/// The name of a variable, of an instance or of a label, spelled as in the text.
///
/// It has 1 to 11 characters, a letter or an underscore and then letters, digits and underscores,
/// and is no keyword.
#[derive(Clone, Copy)]
pub struct Name {
    bytes: [u8; LONGEST_NAME],
    len: usize,
}

impl Model for Name {
    ghost use Rattle.std.specs.Prelude.{ℕ, List};

    ghost Value = { List ℕ };

    ghost use Rattle.diagram_declarations.specs.NameView.{spelling, stored, IsStored, stored-spelling};

    ghost view = { spelling };

    ghost invariant = { IsStored };

    ghost inverse = { stored };

    ghost inverse_ok = { stored-spelling };
}

impl Name {
    /// The name of this spelling, where it has the form of a name and isn't reserved.
    pub fn new(spelling: &[u8]) -> Option<Name>
        ensures some { IfSome result (λ name. (name ≡ spelling.now) × (is_name spelling.now ≡ true)) }
        ensures none { IfNone result (is_name spelling.now ≡ false) }
    {
        if spelling.len() <= LONGEST_NAME && has_name_form(spelling) && !is_keyword(spelling) {
            let mut bytes = [0; LONGEST_NAME];
            bytes[..spelling.len()].copy_from_slice(spelling);
            Some(Name {
                bytes,
                len: spelling.len(),
            })
        } else {
            None
        }
    }

    /// How the name is spelled in the text.
    pub fn bytes(&self) -> &[u8]
        ensures spelling { result.now ≡ self.now }
        ensures named { is_name self.now ≡ true }
    {
        &self.bytes[..self.len]
    }

    /// Whether the names are the same: letter case makes no difference.
    pub fn same(&self, other: &Name) -> bool
        ensures { result ≡ same_letters self.now other.now }
    {
        same_letters(self.bytes(), other.bytes())
    }
}
