//! Titles: what lists and traces call a variable or an instance.

ghost use Rattle.std.specs.Prelude.{◌≡◌, ◌≤◌, length, true, false, IfSome, IfNone};
ghost use Rattle.std.specs.List.{prefix_len};
ghost use Rattle.diagram_declarations.specs.Title.{is_title_byte, is_title, is_space, after_spaces, alias_behind, alias_of};

use std::marker::Model;

/// The characters of the longest title.
pub const LONGEST_TITLE: usize = 32;

/// How many bytes at the start of a text can be those of a title.
fn title_len(text: &[u8]) -> usize
    ensures value { result ≡ prefix_len is_title_byte text.now }
    ensures within { result ≤ length text.now }
{
    text.iter()
        .take_while(|b| b.is_ascii_alphanumeric() || matches!(**b, b'_' | b'-' | b'.' | b'/'))
        .count()
}

/// What lists and traces call a variable or an instance: its name, or its alias.
///
/// A title has 1 to 32 characters: letters, digits, `_`, `-`, `.` and `/`.
#[derive(Clone, Copy)]
pub struct Title {
    bytes: [u8; LONGEST_TITLE],
    len: usize,
}

impl Model for Title {
    ghost use Rattle.std.specs.Prelude.{ℕ, List};

    ghost Value = { List ℕ };

    ghost use Rattle.diagram_declarations.specs.TitleView.{spelling, stored, IsStored, stored-spelling};

    ghost view = { spelling };

    ghost invariant = { IsStored };

    ghost inverse = { stored };

    ghost inverse_ok = { stored-spelling };
}

impl Title {
    /// The title of this spelling, where it has the form of a title.
    #[tactic(auto, using(crate::proofs::TitleRuns::whole_run))]
    pub fn new(spelling: &[u8]) -> Option<Title>
        ensures some { IfSome result (λ title. (title ≡ spelling.now) × (is_title spelling.now ≡ true)) }
        ensures none { IfNone result (is_title spelling.now ≡ false) }
    {
        if !spelling.is_empty()
            && spelling.len() <= LONGEST_TITLE
            && title_len(spelling) == spelling.len()
        {
            Some(Title::spelled(spelling))
        } else {
            None
        }
    }

    /// The title of this spelling, which is known to have the form of one.
    pub fn spelled(spelling: &[u8]) -> Title
        requires { is_title spelling.now ≡ true }
        ensures { result ≡ spelling.now }
    {
        let mut bytes = [0; LONGEST_TITLE];
        bytes[..spelling.len()].copy_from_slice(spelling);
        Title {
            bytes,
            len: spelling.len(),
        }
    }

    /// How the title is spelled.
    pub fn bytes(&self) -> &[u8]
        ensures spelling { result.now ≡ self.now }
        ensures formed { is_title self.now ≡ true }
    {
        &self.bytes[..self.len]
    }
}

/// How many spaces and tabulators a text begins with.
fn space_len(text: &[u8]) -> usize
    ensures value { result ≡ prefix_len is_space text.now }
    ensures within { result ≤ length text.now }
{
    text.iter()
        .take_while(|b| **b == b' ' || **b == b'\t')
        .count()
}

/// The text after the spaces and tabs at its start.
fn after_spaces(text: &[u8]) -> &[u8]
    ensures { result.now ≡ after_spaces text.now }
{
    &text[space_len(text)..]
}

/// The alias that the text after a name begins with, in a comment that holds nothing else.
fn alias_behind(text: &[u8]) -> Option<Title>
    ensures { result ≡ alias_behind text.now }
{
    let [b'(', b'*', comment @ ..] = after_spaces(text) else {
        return None;
    };
    let comment = after_spaces(comment);
    let (word, rest) = comment.split_at(title_len(comment));
    match after_spaces(rest) {
        [b'*', b')', ..] => Title::new(word),
        _ => None,
    }
}

/// The alias of a name, in the text after it: another word than the name.
pub fn alias_of(name: &[u8], text: &[u8]) -> Option<Title>
    ensures { result ≡ alias_of name.now text.now }
{
    match alias_behind(text) {
        Some(alias) if !name.eq_ignore_ascii_case(alias.bytes()) => Some(alias),
        _ => None,
    }
}
