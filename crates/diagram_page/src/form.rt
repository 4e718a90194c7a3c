//! The forms of a cell: what its characters stand for.

ghost use Rattle.std.specs.Prelude.{◌≡◌, ◌≤◌, ◌==◌, ◌&&◌, ◌||◌, ◌↔◌, ℕ, List, codes, drop, length, map, take, option_map, Some};
ghost use Rattle.std.specs.List.{find, list_all, prefix_len};
ghost use Rattle.std.specs.Str.{bytes_eq};
ghost use Rattle.diagram_page.specs.Form.{HasForm, block_in, jump_in, lower_in};
ghost use Rattle.diagram_page.specs.ReadForm.{jump_to, mark_at};
ghost use Rattle.diagram_program.specs.Bytes.{dash, space};
ghost use Rattle.diagram_page.specs.declared.form.Form.{Form};

use crate::gap::{label_named, word_len};
use diagram_declarations::{BlockKind, Name, Pin};
use diagram_program::{CoilMode, Mode};

/// What the eleven characters of a cell are, before the name over it is looked up.
#[derive(Clone, Copy)]
pub enum Form {
    Empty,
    Wire,
    Contact(Mode),
    Coil(CoilMode),
    /// The upper cell of a block of this kind.
    Block(BlockKind),
    /// The cell under a block with this input, with or without a left link.
    Lower(Pin, bool),
    /// A jump to the rung with this label.
    Jump(Name),
    /// A jump past the last rung.
    Return,
}

impl Form {
    /// The kind of a block.
    pub fn block(self) -> Option<BlockKind>
        ensures { result ≡ block_in self }
    {
        match self {
            Form::Block(kind) => Some(kind),
            Form::Empty
            | Form::Wire
            | Form::Contact(_)
            | Form::Coil(_)
            | Form::Lower(_, _)
            | Form::Jump(_)
            | Form::Return => None,
        }
    }

    /// The input of a lower cell.
    pub fn lower(self) -> Option<Pin>
        ensures { result ≡ lower_in self }
    {
        match self {
            Form::Lower(pin, _) => Some(pin),
            Form::Empty
            | Form::Wire
            | Form::Contact(_)
            | Form::Coil(_)
            | Form::Block(_)
            | Form::Jump(_)
            | Form::Return => None,
        }
    }

    /// The label of a jump.
    pub fn jump(self) -> Option<Name>
        ensures { result ≡ jump_in self }
    {
        match self {
            Form::Jump(label) => Some(label),
            Form::Empty
            | Form::Wire
            | Form::Contact(_)
            | Form::Coil(_)
            | Form::Block(_)
            | Form::Lower(_, _)
            | Form::Return => None,
        }
    }
}

/// The cells that are spelled in one way.
const WHOLE_CELLS: [(&[u8], Form); 15] = [
    (b"           ", Form::Empty),
    (b"-----------", Form::Wire),
    (b"-|IN TON Q|", Form::Block(BlockKind::Ton)),
    (b"-|IN TOF Q|", Form::Block(BlockKind::Tof)),
    (b"-|IN TP  Q|", Form::Block(BlockKind::Tp)),
    (b"-|CU CTU Q|", Form::Block(BlockKind::Ctu)),
    (b"-|CD CTD Q|", Form::Block(BlockKind::Ctd)),
    (b"-|S1 SR Q1|", Form::Block(BlockKind::Sr)),
    (b"-|S  RS Q1|", Form::Block(BlockKind::Rs)),
    (b"-|R       |", Form::Lower(Pin::Reset, true)),
    (b" |R       |", Form::Lower(Pin::Reset, false)),
    (b"-|LD      |", Form::Lower(Pin::Load, true)),
    (b" |LD      |", Form::Lower(Pin::Load, false)),
    (b"-|R1      |", Form::Lower(Pin::Reset1, true)),
    (b" |R1      |", Form::Lower(Pin::Reset1, false)),
];

/// The symbols that are drawn on a wire.
const SYMBOLS: [(&[u8], Form); 10] = [
    (b"| |", Form::Contact(Mode::Plain)),
    (b"|/|", Form::Contact(Mode::Negated)),
    (b"|P|", Form::Contact(Mode::Rising)),
    (b"|N|", Form::Contact(Mode::Falling)),
    (b"( )", Form::Coil(CoilMode::Store)),
    (b"(/)", Form::Coil(CoilMode::Inverse)),
    (b"(S)", Form::Coil(CoilMode::Set)),
    (b"(R)", Form::Coil(CoilMode::Reset)),
    (b"(P)", Form::Coil(CoilMode::Rising)),
    (b"(N)", Form::Coil(CoilMode::Falling)),
];

/// Whether two texts are the same, byte by byte.
fn same_bytes(a: &[u8], b: &[u8]) -> bool
    ensures { result ≡ bytes_eq a.now b.now }
{
    a == b
}

/// The form that a table of spellings has for these characters.
fn lookup(mut table: &[(&[u8], Form)], chars: &[u8]) -> Option<Form>
    ensures { result ≡ option_map (λ (e : List ℕ × Form). e.1) (find (λ e. bytes_eq e.0 chars.now) (map (λ e. (e.0.now, e.1)) table.entry.now)) }
{
    while let [entry, rest @ ..] = table {
        if same_bytes(entry.0, chars) {
            return Some(entry.1);
        }
        table = rest;
    }
    None
}

/// Whether all bytes of a text are this one.
fn all_are(byte: u8, chars: &[u8]) -> bool
    ensures { result ≡ list_all (λ b. b == byte) chars.now }
{
    chars.iter().all(|b| *b == byte)
}

/// The form of a jump to the label at the start of a text, where only spaces follow.
#[tactic(auto, unfolding(crate::specs::ReadForm::label_at, crate::specs::ReadForm::behind_label))]
fn jump_to(text: &[u8]) -> Option<Form>
    ensures { result ≡ jump_to text.now }
{
    let (word, behind) = text.split_at(word_len(text));
    if all_are(b' ', behind) {
        Some(Form::Jump(label_named(word)?))
    } else {
        None
    }
}

/// How many dashes a cell begins with.
fn dashes_before(chars: &[u8]) -> usize
    ensures value { result ≡ prefix_len (λ b. b == dash) chars.now }
    ensures within { result ≤ length chars.now }
{
    chars.iter().take_while(|b| **b == b'-').count()
}

/// Whether these are only dashes, or only spaces.
fn is_filler(tail: &[u8]) -> bool
    ensures { result ≡ (list_all (λ b. b == dash) tail.now || list_all (λ b. b == space) tail.now) }
{
    all_are(b'-', tail) || all_are(b' ', tail)
}

/// Whether the rest of a cell is `<RETURN>` and spaces.
fn is_return(text: &[u8]) -> bool
    ensures { result ≡ (bytes_eq (codes "<RETURN>") (take 8 text.now) && list_all (λ b. b == space) (drop 8 text.now)) }
{
    let end = text.len().min(8);
    same_bytes(b"<RETURN>", &text[..end]) && all_are(b' ', &text[end..])
}

/// The form that a mark such as `| |` or `( )` stands for, where only filler follows it in the cell.
fn mark_at(text: &[u8]) -> Option<Form>
    ensures { result ≡ mark_at text.now }
{
    match text {
        [b'>', b'>', label @ ..] => jump_to(label),
        [b'>', ..] => None,
        [b'<', ..] => {
            if is_return(text) {
                Some(Form::Return)
            } else {
                None
            }
        }
        _ => match text {
            [a, b, c, tail @ ..] => {
                if is_filler(tail) {
                    lookup(&SYMBOLS, &[*a, *b, *c])
                } else {
                    None
                }
            }
            [] | [_] | [_, _] => None,
        },
    }
}

/// The form that a cell's characters have.
pub(crate) fn form_at(chars: &[u8]) -> Option<Form>
    ensures { (form : Form) → (result ≡ Some form) ↔ HasForm chars.now form }
{
    let (dashes, rest) = chars.split_at(dashes_before(chars));
    match lookup(&WHOLE_CELLS, chars) {
        Some(form) => Some(form),
        None => {
            if dashes.is_empty() {
                None
            } else {
                mark_at(rest)
            }
        }
    }
}
