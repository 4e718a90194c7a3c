//! Which element of ClassicLadder means what.

ghost use Rattle.std.specs.Prelude.{◌≡◌, ◌↔◌, Some, slice_get};
ghost use Rattle.clp_meaning.specs.declared.meaning.Timed.{Timed};
ghost use Rattle.clp_meaning.specs.Meanings.{IsTimed, block_in, coil_in, contact_in, element_meaning, meaning_of, source_of, table_of};

use clp_project::{Element, Preset, Project, ReadingOptions};
use diagram_declarations::BlockKind;
use diagram_program::{CoilMode, Mode};

/// The blocks that are carried over.
#[derive(Clone, Copy, PartialEq, Eq, PartialOrd, Ord)]
pub enum BlockSort {
    /// A timer of the old sort, `%T`.
    Timer,
    /// A monostable, `%M`.
    Monostable,
    /// An IEC timer, `%TM`.
    IecTimer,
}

/// A block of a project.
#[derive(Clone, Copy, PartialEq, Eq)]
pub struct BlockRef {
    pub sort: BlockSort,
    pub number: u32,
}

/// What an element means.
#[derive(Clone, Copy, PartialEq, Eq)]
pub enum Meaning {
    /// It does nothing.
    Blank,
    Wire,
    Contact(Mode),
    /// A contact on a value that may be any: a compare, or a contact on a step of a sequential chart.
    Opened(Mode),
    Coil(CoilMode),
    Jump,
    Block(BlockSort),
    /// The output of an old timer whose time never passes: always OFF.
    Off,
    /// It computes a number.
    Operate,
    /// It isn't carried over.
    Other,
}

impl Meaning {
    /// The mode of a contact.
    pub fn contact(self) -> Option<Mode>
        ensures { result ≡ contact_in self }
    {
        match self {
            Meaning::Contact(mode) => Some(mode),
            Meaning::Blank
            | Meaning::Wire
            | Meaning::Opened(_)
            | Meaning::Coil(_)
            | Meaning::Jump
            | Meaning::Block(_)
            | Meaning::Off
            | Meaning::Operate
            | Meaning::Other => None,
        }
    }

    /// The mode of a coil.
    pub fn coil(self) -> Option<CoilMode>
        ensures { result ≡ coil_in self }
    {
        match self {
            Meaning::Coil(mode) => Some(mode),
            Meaning::Blank
            | Meaning::Wire
            | Meaning::Contact(_)
            | Meaning::Opened(_)
            | Meaning::Jump
            | Meaning::Block(_)
            | Meaning::Off
            | Meaning::Operate
            | Meaning::Other => None,
        }
    }

    /// The sort of a block.
    pub fn block(self) -> Option<BlockSort>
        ensures { result ≡ block_in self }
    {
        match self {
            Meaning::Block(sort) => Some(sort),
            Meaning::Blank
            | Meaning::Wire
            | Meaning::Contact(_)
            | Meaning::Opened(_)
            | Meaning::Coil(_)
            | Meaning::Jump
            | Meaning::Off
            | Meaning::Operate
            | Meaning::Other => None,
        }
    }
}

/// What a contact reads or a coil writes.
#[derive(Clone, Copy, PartialEq, Eq, PartialOrd, Ord)]
pub enum ClpOperand {
    /// `%I`.
    Input,
    /// `%Q`.
    Output,
    /// `%B`.
    Memory,
    /// The output of a block.
    Done(BlockSort),
    /// It isn't carried over.
    Other,
}

/// What an element of this kind means, by the numbers of kinds in ClassicLadder's files.
#[tactic(auto, unfolding(crate::specs::Meanings::meaning_of))]
pub fn meaning_of(kind: u32) -> Meaning
    ensures { result ≡ meaning_of kind }
{
    match kind {
        0 | 99.. => Meaning::Blank,
        1 => Meaning::Contact(Mode::Plain),
        2 => Meaning::Contact(Mode::Negated),
        3 => Meaning::Contact(Mode::Rising),
        4 => Meaning::Contact(Mode::Falling),
        9 => Meaning::Wire,
        10 => Meaning::Block(BlockSort::Timer),
        11 => Meaning::Block(BlockSort::Monostable),
        13 => Meaning::Block(BlockSort::IecTimer),
        50 => Meaning::Coil(CoilMode::Store),
        51 => Meaning::Coil(CoilMode::Inverse),
        52 => Meaning::Coil(CoilMode::Set),
        53 => Meaning::Coil(CoilMode::Reset),
        54 => Meaning::Jump,
        _ => Meaning::Other,
    }
}

/// What an element means by itself, as a project is read.
pub(crate) fn element_meaning(reading: ReadingOptions, element: Element) -> Meaning
    ensures { result ≡ element_meaning reading element }
{
    let meaning = meaning_of(element.kind);
    if !reading.opened {
        meaning
    } else if element.kind == 20 {
        Meaning::Opened(Mode::Plain)
    } else if element.kind == 60 {
        Meaning::Operate
    } else if element.class == 30 {
        match meaning.contact() {
            Some(mode) => Meaning::Opened(mode),
            None => meaning,
        }
    } else {
        meaning
    }
}

/// What the class of an element's variable stands for: an input, an output, a memory, or the output of a block.
pub fn source_of(class: u32) -> ClpOperand
    ensures { result ≡ source_of class }
{
    match class {
        0 => ClpOperand::Memory,
        10 => ClpOperand::Done(BlockSort::Timer),
        15 => ClpOperand::Done(BlockSort::IecTimer),
        20 => ClpOperand::Done(BlockSort::Monostable),
        50 => ClpOperand::Input,
        60 => ClpOperand::Output,
        _ => ClpOperand::Other,
    }
}

/// A kind of block, and its preset in milliseconds.
#[derive(Clone, Copy)]
pub struct Timed {
    pub kind: BlockKind,
    /// In milliseconds.
    pub preset: u64,
}

/// The kind and the preset, in ms, of a timer with this entry in its table.
pub fn timed_as(sort: BlockSort, preset: Option<Preset>) -> Option<Timed>
    ensures { (timed : Timed) → (result ≡ Some timed) ↔ IsTimed sort preset timed }
{
    let preset = preset?;
    let kind = match sort {
        BlockSort::Timer => BlockKind::Ton,
        BlockSort::Monostable => BlockKind::Tp,
        BlockSort::IecTimer => match preset.mode {
            0 => BlockKind::Ton,
            1 => BlockKind::Tof,
            2 => BlockKind::Tp,
            _ => return None,
        },
    };
    let millis = match preset.base {
        0 => 60000u32,
        1 => 1000,
        2 => 100,
        _ => return None,
    };
    Some(Timed {
        kind,
        preset: u64::from(millis) * u64::from(preset.count),
    })
}

/// The entry with a number in the table of such blocks.
pub fn entry_of(project: &Project<'_>, sort: BlockSort, number: usize) -> Option<Preset>
    ensures { result ≡ slice_get (table_of project.now sort) number }
{
    let table = match sort {
        BlockSort::Timer => &project.timers,
        BlockSort::Monostable => &project.monostables,
        BlockSort::IecTimer => &project.iec_timers,
    };
    table.as_slice().get(number).copied()
}
