//! What a program declares.

ghost use Rattle.std.specs.Prelude.{◌≡◌, ◌↔◌, IsTrue, IfOk, OnOk, None, position};
ghost use Rattle.diagram_declarations.specs.Name.{same_letters};
ghost use Rattle.st_words.specs.Places.{spelled};
ghost use Rattle.st_program.specs.Symbols.{IsFresh, added, block_of, table, variable_of};

use crate::fault::{Expected, Refusal};
use crate::spelling::{bytes_of, is_name};
use diagram_declarations::{BlockKind, same_letters};
use st_integers::IntegerValue;
use st_words::Word;

/// The most names that a program may declare.
pub const MOST_NAMES: usize = 1000;

/// What opens the declarations of a variable.
#[derive(Clone, Copy, PartialEq, Eq)]
pub enum Section {
    /// `VAR`
    Local,
    /// `VAR_INPUT`
    Input,
    /// `VAR_OUTPUT`
    Output,
}

/// What a variable is.
#[derive(Clone, Copy, PartialEq, Eq)]
pub enum Sort {
    Bool,
    /// An `R_TRIG`, whose variable is its output.
    Rising,
    /// An `F_TRIG`, whose variable is its output.
    Falling,
    /// It is on while an INT has this value. The variable of its value at the start stands where the INT is declared.
    Value(IntegerValue),
}

/// A variable, or the output of a trigger.
#[derive(Clone, Copy)]
pub struct StVariable {
    pub name: Word,
    pub section: Section,
    /// The word behind `AT`.
    pub address: Option<Word>,
    /// The value that it has at the start.
    pub initial: bool,
    pub sort: Sort,
}

/// A timer, a counter or a bistable as it is declared.
#[derive(Clone, Copy)]
pub(crate) struct Block {
    pub name: Word,
    pub kind: BlockKind,
    pub preset: Option<u32>,
}

/// What names are declared as.
#[derive(Clone, Copy)]
pub(crate) enum Declared {
    Variable {
        section: Section,
        address: Option<Word>,
        initial: bool,
        sort: Sort,
    },
    Integer {
        section: Section,
        initial: u32,
    },
    Block {
        kind: BlockKind,
        preset: Option<u32>,
    },
}

/// The variables and blocks, each in order of declaration.
#[derive(Drop)]
pub(crate) struct Symbols {
    pub variables: Vec<StVariable>,
    pub blocks: Vec<Block>,
}

/// The number of the variable with a name, whatever the case of its letters.
pub(crate) fn variable_of(text: &[u8], variables: &[StVariable], name: &[u8]) -> Option<usize>
    ensures { result ≡ variable_of text.now variables.now name.now }
{
    variables
        .iter()
        .position(|v| same_letters(name, bytes_of(text, v.name)))
}

/// The number of the timer, counter or bistable with a name, whatever the case of its letters.
pub(crate) fn block_of(text: &[u8], blocks: &[Block], name: &[u8]) -> Option<usize>
    ensures { result ≡ block_of text.now blocks.now name.now }
{
    blocks
        .iter()
        .position(|b| same_letters(name, bytes_of(text, b.name)))
}

impl Symbols {
    /// Whether a word is a name that isn't declared.
    fn is_fresh(&self, text: &[u8], name: &[u8]) -> bool
        ensures { IsTrue result ↔ (variable_of text.now self.now.variables.items name.now ≡ None) × (block_of text.now self.now.blocks.items name.now ≡ None) }
    {
        variable_of(text, &self.variables, name).is_none()
            && block_of(text, &self.blocks, name).is_none()
    }

    /// Declares a name.
    ///
    /// # Errors
    ///
    /// The word is no name, or a name that is declared already; there are too many names; memory runs out.
    pub(crate) fn declare(
        &mut self,
        text: &[u8],
        name: Word,
        declared: Declared,
    ) -> Result<(), Refusal>
        ensures fresh { OnOk result (IsFresh text.now (table self.old) name) }
        ensures added { OnOk result (table self.new ≡ added (table self.old) name declared) }
    {
        let at = Some(name.start);
        let spelling = bytes_of(text, name);
        if !is_name(spelling) {
            return Err(Refusal::Due {
                at,
                expected: Expected::Name,
            });
        }
        if !self.is_fresh(text, spelling) {
            return Err(Refusal::Name { at });
        }
        if self.variables.len() >= MOST_NAMES || self.blocks.len() >= MOST_NAMES {
            return Err(Refusal::TooMany { at });
        }
        match declared {
            Declared::Variable {
                section,
                address,
                initial,
                sort,
            } => self.variables.push(StVariable {
                name,
                section,
                address,
                initial,
                sort,
            })?,
            Declared::Integer { section, initial } => {
                let value = IntegerValue {
                    integer: self.variables.len(),
                    value: initial,
                };
                self.variables.push(StVariable {
                    name,
                    section,
                    address: None,
                    initial: true,
                    sort: Sort::Value(value),
                })?
            }
            Declared::Block { kind, preset } => self.blocks.push(Block { name, kind, preset })?,
        }
        Ok(())
    }
}
