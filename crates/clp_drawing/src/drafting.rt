//! The text of a project as it is drawn.

ghost use Rattle.std.specs.Prelude.{◌≡◌};

use crate::aliases::give_aliases;
use crate::draw::drawing;
use crate::drawn::{DrawnRung, sheets_of};
use crate::names::{Used, blocks_in, drawn_blocks, names_of, used_in};
use clp_meaning::BlockRef;
use clp_project::{Link, Project, ReadingOptions};
use diagram_declarations::limits::{MOST_INSTANCES, MOST_VARS};
use std::alloc::{AllocError, Global};
use thiserror::Error;

/// Why a project has no draft.
#[derive(Clone, Copy, Debug, Error)]
pub enum DraftFault {
    #[error("out of memory")]
    Memory,
    #[error("there are more than 256 variables")]
    TooManyVars,
    #[error("there are more than 64 blocks")]
    TooManyBlocks,
}

impl From<AllocError> for DraftFault {
    ghost use Rattle.clp_drawing.specs.declared.drafting.DraftFault.TheVariants.{Memory};

    ghost from_gives = { λ _ e. e ≡ Memory };

    /// Drafting needed memory that there isn't.
    fn from(_error: AllocError) -> DraftFault {
        DraftFault::Memory
    }
}

/// A text, and the blocks that are declared in it.
#[derive(Drop)]
pub struct Drafted {
    pub text: Vec<u8>,
    pub blocks: Vec<BlockRef>,
}

/// The blocks that are drawn in a project.
///
/// # Errors
///
/// `AllocError` when out of memory.
pub fn blocks_of(
    alloc: Global,
    reading: ReadingOptions,
    project: &Project<'_>,
) -> Result<Vec<BlockRef>, AllocError> {
    drawn_blocks(alloc, &sheets_of(alloc, reading, project)?)
}

/// Refuses a project with more variables or instances than a program may declare.
fn keep_limits(used: usize, blocks: usize) -> Result<(), DraftFault> {
    if blocks > MOST_INSTANCES {
        Err(DraftFault::TooManyBlocks)
    } else if used.saturating_sub(blocks) > MOST_VARS {
        Err(DraftFault::TooManyVars)
    } else {
        Ok(())
    }
}

/// The text of a program: its names are chosen first, then its aliases, then it is drawn.
fn text_of(
    alloc: Global,
    project: &Project<'_>,
    links: &[Link<'_>],
    sheets: &[DrawnRung<'_>],
    used: &[Used],
) -> Result<Vec<u8>, AllocError> {
    let mut named = names_of(alloc, project, links, sheets, used)?;
    give_aliases(project, links, &mut named);
    drawing(alloc, project, links, sheets, &named)
}

/// The draft of a project whose rungs were looked through: its text, and the blocks that became instances.
fn draft_of(
    alloc: Global,
    project: &Project<'_>,
    links: &[Link<'_>],
    sheets: &[DrawnRung<'_>],
) -> Result<Drafted, DraftFault> {
    let used = used_in(alloc, sheets)?;
    let blocks = blocks_in(alloc, sheets, &used)?;
    keep_limits(used.len(), blocks.len())?;
    let text = text_of(alloc, project, links, sheets, &used)?;
    Ok(Drafted { text, blocks })
}

/// The text of a project, which is to be read and compared with it. An input or an output whose symbol is no name is called after the signal that a
/// link connects with its pin.
///
/// # Errors
///
/// `TooManyBlocks`, `TooManyVars` where a program can't have as many; `Memory` when out of memory.
pub fn draft(
    alloc: Global,
    reading: ReadingOptions,
    project: &Project<'_>,
    links: &[Link<'_>],
) -> Result<Drafted, DraftFault> {
    match sheets_of(alloc, reading, project) {
        Ok(sheets) => draft_of(alloc, project, links, &sheets),
        Err(_) => Err(DraftFault::Memory),
    }
}
