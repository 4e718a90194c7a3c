//! What draws the text of a project.

ghost use Rattle.std.specs.Prelude.{Result};
ghost use Rattle.clp_project.specs.declared.project.Project.{Project};
ghost use Rattle.clp_project.specs.declared.reading.ReadingOptions.{ReadingOptions};
ghost use Rattle.clp_drawing.specs.declared.drafting.DraftFault.{DraftFault};
ghost use Rattle.clp_drawing.specs.declared.drafting.Drafted.{Drafted};

use clp_drawing::{DraftFault, Drafted, draft};
use clp_project::{Link, Project, ReadingOptions};
use std::alloc::Global;

/// What draws the text of a project, which is then read and compared with it.
pub trait Drafting {
    // What it may answer of a project, as that is read. `import` knows no more of it, so what it says of a draft, it says of one that was made.
    ghost answers: { Self → ReadingOptions → Project → Result Drafted DraftFault → Type 0 };

    /// Draws the text of a project.
    ///
    /// # Errors
    ///
    /// Where a program can't have as many variables or blocks; `Memory` when out of memory.
    fn draft(
        &self,
        alloc: Global,
        reading: ReadingOptions,
        project: &Project<'_>,
    ) -> Result<Drafted, DraftFault>
        ensures { answers self.now reading project.now result };
}

/// Draws with the names of a HAL file: an input or an output whose symbol is no name is called after the signal that a link connects
/// with its pin.
#[derive(Clone, Copy)]
pub struct Linked<'a> {
    pub links: &'a [Link<'a>],
}

impl Drafting for Linked<'_> {
    ghost answers = { λ _ _ _ _. Unit {0} };

    /// Drafts with the signals of the HAL file for names.
    fn draft(
        &self,
        alloc: Global,
        reading: ReadingOptions,
        project: &Project<'_>,
    ) -> Result<Drafted, DraftFault> {
        draft(alloc, reading, project, self.links)
    }
}
