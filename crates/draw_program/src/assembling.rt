//! The text of a drawing: its declarations and its rungs.

use crate::declaring::{Declaring, add_declarations};
use crate::names::DrawnNames;
use draw_layout::Layout;
use st_program::StProgram;
use std::alloc::{AllocError, Global};

/// The declarations and the rungs of a drawing.
pub(crate) fn assembled(
    alloc: Global,
    text: &[u8],
    program: &StProgram,
    names: &DrawnNames,
    layout: &Layout<'_>,
) -> Result<Vec<u8>, AllocError> {
    let mut out = Vec::new(alloc);
    let declaring = Declaring {
        text,
        program,
        names,
        helpers: layout.helpers,
    };
    add_declarations(&mut out, declaring)?;
    out.extend_from_slice(&layout.text)?;
    Ok(out)
}
