//! Old timers whose second input, their control, is taken as ON.

use crate::bytes::Text;
use crate::drawn::DrawnRung;
use clp_meaning::{BlockRef, BlockSort, is_taken_on};
use diagram_program::geometry::{COLUMNS, PLACES};

/// Whether a rung has this timer with a control that is taken as ON.
fn has_taken_on(sheet: &DrawnRung<'_>, timer: BlockRef) -> bool {
    for place in 0..PLACES {
        let (row, column) = (place / COLUMNS, place % COLUMNS);
        if sheet.block_at(row, column) == Some(timer)
            && is_taken_on(sheet.reading, sheet.elements, row, column)
        {
            return true;
        }
    }
    false
}

/// Whether a block is a drawn old timer whose control is taken as ON.
pub(crate) fn is_timer_taken_on(sheets: &[DrawnRung<'_>], block: BlockRef) -> bool {
    if block.sort == BlockSort::Timer {
        for sheet in sheets {
            if has_taken_on(sheet, block) {
                return true;
            }
        }
    }
    false
}

/// Adds a comment that says how many timers have a control that is taken as ON, if any has.
pub(crate) fn add_taken_on(text: &mut Text, count: u32) {
    if count > 0 {
        text.add_number(
            b"(* Control taken as ON where nothing is drawn to it; timers: ",
            count,
        );
        text.add(
            b".\n   The engine of ClassicLadder takes it as OFF, and never lets their time pass. *)\n",
        );
    }
}
