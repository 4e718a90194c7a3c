//! The reading of the files of a comparison, and its performance on them.

ghost use Rattle.std.specs.Prelude.{◌≡◌, ◌≤◌, ◌⊎◌, IfErr, IfOk, option_map, vec_items};
ghost use Rattle.io_text.specs.Log.{WriteLog};
ghost use Rattle.cli_inputs.specs.Reports.{logs, unread};
ghost use Rattle.cli_inputs.specs.Setting.{Given, given_by};
ghost use Rattle.cli_diff.specs.Ending.{RefusesOf};
ghost use Rattle.cli_diff.specs.AssumedEnding.{BreaksAllDiff, CountsAllDiff, HasAllDiffFault};
ghost use Rattle.cli_diff.specs.Files.{AreBothRead, IsSaidOf, StopsAtOne, diff_files};

use crate::comparing::compare;
use crate::sided::{SidedFault, of};
use crate::texts::DiffTexts;
use cli_arguments::DiffRequest;
use cli_inputs::{TextKind, Texts, read_named, read_one, report_unread_by};
use io_text::{Sink, Source};
use search_differences::Side;
use std::alloc::Global;

/// The readers of the files of a comparison: of both programs, and of their states where the request names them.
#[derive(Drop)]
pub struct DiffReaders<R: Source> {
    pub old_program: R,
    pub new_program: R,
    pub old_state: Option<R>,
    pub new_state: Option<R>,
}

/// How texts are spoken of: whether a fault is explained, and whether aliases are printed in place of names.
#[derive(Clone, Copy)]
pub struct Manner {
    pub why: bool,
    pub aliases: bool,
}

/// The texts of one program.
fn texts_of(program: Vec<u8>, state: Option<Vec<u8>>, manner: Manner) -> Texts
    ensures program { (given_by result).program ≡ program.items }
    ensures state { (given_by result).state ≡ option_map vec_items state }
    ensures why { result.why ≡ manner.why }
    ensures aliases { result.aliases ≡ manner.aliases }
{
    Texts {
        program,
        state,
        stimulus: None,
        trace: None,
        hal: None,
        why: manner.why,
        aliases: manner.aliases,
    }
}

/// Reads the texts of a comparison, up to the first that can't be read: the old program, the new one, and their states in this order.
///
/// # Errors
///
/// The fault of the first that can't be read, and of which program it is.
pub fn read_texts<R: Source>(
    alloc: Global,
    manner: Manner,
    readers: &mut DiffReaders<R>,
) -> Result<DiffTexts, SidedFault>
    ensures why { IfOk result (λ t. (t.old.why ≡ manner.why) × (t.new.why ≡ manner.why)) }
    ensures aliases { IfOk result (λ t. (t.old.aliases ≡ manner.aliases) × (t.new.aliases ≡ manner.aliases)) }
    ensures read { IfOk result (λ t. AreBothRead (diff_files (R.log readers.old.old_program) (R.log readers.old.new_program) (option_map R.log readers.old.old_state) (option_map R.log readers.old.new_state)) (given_by t.old) (given_by t.new)) }
    ensures fault { IfErr result (λ e. StopsAtOne (diff_files (R.log readers.old.old_program) (R.log readers.old.new_program) (option_map R.log readers.old.old_state) (option_map R.log readers.old.new_state))
        (diff_files (R.log readers.new.old_program) (R.log readers.new.new_program) (option_map R.log readers.new.old_state) (option_map R.log readers.new.new_state)) e.side e.fault) }
{
    let old = match read_one(alloc, TextKind::Program, &mut readers.old_program) {
        Ok(text) => text,
        Err(fault) => return Err(of(Side::Old, fault)),
    };
    let new = match read_one(alloc, TextKind::Program, &mut readers.new_program) {
        Ok(text) => text,
        Err(fault) => return Err(of(Side::New, fault)),
    };
    let state = match read_named(alloc, TextKind::State, &mut readers.old_state) {
        Ok(text) => text,
        Err(fault) => return Err(of(Side::Old, fault)),
    };
    match read_named(alloc, TextKind::State, &mut readers.new_state) {
        Ok(new_state) => Ok(DiffTexts {
            old: texts_of(old, state, manner),
            new: texts_of(new, new_state, manner),
        }),
        Err(fault) => Err(of(Side::New, fault)),
    }
}

/// Reads the texts of a comparison and performs it on them, as `compare` does. A text that can't be read is a fault, whose line is on `err`.
/// Returns the status: 0 where all was written, 1 where a fault stopped it.
pub fn compare_files<R: Source, O: Sink, E: Sink>(
    alloc: Global,
    request: &DiffRequest,
    readers: &mut DiffReaders<R>,
    out: &mut O,
    err: &mut E,
) -> u8
    ensures status { result ≤ 1 }
    ensures done { (save : WriteLog) → result ≡ 0 → (g h : Given) × IsSaidOf g request.now × IsSaidOf h request.now
        × AreBothRead (diff_files (R.log readers.old.old_program) (R.log readers.old.new_program) (option_map R.log readers.old.old_state) (option_map R.log readers.old.new_state)) g h
        × CountsAllDiff g h request.now (logs (O.log out.old) save (E.log err.old)) (logs (O.log out.new) save (E.log err.new)) }
    ensures failed { (save : WriteLog) → result ≡ 1
        → RefusesOf (unread request.now.why) (unread request.now.why) (StopsAtOne (diff_files (R.log readers.old.old_program) (R.log readers.old.new_program) (option_map R.log readers.old.old_state) (option_map R.log readers.old.new_state))
        (diff_files (R.log readers.new.old_program) (R.log readers.new.new_program) (option_map R.log readers.new.old_state) (option_map R.log readers.new.new_state)))
        (logs (O.log out.old) save (E.log err.old)) (logs (O.log out.new) save (E.log err.new))
        ⊎ ((g h : Given) × IsSaidOf g request.now × IsSaidOf h request.now
        × AreBothRead (diff_files (R.log readers.old.old_program) (R.log readers.old.new_program) (option_map R.log readers.old.old_state) (option_map R.log readers.old.new_state)) g h
        × (RefusesOf g h (HasAllDiffFault g h request.now) (logs (O.log out.old) save (E.log err.old)) (logs (O.log out.new) save (E.log err.new))
        ⊎ BreaksAllDiff g h request.now (logs (O.log out.old) save (E.log err.old)) (logs (O.log out.new) save (E.log err.new)))) }
{
    let manner = Manner {
        why: request.why,
        aliases: request.aliases,
    };
    match read_texts(alloc, manner, readers) {
        Ok(texts) => {
            let status = compare(alloc, request, &texts, out, err);
            drop(texts);
            status
        }
        Err(fault) => report_unread_by(fault.side, request.why, &fault.fault, err),
    }
}
