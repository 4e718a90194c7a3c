//! What several requests name: a scan, its sources, the inputs that are listed, a time between scans.

ghost use Rattle.std.specs.Prelude.{◌≡◌, ◌++◌, ℕ, Bool, List, codes, IfOk, IfErr, map, string_bytes, None, Option, Some, true, false};
ghost use Rattle.clap.specs.Words.{Text, first_of, found_of, rows_of};
ghost use Rattle.cli_arguments.specs.Asking.{AssumesNothing, HasCoil, HasEvery, HasInputs, HasOption, NamesList, input_texts};
ghost use Rattle.cli_arguments.specs.Parts.{HasSources, NamesScan, IsUncut, NamesNoEnd, IsOfOneScan};
ghost use Rattle.cli_arguments.specs.Faults.{UsageWhere};

use crate::found::{copied, is_given, is_set, number, optional, text, texts};
use crate::request::{ListRequest, WordFault};
use clap::ArgMatches;
use std::alloc::Global;

/// The time from each scan to the next where no word says otherwise, in ms.
const EVERY: u64 = 10;

/// The time from each scan to the next, in ms.
pub(crate) fn every_of(found: &ArgMatches<'_>) -> Result<u64, WordFault>
    ensures ok { IfOk result (λ e. HasEvery e (rows_of (found_of found.now))) }
    ensures err { IfErr result (UsageWhere ((e : ℕ) → HasEvery e (rows_of (found_of found.now)) → ⊥)) }
{
    let every = number(found, "every")?;
    Ok(every.unwrap_or(EVERY))
}

/// The scan, the coil and the inputs that a list is asked of, what is assumed of inputs, and the limit of rows.
pub(crate) fn list_of(alloc: Global, found: &ArgMatches<'_>) -> Result<ListRequest, WordFault>
    ensures ok { IfOk result (NamesList (rows_of (found_of found.now))) }
    ensures err { IfErr result (UsageWhere ((l : ListRequest) → NamesList (rows_of (found_of found.now)) l → ⊥)) }
{
    let limit = number(found, "limit")?;
    let quiet = is_set(found, "quiet");
    let coil = coil_of(alloc, found)?;
    let assumed = texts(alloc, found, "assume")?;
    let NamedScan {
        state,
        moment,
        file,
        all_inputs,
        inputs,
    } = scan_of(alloc, found)?;
    Ok(ListRequest {
        state,
        moment,
        limit,
        quiet,
        file,
        coil,
        all_inputs,
        inputs,
        assumed,
    })
}

/// The name of the coil, which is empty where each coil is meant.
fn coil_of(alloc: Global, found: &ArgMatches<'_>) -> Result<String, WordFault>
    ensures ok { IfOk result (λ s. HasCoil (rows_of (found_of found.now)) (string_bytes s)) }
    ensures err { IfErr result (UsageWhere ((name : Text) → HasCoil (rows_of (found_of found.now)) name → ⊥)) }
{
    if is_given(found, "all-coils") {
        return Ok(String::new(alloc));
    }
    text(alloc, found, "coil")
}

/// The scan that is asked of: the state in which it begins, its moment, the program text and the inputs that are listed.
#[derive(Drop)]
pub(crate) struct NamedScan {
    pub state: Option<String>,
    pub moment: Option<u64>,
    pub file: String,
    pub all_inputs: bool,
    pub inputs: Vec<String>,
}

/// The scan that is named: its program, its state, its moment and its inputs.
pub(crate) fn scan_of(alloc: Global, found: &ArgMatches<'_>) -> Result<NamedScan, WordFault>
    ensures ok { IfOk result (NamesScan (rows_of (found_of found.now))) }
    ensures err { IfErr result (UsageWhere ((s : NamedScan) → NamesScan (rows_of (found_of found.now)) s → ⊥)) }
{
    let moment = number(found, "at")?;
    let InputNames { all, names } = inputs_of(alloc, found)?;
    let Sources { state, file } = sources_of(alloc, found)?;
    Ok(NamedScan {
        state,
        moment,
        file,
        all_inputs: all,
        inputs: names,
    })
}

/// What is read: the state and the program text.
#[derive(Drop)]
pub(crate) struct Sources {
    pub state: Option<String>,
    pub file: String,
}

/// The files of the program and of the state.
pub(crate) fn sources_of(alloc: Global, found: &ArgMatches<'_>) -> Result<Sources, WordFault>
    ensures ok { IfOk result (HasSources (rows_of (found_of found.now))) }
    ensures err { IfErr result (UsageWhere (first_of (codes "file") (rows_of (found_of found.now)) ≡ None)) }
{
    let state = optional(alloc, found, "state")?;
    let file = text(alloc, found, "file")?;
    Ok(Sources { state, file })
}

/// The inputs that are listed: all, or those of these names.
#[derive(Drop)]
pub(crate) struct InputNames {
    pub all: bool,
    pub names: Vec<String>,
}

/// The listed inputs: their names, or all inputs by a flag, but not both.
pub(crate) fn inputs_of(alloc: Global, found: &ArgMatches<'_>) -> Result<InputNames, WordFault>
    ensures ok { IfOk result (λ l. HasInputs (rows_of (found_of found.now)) l.all (map string_bytes l.names.items)) }
    ensures err { IfErr result (UsageWhere ((all : Bool) (names : List Text) → HasInputs (rows_of (found_of found.now)) all names → ⊥)) }
{
    let all = is_set(found, "all-inputs");
    let names = input_names(alloc, found)?;
    if all && !names.is_empty() {
        return Err(WordFault::Usage);
    }
    Ok(InputNames { all, names })
}

/// The names of the listed inputs. With `--all-coils` no coil is named, so what is in its place is the first input.
fn input_names(alloc: Global, found: &ArgMatches<'_>) -> Result<Vec<String>, WordFault>
    ensures ok { IfOk result (λ v. input_texts (rows_of (found_of found.now)) ≡ map string_bytes v.items) }
    ensures err { IfErr result (λ e. e ≡ WordFault.Memory) }
{
    if !is_given(found, "all-coils") {
        return texts(alloc, found, "inputs");
    }
    let first = texts(alloc, found, "coil")?;
    match found.get_strs("inputs") {
        Some(others) => with_copies(alloc, first, others),
        None => Ok(first),
    }
}

/// These texts, and after them copies of others.
fn with_copies(alloc: Global, texts: Vec<String>, others: &[&str]) -> Result<Vec<String>, WordFault>
    ensures ok { IfOk result (λ v. map string_bytes v.items ≡ map string_bytes texts.items ++ map (λ s. s.now) others.now) }
    ensures err { IfErr result (λ e. e ≡ WordFault.Memory) }
{
    let mut all = texts;
    for text in others {
        let copy = copied(alloc, text)?;
        if all.push(copy).is_err() {
            return Err(WordFault::Memory);
        }
    }
    Ok(all)
}

/// Whether a list is to end at a number, or to report how far it is.
pub(crate) fn names_end(found: &ArgMatches<'_>) -> bool
    ensures none { result ≡ false → NamesNoEnd (rows_of (found_of found.now)) }
    ensures some { result ≡ true → NamesNoEnd (rows_of (found_of found.now)) → ⊥ }
{
    is_given(found, "upto") || is_set(found, "progress")
}

/// Whether something is assumed of inputs, by the request or by the program text.
pub(crate) fn assumes(found: &ArgMatches<'_>) -> bool
    ensures none { result ≡ false → AssumesNothing (rows_of (found_of found.now)) }
    ensures some { result ≡ true → AssumesNothing (rows_of (found_of found.now)) → ⊥ }
{
    is_given(found, "assume") || is_set(found, "assumed")
}

/// Whether a list is to begin after a number, to end at one, or to report how far it is.
pub(crate) fn is_part(found: &ArgMatches<'_>) -> bool
    ensures whole { result ≡ false → IsUncut (rows_of (found_of found.now)) }
    ensures part { result ≡ true → IsUncut (rows_of (found_of found.now)) → ⊥ }
{
    is_given(found, "after") || names_end(found)
}

/// Whether several scans are asked for, a number to begin after or to end at, or lines of how far the list is.
pub(crate) fn is_counted(found: &ArgMatches<'_>) -> bool
    ensures one { result ≡ false → IsOfOneScan (rows_of (found_of found.now)) }
    ensures several { result ≡ true → IsOfOneScan (rows_of (found_of found.now)) → ⊥ }
{
    is_given(found, "scans") || is_given(found, "for") || is_given(found, "every") || is_part(found)
}
