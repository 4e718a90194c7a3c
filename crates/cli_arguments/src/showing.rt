//! The requests of the subcommand `show`.

ghost use Rattle.std.specs.Prelude.{◌≡◌, [], true, false, codes, IfOk, IfErr, None};
ghost use Rattle.clap.specs.Words.{Text, found_of, rows_of};
ghost use Rattle.cli_arguments.specs.Asking.{Asks, AsksNone, HasInputs, HasMedium, HasOption, NamesAssumptions, input_texts};
ghost use Rattle.cli_arguments.specs.Parts.{IsOfRecords};
ghost use Rattle.cli_arguments.specs.Faults.{UsageWhere};

use crate::found::{is_given, is_set, number, optional, texts};
use crate::parts::{NamedScan, assumes, scan_of};
use crate::request::{FilmRequest, Medium, Request, ShowRequest, WordFault};
use crate::simulating::{Played, played_of};
use clap::ArgMatches;
use std::alloc::Global;

/// The request of `show`: the drawing of one scan, or the film of a stimulus.
pub(crate) fn show_request(alloc: Global, found: &ArgMatches<'_>) -> Result<Request, WordFault>
    ensures ok { IfOk result (Asks (codes "show") (rows_of (found_of found.now))) }
    ensures err { IfErr result (UsageWhere (AsksNone (codes "show") (rows_of (found_of found.now)))) }
{
    if is_given(found, "stimulus") {
        return film_request(alloc, found);
    }
    scan_request(alloc, found)
}

/// The request for the drawing of one scan.
fn scan_request(alloc: Global, found: &ArgMatches<'_>) -> Result<Request, WordFault>
    requires { HasOption (codes "stimulus") (rows_of (found_of found.now)) None }
    ensures ok { IfOk result (Asks (codes "show") (rows_of (found_of found.now))) }
    ensures err { IfErr result (UsageWhere (AsksNone (codes "show") (rows_of (found_of found.now)))) }
{
    let medium = medium_of(found);
    check_page(medium, found)?;
    let number = number(found, "number")?;
    let coil = optional(alloc, found, "coil")?;
    let assumed = texts(alloc, found, "assume")?;
    let NamedScan {
        state,
        moment,
        file,
        all_inputs,
        inputs,
    } = scan_of(alloc, found)?;
    Ok(Request::Show(ShowRequest {
        state,
        moment,
        number,
        medium,
        coil,
        file,
        all_inputs,
        inputs,
        assumed,
    }))
}

/// Refuses what is assumed of inputs where a page is asked for, which doesn't name it.
fn check_page(medium: Medium, found: &ArgMatches<'_>) -> Result<(), WordFault>
    ensures ok { IfOk result (λ u. NamesAssumptions medium (rows_of (found_of found.now))) }
    ensures err { IfErr result (UsageWhere (NamesAssumptions medium (rows_of (found_of found.now)) → ⊥)) }
{
    match medium {
        Medium::Text => Ok(()),
        Medium::Page => {
            if assumes(found) {
                return Err(WordFault::Usage);
            }
            Ok(())
        }
    }
}

/// The request for the film of a stimulus, which takes its moments and inputs from the records.
fn film_request(alloc: Global, found: &ArgMatches<'_>) -> Result<Request, WordFault>
    requires { HasOption (codes "stimulus") (rows_of (found_of found.now)) None → ⊥ }
    ensures ok { IfOk result (Asks (codes "show") (rows_of (found_of found.now))) }
    ensures err { IfErr result (UsageWhere (AsksNone (codes "show") (rows_of (found_of found.now)))) }
{
    // Each record has its moment and its inputs.
    if names_scan(found) {
        return Err(WordFault::Usage);
    }
    let medium = medium_of(found);
    let explained = optional(alloc, found, "coil")?;
    let Played {
        state,
        file,
        stimulus,
    } = played_of(alloc, found)?;
    Ok(Request::Film(FilmRequest {
        state,
        medium,
        coil: explained,
        file,
        stimulus,
    }))
}

/// Whether one scan is described: by a moment, a number or inputs, or something is assumed of it.
fn names_scan(found: &ArgMatches<'_>) -> bool
    ensures none { result ≡ false → IsOfRecords (rows_of (found_of found.now)) }
    ensures some { result ≡ true → IsOfRecords (rows_of (found_of found.now)) → ⊥ }
{
    is_given(found, "at") || is_given(found, "number") || lists_inputs(found) || assumes(found)
}

/// Whether inputs are listed.
pub(crate) fn lists_inputs(found: &ArgMatches<'_>) -> bool
    ensures none { result ≡ false → HasInputs (rows_of (found_of found.now)) false [] }
    ensures some { result ≡ true → HasInputs (rows_of (found_of found.now)) false [] → ⊥ }
{
    is_set(found, "all-inputs") || names_inputs(found)
}

/// Whether inputs are named, also in the place of the coil where each is meant.
fn names_inputs(found: &ArgMatches<'_>) -> bool
    ensures none { result ≡ false → input_texts (rows_of (found_of found.now)) ≡ [] }
    ensures some { result ≡ true → input_texts (rows_of (found_of found.now)) ≡ [] → ⊥ }
{
    if is_given(found, "inputs") {
        return true;
    }
    is_given(found, "all-coils") && is_given(found, "coil")
}

/// Whether a drawing is written as text or as a page of HTML.
fn medium_of(found: &ArgMatches<'_>) -> Medium
    ensures { HasMedium result (rows_of (found_of found.now)) }
{
    if is_set(found, "html") {
        Medium::Page
    } else {
        Medium::Text
    }
}
