//! What was found of an option or an argument.

ghost use Rattle.std.specs.Prelude.{◌≡◌, ℕ, [], true, false, IfOk, IfErr, map, option_map, string_bytes, unwrap_or, None, Option, Some};
ghost use Rattle.clap.specs.Words.{all_of, first_of, found_of, rows_of};
ghost use Rattle.cli_arguments.specs.Asking.{HasNumber, HasOption, HasSwitch};
ghost use Rattle.cli_arguments.specs.Faults.{UsageWhere};

use crate::request::WordFault;
use clap::ArgMatches;
use std::alloc::Global;

/// Whether a flag was given.
pub(crate) fn is_set(found: &ArgMatches<'_>, id: &str) -> bool
    ensures { HasSwitch id.now (rows_of (found_of found.now)) result }
{
    match found.get_str(id) {
        Some(text) => text == "true",
        None => false,
    }
}

/// Whether an option was given.
pub(crate) fn is_given(found: &ArgMatches<'_>, id: &str) -> bool
    ensures absent { result ≡ false → HasOption id.now (rows_of (found_of found.now)) None × HasNumber id.now (rows_of (found_of found.now)) None }
    ensures given { result ≡ true → (HasOption id.now (rows_of (found_of found.now)) None → ⊥) × (HasNumber id.now (rows_of (found_of found.now)) None → ⊥) }
{
    found.get_str(id).is_some()
}

/// The text of an option, where it was given.
pub(crate) fn optional(
    alloc: Global,
    found: &ArgMatches<'_>,
    id: &str,
) -> Result<Option<String>, WordFault>
    ensures ok { IfOk result (λ o. HasOption id.now (rows_of (found_of found.now)) (option_map string_bytes o)) }
    ensures err { IfErr result (λ e. e ≡ WordFault.Memory) }
{
    match found.get_str(id) {
        Some(text) => {
            let copy = copied(alloc, text)?;
            Ok(Some(copy))
        }
        None => Ok(None),
    }
}

/// The number of an option, where it was given.
pub(crate) fn number(found: &ArgMatches<'_>, id: &str) -> Result<Option<u64>, WordFault>
    ensures ok { IfOk result (HasNumber id.now (rows_of (found_of found.now))) }
    ensures err { IfErr result (UsageWhere ((o : Option ℕ) → HasNumber id.now (rows_of (found_of found.now)) o → ⊥)) }
{
    match found.try_get_one::<u64>(id) {
        Ok(number) => Ok(number),
        Err(_) => Err(WordFault::Usage),
    }
}

/// The text of an argument that has to be given.
pub(crate) fn text(alloc: Global, found: &ArgMatches<'_>, id: &str) -> Result<String, WordFault>
    ensures ok { IfOk result (λ s. first_of id.now (rows_of (found_of found.now)) ≡ Some (string_bytes s)) }
    ensures err { IfErr result (UsageWhere (first_of id.now (rows_of (found_of found.now)) ≡ None)) }
{
    match found.get_str(id) {
        Some(text) => copied(alloc, text),
        None => Err(WordFault::Usage),
    }
}

/// The texts of an argument that can be given several times.
pub(crate) fn texts(
    alloc: Global,
    found: &ArgMatches<'_>,
    id: &str,
) -> Result<Vec<String>, WordFault>
    ensures ok { IfOk result (λ v. unwrap_or (all_of id.now (rows_of (found_of found.now))) [] ≡ map string_bytes v.items) }
    ensures err { IfErr result (λ e. e ≡ WordFault.Memory) }
{
    match found.get_strs(id) {
        Some(all) => copies_of(alloc, all),
        None => Ok(Vec::new(alloc)),
    }
}

/// Copies of several texts, which the request keeps.
fn copies_of(alloc: Global, all: &[&str]) -> Result<Vec<String>, WordFault>
    ensures ok { IfOk result (λ v. map string_bytes v.items ≡ map (λ s. s.now) all.now) }
    ensures err { IfErr result (λ e. e ≡ WordFault.Memory) }
{
    let mut copies = Vec::new(alloc);
    for text in all {
        let copy = copied(alloc, text)?;
        if copies.push(copy).is_err() {
            return Err(WordFault::Memory);
        }
    }
    Ok(copies)
}

/// A copy of a text, which the request keeps.
pub(crate) fn copied(alloc: Global, text: &str) -> Result<String, WordFault>
    ensures ok { IfOk result (λ s. string_bytes s ≡ text.now) }
    ensures err { IfErr result (λ e. e ≡ WordFault.Memory) }
{
    match String::from_str(alloc, text) {
        Ok(copy) => Ok(copy),
        Err(_) => Err(WordFault::Memory),
    }
}
