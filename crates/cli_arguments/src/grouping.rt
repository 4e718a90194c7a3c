//! The requests for groups of causes: their form, and the order of their inputs.

ghost use Rattle.std.specs.Prelude.{◌≡◌, [], true, false, codes, IfOk, IfErr, None, Some};
ghost use Rattle.clap.specs.Words.{found_of, rows_of};
ghost use Rattle.cli_arguments.specs.Asking.{Asks, AsksNone, HasFlag, HasForm, HasGrouping, HasInputs, HasOption, HasOrder, IsNamed, IsOfOneState, IsSingle, IsWhole};
ghost use Rattle.cli_arguments.specs.Parts.{MayLast, NamesNoEnd};
ghost use Rattle.cli_arguments.specs.Faults.{UsageWhere};

use crate::found::{is_given, is_set, number, text};
use crate::parts::{is_counted, list_of};
use crate::request::{GroupFormat, Grouping, InputOrder, Request, WordFault};
use clap::ArgMatches;
use std::alloc::Global;

/// Refuses the flags for the form and the order of groups, which go with the groups of one scan in one state alone.
pub(crate) fn refuse_grouping(found: &ArgMatches<'_>) -> Result<(), WordFault>
    ensures ok { IfOk result (λ u. HasForm GroupFormat.Table (rows_of (found_of found.now)) × HasOrder InputOrder.Given (rows_of (found_of found.now))) }
    ensures err { IfErr result (UsageWhere (HasForm GroupFormat.Table (rows_of (found_of found.now)) → HasOrder InputOrder.Given (rows_of (found_of found.now)) → ⊥)) }
{
    if is_set(found, "terms") || is_set(found, "st") {
        return Err(WordFault::Usage);
    }
    match order_of(found)? {
        InputOrder::Given => Ok(()),
        InputOrder::Sifted => Err(WordFault::Usage),
    }
}

/// The request for the groups of one scan.
pub(crate) fn groups_request(alloc: Global, found: &ArgMatches<'_>) -> Result<Request, WordFault>
    requires one_state { IsOfOneState (rows_of (found_of found.now)) }
    requires named { HasFlag (codes "relevant") (rows_of (found_of found.now)) → ⊥ }
    requires grouped { HasFlag (codes "grouped") (rows_of (found_of found.now)) }
    requires lasting { MayLast None (rows_of (found_of found.now)) }
    ensures ok { IfOk result (Asks (codes "causes") (rows_of (found_of found.now))) }
    ensures err { IfErr result (UsageWhere (AsksNone (codes "causes") (rows_of (found_of found.now)))) }
{
    // One scan has none that follows, and a group has no number, so there is none to begin after, to end at or to tell.
    if is_counted(found) {
        return Err(WordFault::Usage);
    }
    let grouping = grouping_of(found)?;
    let list = list_of(alloc, found)?;
    Ok(Request::Groups { list, grouping })
}

/// The request for the groups over the inputs that matter.
pub(crate) fn relevant_groups(alloc: Global, found: &ArgMatches<'_>) -> Result<Request, WordFault>
    requires one_state { IsOfOneState (rows_of (found_of found.now)) }
    requires relevant { HasFlag (codes "relevant") (rows_of (found_of found.now)) }
    requires inputs { HasInputs (rows_of (found_of found.now)) false [] }
    requires single { IsSingle (rows_of (found_of found.now)) }
    requires whole { NamesNoEnd (rows_of (found_of found.now)) }
    requires grouped { HasFlag (codes "grouped") (rows_of (found_of found.now)) }
    ensures ok { IfOk result (Asks (codes "causes") (rows_of (found_of found.now))) }
    ensures err { IfErr result (UsageWhere (AsksNone (codes "causes") (rows_of (found_of found.now)))) }
{
    // A group has no number, so there is none to begin after.
    if is_given(found, "after") {
        return Err(WordFault::Usage);
    }
    let grouping = grouping_of(found)?;
    let list = list_of(alloc, found)?;
    Ok(Request::Relevant {
        list,
        after: None,
        grouping: Some(grouping),
    })
}

/// The form and the order in which groups are asked for; a statement that would be cut off is refused.
pub(crate) fn grouping_of(found: &ArgMatches<'_>) -> Result<Grouping, WordFault>
    ensures ok { IfOk result (HasGrouping (rows_of (found_of found.now))) }
    ensures err { IfErr result (UsageWhere ((g : Grouping) → HasGrouping (rows_of (found_of found.now)) g → ⊥)) }
{
    let form = form_of(found)?;
    let order = order_of(found)?;
    // A statement that is cut off says something else.
    if is_cut(found, form) {
        return Err(WordFault::Usage);
    }
    Ok(Grouping { form, order })
}

/// Whether a limit is asked for with a statement: cut off, it would say something else.
fn is_cut(found: &ArgMatches<'_>, form: GroupFormat) -> bool
    ensures whole { result ≡ false → IsWhole form (rows_of (found_of found.now)) }
    ensures cut { result ≡ true → IsWhole form (rows_of (found_of found.now)) → ⊥ }
{
    match form {
        GroupFormat::Statement => is_given(found, "limit"),
        GroupFormat::Table | GroupFormat::Terms => false,
    }
}

/// The form in which groups are asked for by a flag: a table, terms or a statement.
fn form_of(found: &ArgMatches<'_>) -> Result<GroupFormat, WordFault>
    ensures ok { IfOk result (λ f. HasForm f (rows_of (found_of found.now))) }
    ensures err { IfErr result (UsageWhere ((f : GroupFormat) → HasForm f (rows_of (found_of found.now)) → ⊥)) }
{
    match (is_set(found, "terms"), is_set(found, "st")) {
        (false, false) => Ok(GroupFormat::Table),
        (true, false) => Ok(GroupFormat::Terms),
        // An alias is no name of Structured Text.
        (false, true) if is_set(found, "aliases") => Err(WordFault::Usage),
        (false, true) => Ok(GroupFormat::Statement),
        (true, true) => Err(WordFault::Usage),
    }
}

/// The order of the inputs that `--order` asks for.
fn order_of(found: &ArgMatches<'_>) -> Result<InputOrder, WordFault>
    ensures ok { IfOk result (λ o. HasOrder o (rows_of (found_of found.now))) }
    ensures err { IfErr result (UsageWhere ((o : InputOrder) → HasOrder o (rows_of (found_of found.now)) → ⊥)) }
{
    match found.get_str("order") {
        None => Ok(InputOrder::Given),
        Some(text) => order_named(text),
    }
}

/// The order of the inputs with this name, as the option `--order` has it.
fn order_named(name: &str) -> Result<InputOrder, WordFault>
    ensures ok { IfOk result (IsNamed name.now) }
    ensures err { IfErr result (UsageWhere ((o : InputOrder) → IsNamed name.now o → ⊥)) }
{
    match name {
        "given" => Ok(InputOrder::Given),
        "auto" => Ok(InputOrder::Sifted),
        _ => Err(WordFault::Usage),
    }
}
