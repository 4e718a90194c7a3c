//! The coils that a request for each coil is made for, and what is refused whichever coil it is.

ghost use Rattle.std.specs.Prelude.{◌≡◌, IfOk, map, string_bytes};
ghost use Rattle.causes_query.specs.Causes.{question};
ghost use Rattle.causes_query.specs.Refusal.{refusal};
ghost use Rattle.cli_inputs.specs.Setting.{given_by};
ghost use Rattle.cli_perform.specs.CoilNames.{coil_names};
ghost use Rattle.cli_perform.specs.Coils.{HasCoils};

use crate::coils::coil_names;
use causes_query::CauseFault;
use causes_query::refusal::refusal;
use cli_arguments::{ListRequest, PossibleRequest, Request};
use cli_assumed::{check_satisfiable, read_assumed};
use cli_inputs::{
    CauseVariables, Setting, Texts, ToolFault, asked_variables, moment, read_setting,
};
use scan_held::{Scans, are_no_scans};
use search_groups::BITS_LIMIT;
use std::alloc::Global;

/// Reads the texts, and returns the names of the coils that the request is to be made for.
///
/// # Errors
///
/// A fault of the texts, of the names of the inputs, or of what is asked: one that the request has with each coil.
pub(crate) fn read_coils(
    alloc: Global,
    request: &Request,
    texts: &Texts,
) -> Result<Vec<String>, ToolFault>
    ensures coils { IfOk result (λ names. HasCoils (given_by texts.now) (map string_bytes names.items)) }
{
    let setting = match read_setting(alloc, texts) {
        Ok(setting) => setting,
        Err(fault) => return Err(fault),
    };
    let coils = coils_for(alloc, request, &setting);
    drop(setting);
    coils
}

/// The names of the coils of a program, where the request can be made of them.
fn coils_for(alloc: Global, request: &Request, setting: &Setting) -> Result<Vec<String>, ToolFault>
    ensures { IfOk result (λ names. map string_bytes names.items ≡ coil_names setting.now.program) }
{
    let Ok(names) = coil_names(alloc, &setting.program) else {
        return Err(ToolFault::Memory);
    };
    let [first, ..] = names.as_slice() else {
        return Ok(names);
    };
    match check_for(alloc, request, setting, first) {
        Ok(()) => Ok(names),
        Err(fault) => {
            drop(names);
            Err(fault)
        }
    }
}

/// Refuses a request, asked of one coil, for a reason that holds of every coil.
fn check_for(
    alloc: Global,
    request: &Request,
    setting: &Setting,
    coil: &String,
) -> Result<(), ToolFault> {
    match request {
        Request::Causes { list, after, upto } | Request::Progress { list, after, upto } => {
            check_list(alloc, list, *after, setting, coil)?;
            // A number to end at is refused as one to begin after.
            check_list(alloc, list, *upto, setting, coil)
        }
        Request::Groups { list, .. } => check_list(alloc, list, None, setting, coil),
        Request::Held {
            list,
            scans,
            every,
            grouped,
        } => {
            let scans = Scans {
                count: *scans,
                every: *every,
            };
            check_held(alloc, list, scans, *grouped, setting, coil)
        }
        Request::Relevant { list, .. } => check_relevant(alloc, list, setting, coil),
        Request::Possible(possible) => check_possible(alloc, possible, setting, coil),
        Request::Check { .. }
        | Request::Never(_)
        | Request::Reach(_)
        | Request::Show(_)
        | Request::Film(_)
        | Request::Sim(_)
        | Request::Watch(_)
        | Request::Expect(_)
        | Request::Waves(_)
        | Request::Uses { .. }
        | Request::Import(_)
        | Request::Draw { .. }
        | Request::Export(_) => Ok(()),
    }
}

/// The first rule that a question about a coil breaks at this moment.
fn refused(
    setting: &Setting,
    now: u64,
    named: &CauseVariables,
    after: Option<u64>,
) -> Option<CauseFault>
    ensures { result ≡ refusal (question setting.now.program setting.now.state now named.now.coil named.now.inputs.items) after }
{
    refusal(
        &setting.program,
        &setting.state,
        now,
        named.coil,
        &named.inputs,
        after,
    )
}

/// The coil and the inputs of a list.
fn named_in(
    alloc: Global,
    list: &ListRequest,
    setting: &Setting,
    coil: &String,
) -> Result<CauseVariables, ToolFault> {
    asked_variables(
        alloc,
        setting.program.decls(),
        coil.as_str(),
        list.all_inputs,
        &list.inputs,
    )
}

/// Refuses what breaks a rule at this moment.
fn check_rules(
    setting: &Setting,
    now: u64,
    named: &CauseVariables,
    after: Option<u64>,
) -> Result<(), ToolFault> {
    match refused(setting, now, named, after) {
        Some(fault) => Err(ToolFault::Cause(fault)),
        None => Ok(()),
    }
}

/// Refuses a list of one scan that can't be made of this coil, before the first list is written.
fn check_list(
    alloc: Global,
    list: &ListRequest,
    after: Option<u64>,
    setting: &Setting,
    coil: &String,
) -> Result<(), ToolFault> {
    let named = named_in(alloc, list, setting, coil)?;
    check_assumed(alloc, list, setting)?;
    let now = moment(list.moment, setting.state.moment());
    check_rules(setting, now, &named, after)
}

/// Refuses what is assumed of the inputs where it can't be read.
fn check_assumed(alloc: Global, list: &ListRequest, setting: &Setting) -> Result<(), ToolFault> {
    match read_assumed(alloc, &setting.program, &list.assumed) {
        Ok(assumed) => {
            drop(assumed);
            Ok(())
        }
        Err(fault) => Err(fault),
    }
}

/// Refuses a list over several scans that can't be made of this coil.
fn check_held(
    alloc: Global,
    list: &ListRequest,
    scans: Scans,
    grouped: bool,
    setting: &Setting,
    coil: &String,
) -> Result<(), ToolFault> {
    let named = named_in(alloc, list, setting, coil)?;
    check_assumed(alloc, list, setting)?;
    if grouped && is_too_wide(&named) {
        return Err(ToolFault::Cause(CauseFault::TooManyFree));
    }
    let now = moment(list.moment, setting.state.moment());
    check_rules(setting, now, &named, None)?;
    if are_no_scans(now, scans) {
        return Err(ToolFault::NoScans);
    }
    Ok(())
}

/// Whether there are too many inputs for a list that is made from a table of all numbers.
fn is_too_wide(named: &CauseVariables) -> bool {
    named.inputs.len() > BITS_LIMIT as usize
}

/// Refuses a list over the inputs that matter for its moment; what would be refused of these inputs depends on the coil.
fn check_relevant(
    alloc: Global,
    list: &ListRequest,
    setting: &Setting,
    coil: &String,
) -> Result<(), ToolFault> {
    let named = asked_variables(alloc, setting.program.decls(), coil.as_str(), false, &[])?;
    check_assumed(alloc, list, setting)?;
    let now = moment(list.moment, setting.state.moment());
    check_rules(setting, now, &named, None)
}

/// Refuses what is assumed of the inputs where it can't be read, or where no values of them make it true.
fn check_anywhere(alloc: Global, texts: &[String], setting: &Setting) -> Result<(), ToolFault> {
    match read_assumed(alloc, &setting.program, texts) {
        Ok(assumed) => {
            let checked = check_satisfiable(alloc, assumed.as_ref());
            drop(assumed);
            checked
        }
        Err(fault) => Err(fault),
    }
}

/// Refuses a list over any state that can't be made of this coil.
fn check_possible(
    alloc: Global,
    possible: &PossibleRequest,
    setting: &Setting,
    coil: &String,
) -> Result<(), ToolFault> {
    let named = asked_variables(
        alloc,
        setting.program.decls(),
        coil.as_str(),
        possible.all_inputs,
        &possible.inputs,
    )?;
    check_anywhere(alloc, &possible.assumed, setting)?;
    if possible.grouped && is_too_wide(&named) {
        return Err(ToolFault::Cause(CauseFault::TooManyFree));
    }
    check_rules(setting, setting.state.moment(), &named, None)
}
