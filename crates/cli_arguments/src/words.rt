//! From the arguments of a command line to a request.

ghost use Rattle.std.specs.Prelude.{◌≡◌, ⊤, [], Bool, codes, IfSome, IsSome, OnOk, IfOk, IfErr, map, string_bytes, None, Some};
ghost use Rattle.std.specs.List.{list_all};
ghost use Rattle.clap.specs.Words.{Text, found_of, kind_of, rows_of, subcommand_rows_of};
ghost use Rattle.clap.specs.Words.{fault_of as clap_fault};
ghost use Rattle.cli_options.specs.CommandLine.{ladder_app};
ghost use Rattle.cli_options.specs.Pages.{is_fault_code};
ghost use Rattle.cli_arguments.specs.Asking.{Asks, AsksBy, AsksNone, HasControl, HasExcluded, HasLanguage, HasNoTask, HasTask, Says};
ghost use Rattle.cli_arguments.specs.Faults.{IsFaultOf, IsTold, SaysOf, TellsUsage, UsageWhere};
ghost use Rattle.cli_usage.specs.Rules.{Breaks};

use crate::causes::causes_request;
use crate::comparing::diff_task;
use crate::found::{copied, is_set, optional, text, texts};
use crate::parts::{Sources, sources_of};
use crate::reaching::reach_request;
use crate::request::{
    AllCoils, CommandLine, Excluded, ExportRequest, ImportRequest, Language, NeverRequest, Request,
    Task, WordFault,
};
use crate::showing::show_request;
use crate::simulating::sim_request;
use clap::ArgMatches;
use clap::error::ErrorKind;
use cli_options::{ladder, page_of};
use cli_usage::{Broken, broken_rule, rules_of, shared_rules_of};
use std::alloc::Global;

/// Reads what a command line asks for. Its first word is the program's name.
///
/// # Errors
///
/// `Mistake` where `clap` finds a fault other than that help is asked for, with what it says of it, or `Usage` when there is no memory for that; `Usage` where a fault has none of the named codes, where groups of one scan or a list over several scans are to begin after a
/// number, to end at one or to tell how far they are, where a list over the inputs that matter is to end at a number or to tell how far it is, where a time between scans is asked for without several scans, several scans by their number and by a time, where a form or the order `auto` is asked for without groups of one scan in one state, or both forms, or a statement with a limit, or an order that has another name, where
/// neither a coil is named nor each meant, where inputs are named beside all of them, where those that matter are asked for and others are listed, or several scans or any state are asked of, where any state is asked of and a moment, a number to begin after or to end at, lines of how far the list is, several scans, a time between scans, a form or the order `auto` is named as well, where it is said which states count, or how long a search is, or runs are asked for, and any state isn't asked of, where runs are asked for from states in which the coil is OFF, from every state or in groups, where any state is asked of without runs and a state or a number of states is named, where a stimulus is to be shown with a moment, a number or listed inputs, or a waveform to be written with a saved state or with what is watched, where something is assumed of inputs, by the request or by its text, and any state is asked of as well, where names are watched beside all of them, where the scans of a run are limited in number without a time between them, or a gap is named beside that time, where the control input of timers is to be anything but `on`, where the language of an export is not named or both are, and nowhere else; `Help` with its text where help is asked for; `Memory` when out of memory.
pub fn read_words(alloc: Global, words: Vec<String>) -> Result<Task, WordFault>
    ensures asks { IfOk result (AsksBy ladder_app (map string_bytes words.items)) }

    // Only arguments in which `clap` finds no fault ask for something.
    ensures accepted { OnOk result (clap_fault ladder_app (map string_bytes words.items) ≡ []) }

    // A usage fault comes only where `clap` finds one or the arguments ask for nothing, and help only where it is asked for.
    ensures fault { IfErr result (IsFaultOf ladder_app (map string_bytes words.items)) }
{
    let Ok(command) = ladder(alloc) else {
        return Err(WordFault::Memory);
    };
    match command.try_get_matches_from(words.as_slice()) {
        Ok(matches) => told_in(alloc, &matches),
        Err(error) => Err(fault_of(alloc, &error)),
    }
}

/// The task of a command line that `clap` has taken; a usage fault has the rule that the words break, where one is found.
fn told_in(alloc: Global, matches: &ArgMatches<'_>) -> Result<Task, WordFault>
    ensures ok { IfOk result (λ t. IfSome (subcommand_rows_of matches.now) (λ p. HasTask p.0 p.1 t) × IsSome (subcommand_rows_of matches.now)) }
    ensures err { IfErr result (IsTold (subcommand_rows_of matches.now)) }
{
    match task_in(alloc, matches) {
        Ok(task) => Ok(task),
        Err(WordFault::Usage) => Err(broken_usage(matches)),
        Err(fault) => Err(fault),
    }
}

/// A usage fault, with the rule that the words break where one is found.
fn broken_usage(matches: &ArgMatches<'_>) -> WordFault
    ensures { TellsUsage (subcommand_rows_of matches.now) result }
{
    match broken_in(matches) {
        Some(broken) => WordFault::Broken(broken),
        None => WordFault::Usage,
    }
}

/// The first rule of the subcommand that the words break.
fn broken_in(matches: &ArgMatches<'_>) -> Option<Broken>
    ensures { IfSome result (λ b. TellsUsage (subcommand_rows_of matches.now) (WordFault.Broken b)) }
{
    match matches.subcommand() {
        Some((name, found)) => broken_by(name, found),
        None => None,
    }
}

/// The first rule of a subcommand with this name that the words after it break.
fn broken_by(name: &str, found: &ArgMatches<'_>) -> Option<Broken>
    ensures { IfSome result (Breaks (rows_of (found_of found.now))) }
{
    match broken_rule(rules_of(name), found) {
        Some(broken) => Some(broken),
        None => broken_rule(shared_rules_of(name), found),
    }
}

/// What is said of words that `clap` refuses: its help, its text on the mistake, or that memory ran out.
fn fault_of(alloc: Global, error: &clap::Error) -> WordFault
    ensures { SaysOf (kind_of error.now) result }
{
    match error.kind() {
        ErrorKind::OutOfMemory => WordFault::Memory,
        ErrorKind::DisplayHelp | ErrorKind::DisplayVersion => match error.to_string(alloc) {
            Ok(text) => WordFault::Help(text),
            Err(_) => WordFault::Memory,
        },
        _ => match error.to_string(alloc) {
            Ok(text) => WordFault::Mistake(text),
            Err(_) => WordFault::Usage,
        },
    }
}

/// The task of a command line that `clap` has taken: that of its subcommand, which has to be given.
fn task_in(alloc: Global, matches: &ArgMatches<'_>) -> Result<Task, WordFault>
    ensures ok { IfOk result (λ t. IfSome (subcommand_rows_of matches.now) (λ p. HasTask p.0 p.1 t) × IsSome (subcommand_rows_of matches.now)) }
    ensures err { IfErr result (UsageWhere (IfSome (subcommand_rows_of matches.now) (λ p. HasNoTask p.0 p.1))) }
{
    match matches.subcommand() {
        Some((name, found)) => task_of(alloc, name, found),
        None => Err(WordFault::Usage),
    }
}

/// The task of a subcommand: pages on faults, a comparison, or a request.
fn task_of(alloc: Global, name: &str, found: &ArgMatches<'_>) -> Result<Task, WordFault>
    ensures ok { IfOk result (HasTask name.now (rows_of (found_of found.now))) }
    ensures err { IfErr result (UsageWhere (HasNoTask name.now (rows_of (found_of found.now)))) }
{
    if name == "explain" {
        return explain_task(alloc, found);
    }
    if name == "diff" {
        return diff_task(alloc, found);
    }
    match line_of(alloc, name, found) {
        Ok(line) => task_for(alloc, found, line),
        Err(fault) => Err(fault),
    }
}

/// The task of a request: to perform it as it is, or with `--all-coils` for each coil.
fn task_for(alloc: Global, found: &ArgMatches<'_>, line: CommandLine) -> Result<Task, WordFault>
    ensures ok { IfOk result (λ t. (name : Text) → Says name (rows_of (found_of found.now)) line → HasTask name (rows_of (found_of found.now)) t) }
    ensures err { IfErr result (λ e. e ≡ WordFault.Memory) }
{
    match optional(alloc, found, "all-coils")? {
        Some(folder) => Ok(Task::PerformAll(AllCoils { folder, line })),
        None => Ok(Task::Perform(line)),
    }
}

/// The task of `explain`: the pages of the codes, all of which have to exist.
fn explain_task(alloc: Global, found: &ArgMatches<'_>) -> Result<Task, WordFault>
    ensures ok { IfOk result (HasTask (codes "explain") (rows_of (found_of found.now))) }
    ensures err { IfErr result (UsageWhere (HasNoTask (codes "explain") (rows_of (found_of found.now)))) }
{
    let names = texts(alloc, found, "codes")?;
    if !are_codes(&names) {
        return Err(no_code(alloc, &names));
    }
    Ok(Task::Explain(names))
}

/// That one of these words is no code, with the first such word.
fn no_code(alloc: Global, names: &[String]) -> WordFault
    ensures { UsageWhere ⊤ result }
{
    for name in names {
        if !is_code(name) {
            return match copied(alloc, name.as_str()) {
                Ok(name) => WordFault::NoCode(name),
                Err(fault) => fault,
            };
        }
    }
    WordFault::Usage
}

/// Whether a word is the code of a fault, which has a page.
fn is_code(name: &String) -> bool
    ensures { result ≡ is_fault_code (string_bytes name.now) }
{
    page_of(name.as_str()).is_some()
}

/// Whether each word is the code of a fault, which has a page.
fn are_codes(names: &[String]) -> bool
    ensures { result ≡ list_all (λ name. is_fault_code (string_bytes name)) names.now }
{
    names.iter().all(|name| is_code(name))
}

/// The request of a subcommand, with the flags that every request takes.
fn line_of(alloc: Global, name: &str, found: &ArgMatches<'_>) -> Result<CommandLine, WordFault>
    ensures ok { IfOk result (Says name.now (rows_of (found_of found.now))) }
    ensures err { IfErr result (UsageWhere (AsksNone name.now (rows_of (found_of found.now)))) }
{
    match request_of(alloc, name, found) {
        Ok(request) => Ok(CommandLine {
            request,
            assumed: is_set(found, "assumed"),
            aliases: is_set(found, "aliases"),
            why: is_set(found, "why"),
        }),
        Err(fault) => Err(fault),
    }
}

/// The request of a subcommand, by its name, with its flags and arguments.
fn request_of(alloc: Global, name: &str, found: &ArgMatches<'_>) -> Result<Request, WordFault>
    ensures ok { IfOk result (Asks name.now (rows_of (found_of found.now))) }
    ensures err { IfErr result (UsageWhere (AsksNone name.now (rows_of (found_of found.now)))) }
{
    match name {
        "check" => check_request(alloc, found),
        "uses" => uses_request(alloc, found),
        "never" => never_request(alloc, found),
        "reach" => reach_request(alloc, found),
        "causes" => causes_request(alloc, found),
        "show" => show_request(alloc, found),
        "sim" => sim_request(alloc, found),
        "import" => import_request(alloc, found),
        "draw" => draw_request(alloc, found),
        "export" => export_request(alloc, found),
        _ => Err(WordFault::Usage),
    }
}

/// The request of `check`.
fn check_request(alloc: Global, found: &ArgMatches<'_>) -> Result<Request, WordFault>
    ensures ok { IfOk result (Asks (codes "check") (rows_of (found_of found.now))) }
    ensures err { IfErr result (UsageWhere (AsksNone (codes "check") (rows_of (found_of found.now)))) }
{
    let warns = is_set(found, "warn");
    let file = text(alloc, found, "file")?;
    Ok(Request::Check { file, warns })
}

/// The request of `uses`.
fn uses_request(alloc: Global, found: &ArgMatches<'_>) -> Result<Request, WordFault>
    ensures ok { IfOk result (Asks (codes "uses") (rows_of (found_of found.now))) }
    ensures err { IfErr result (UsageWhere (AsksNone (codes "uses") (rows_of (found_of found.now)))) }
{
    let file = text(alloc, found, "file")?;
    Ok(Request::Uses { file })
}

/// The request of `draw`.
fn draw_request(alloc: Global, found: &ArgMatches<'_>) -> Result<Request, WordFault>
    ensures ok { IfOk result (Asks (codes "draw") (rows_of (found_of found.now))) }
    ensures err { IfErr result (UsageWhere (AsksNone (codes "draw") (rows_of (found_of found.now)))) }
{
    let file = text(alloc, found, "file")?;
    Ok(Request::Draw { file })
}

/// The language of an export, of which one has to be named.
fn language_of(found: &ArgMatches<'_>) -> Result<Language, WordFault>
    ensures ok { IfOk result (λ l. HasLanguage l (rows_of (found_of found.now))) }
    ensures err { IfErr result (UsageWhere ((l : Language) → HasLanguage l (rows_of (found_of found.now)) → ⊥)) }
{
    match (is_set(found, "st"), is_set(found, "xml")) {
        (true, false) => Ok(Language::Statements),
        (false, true) => Ok(Language::Diagram),
        (false, false) => Err(WordFault::Usage),
        (true, true) => Err(WordFault::Usage),
    }
}

/// The request of `export`.
fn export_request(alloc: Global, found: &ArgMatches<'_>) -> Result<Request, WordFault>
    ensures ok { IfOk result (Asks (codes "export") (rows_of (found_of found.now))) }
    ensures err { IfErr result (UsageWhere (AsksNone (codes "export") (rows_of (found_of found.now)))) }
{
    let language = language_of(found)?;
    let bits = is_set(found, "bits");
    let codesys = is_set(found, "codesys");
    let name = optional(alloc, found, "name")?;
    let file = text(alloc, found, "file")?;
    Ok(Request::Export(ExportRequest {
        language,
        name,
        bits,
        codesys,
        file,
    }))
}

/// The request of `import`, with how elements without a counterpart are read, and which program is meant.
fn import_request(alloc: Global, found: &ArgMatches<'_>) -> Result<Request, WordFault>
    ensures ok { IfOk result (Asks (codes "import") (rows_of (found_of found.now))) }
    ensures err { IfErr result (UsageWhere (AsksNone (codes "import") (rows_of (found_of found.now)))) }
{
    let opened = is_set(found, "open");
    let control_on = control_of(found)?;
    let hal = optional(alloc, found, "hal")?;
    let pou = optional(alloc, found, "pou")?;
    let file = text(alloc, found, "file")?;
    Ok(Request::Import(ImportRequest {
        opened,
        control_on,
        file,
        hal,
        pou,
    }))
}

/// How the control of an old timer is read to which nothing is drawn: as ON, or as it is in ClassicLadder.
fn control_of(found: &ArgMatches<'_>) -> Result<bool, WordFault>
    ensures ok { IfOk result (λ on. HasControl on (rows_of (found_of found.now))) }
    ensures err { IfErr result (UsageWhere ((on : Bool) → HasControl on (rows_of (found_of found.now)) → ⊥)) }
{
    match found.get_str("control") {
        None => Ok(false),
        Some("on") => Ok(true),
        Some(_) => Err(WordFault::Usage),
    }
}

/// What a list of `never` says of variables: never ON, never OFF, or never both ON.
fn excluded_of(found: &ArgMatches<'_>) -> Result<Excluded, WordFault>
    ensures ok { IfOk result (λ e. HasExcluded e (rows_of (found_of found.now))) }
    ensures err { IfErr result (UsageWhere ((e : Excluded) → HasExcluded e (rows_of (found_of found.now)) → ⊥)) }
{
    match (is_set(found, "off"), is_set(found, "pairs")) {
        (false, false) => Ok(Excluded::On),
        (true, false) => Ok(Excluded::Off),
        (false, true) => Ok(Excluded::BothOn),
        (true, true) => Err(WordFault::Usage),
    }
}

/// The request of `never`.
fn never_request(alloc: Global, found: &ArgMatches<'_>) -> Result<Request, WordFault>
    ensures ok { IfOk result (Asks (codes "never") (rows_of (found_of found.now))) }
    ensures err { IfErr result (UsageWhere (AsksNone (codes "never") (rows_of (found_of found.now)))) }
{
    let excluded = excluded_of(found)?;
    let quiet = is_set(found, "quiet");
    let Sources { state, file } = sources_of(alloc, found)?;
    let assumed = texts(alloc, found, "assume")?;
    Ok(Request::Never(NeverRequest {
        state,
        excluded,
        quiet,
        file,
        assumed,
    }))
}
