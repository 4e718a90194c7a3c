//! The command line, as `clap` takes it.

ghost use Rattle.std.specs.Prelude.{◌≡◌, ◌∷◌, [], IfOk, false, map};
ghost use Rattle.clap.specs.Words.{App, app_of, rule_of};
ghost use Rattle.cli_options.specs.CommandLine.{IsApp, causes_app, check_app, diff_app, ladder_app, never_app, reach_app, show_app, sim_app, taking, uses_app};
ghost use Rattle.cli_options.specs.Table.{bare_app, with_all, word_rule};

use crate::examples;
use crate::help::AFTER_HELP;
use crate::help::ALIASES_HELP;
use crate::help::ALL_COILS_HELP;
use crate::help::ALL_HELP;
use crate::help::ANY_HELP;
use crate::help::ASSUME_HELP;
use crate::help::ASSUMED_HELP;
use crate::help::AT_HELP;
use crate::help::BITS_HELP;
use crate::help::CAUSES_ABOUT;
use crate::help::CHANGES_HELP;
use crate::help::CHECK_ABOUT;
use crate::help::CODES_HELP;
use crate::help::CODESYS_HELP;
use crate::help::COIL_HELP;
use crate::help::CONTROL_HELP;
use crate::help::DIFF_ABOUT;
use crate::help::DIFF_AFTER_HELP;
use crate::help::DIFF_ALL_HELP;
use crate::help::DIFF_ASSUME_HELP;
use crate::help::DIFF_ASSUMED_HELP;
use crate::help::DIFF_AT_HELP;
use crate::help::DIFF_COIL_HELP;
use crate::help::DIFF_GROUPED_HELP;
use crate::help::DIFF_INPUTS_HELP;
use crate::help::DIFF_LOOKS_HELP;
use crate::help::DIFF_ORDER_HELP;
use crate::help::DIFF_PROGRESS_HELP;
use crate::help::DIFF_REACHABLE_HELP;
use crate::help::DIFF_RUNS_HELP;
use crate::help::DIFF_SAVE_HELP;
use crate::help::DIFF_SCANS_HELP;
use crate::help::DIFF_STATE_HELP;
use crate::help::DIFF_STATEMENT_HELP;
use crate::help::DIFF_STATES_HELP;
use crate::help::DIFF_TERMS_HELP;
use crate::help::DIFF_UPTO_HELP;
use crate::help::DRAW_ABOUT;
use crate::help::EVERY_HELP;
use crate::help::EXPECT_HELP;
use crate::help::EXPLAIN_ABOUT;
use crate::help::EXPLAIN_HELP;
use crate::help::EXPORT_ABOUT;
use crate::help::EXPORT_ALIASES_HELP;
use crate::help::EXPORT_DIAGRAM_HELP;
use crate::help::EXPORT_NAME_HELP;
use crate::help::EXPORT_STATEMENTS_HELP;
use crate::help::FAULTS;
use crate::help::FILE_HELP;
use crate::help::FILM_HELP;
use crate::help::FOR_HELP;
use crate::help::GROUPED_HELP;
use crate::help::HAL_HELP;
use crate::help::HOLD_HELP;
use crate::help::HTML_HELP;
use crate::help::IMPORT_ABOUT;
use crate::help::INPUTS_HELP;
use crate::help::LADDER_ABOUT;
use crate::help::LIMIT_HELP;
use crate::help::LOOKS_HELP;
use crate::help::MUST_HELP;
use crate::help::NEVER_ABOUT;
use crate::help::NEVER_OFF_HELP;
use crate::help::NEW_HELP;
use crate::help::NEW_STATE_HELP;
use crate::help::NUMBER_HELP;
use crate::help::OFF_HELP;
use crate::help::OLD_HELP;
use crate::help::OPEN_HELP;
use crate::help::ORDER_HELP;
use crate::help::PAIRS_HELP;
use crate::help::POU_HELP;
use crate::help::PROGRESS_HELP;
use crate::help::PROJECT_HELP;
use crate::help::QUIET_HELP;
use crate::help::REACH_ABOUT;
use crate::help::REACH_AT_HELP;
use crate::help::REACH_BOTH_HELP;
use crate::help::REACH_EVERY_HELP;
use crate::help::REACH_GAP_HELP;
use crate::help::REACH_INPUTS_HELP;
use crate::help::REACH_NAME_HELP;
use crate::help::REACH_PROGRESS_HELP;
use crate::help::REACH_SCANS_HELP;
use crate::help::REACH_STATES_HELP;
use crate::help::REACHABLE_HELP;
use crate::help::RELEVANT_HELP;
use crate::help::RUN_STATES_HELP;
use crate::help::RUNS_HELP;
use crate::help::SAVE_HELP;
use crate::help::SCANS_ASSUME_HELP;
use crate::help::SCANS_ASSUMED_HELP;
use crate::help::SCANS_HELP;
use crate::help::SHOW_ABOUT;
use crate::help::SHOW_ASSUME_HELP;
use crate::help::SHOW_ASSUMED_HELP;
use crate::help::SHOWN_HELP;
use crate::help::SIM_ABOUT;
use crate::help::SIM_PROGRESS_HELP;
use crate::help::STATE_HELP;
use crate::help::STATEMENT_HELP;
use crate::help::STATEMENTS_HELP;
use crate::help::STIMULUS_HELP;
use crate::help::TERMS_HELP;
use crate::help::UPTO_HELP;
use crate::help::USES_ABOUT;
use crate::help::WARN_HELP;
use crate::help::WATCH_ALL_HELP;
use crate::help::WATCH_HELP;
use crate::help::WAVES_HELP;
use crate::help::WHY_HELP;
use clap::Arg;
use clap::ArgAction;
use clap::Command;
use clap::value_parser;
use std::alloc::AllocError;
use std::alloc::Global;

/// The version of the program.
const VERSION: &str = "1.0";

/// A word of a subcommand: its name, then the name of its value where it has one, then its help.
enum Word {
    /// It must be there, and is known by its place.
    Place(&'static str, &'static str, &'static str),
    /// It may be left out, and is known by its place.
    FreePlace(&'static str, &'static str, &'static str),
    /// An option with a text.
    Text(&'static str, &'static str, &'static str),
    /// An option with a number.
    Number(&'static str, &'static str, &'static str),
    /// An option with a number that isn't 0.
    Positive(&'static str, &'static str, &'static str),
    /// The same, of 32 bits.
    Small(&'static str, &'static str, &'static str),
    /// An option with a text that may be given several times.
    Texts(&'static str, &'static str, &'static str),
    /// An option without a value.
    Flag(&'static str, &'static str),
    /// The arguments that are left.
    List(&'static str, &'static str, &'static str),
}

/// A subcommand with its words in their order.
struct Subcommand {
    name: &'static str,
    about: &'static str,
    words: &'static [Word],
    /// Lines of examples, which stand below its help.
    examples: &'static str,
}

const CHECK: &[Word] = &[
    Word::Flag("warn", WARN_HELP),
    Word::Flag("aliases", ALIASES_HELP),
    Word::Flag("why", EXPLAIN_HELP),
    Word::Place("file", "FILE", FILE_HELP),
];

const USES: &[Word] = &[
    Word::Flag("aliases", ALIASES_HELP),
    Word::Flag("why", EXPLAIN_HELP),
    Word::Place("file", "FILE", FILE_HELP),
];

const NEVER: &[Word] = &[
    Word::Text("state", "STATE", STATE_HELP),
    Word::Texts("assume", "EXPRESSION", SCANS_ASSUME_HELP),
    Word::Flag("assumed", SCANS_ASSUMED_HELP),
    Word::Flag("off", NEVER_OFF_HELP),
    Word::Flag("pairs", PAIRS_HELP),
    Word::Flag("quiet", QUIET_HELP),
    Word::Flag("aliases", ALIASES_HELP),
    Word::Flag("why", EXPLAIN_HELP),
    Word::Place("file", "FILE", FILE_HELP),
];

const REACH: &[Word] = &[
    Word::Text("state", "STATE", STATE_HELP),
    Word::Number("at", "MS", REACH_AT_HELP),
    Word::Positive("every", "MS", REACH_EVERY_HELP),
    Word::Positive("scans", "N", REACH_SCANS_HELP),
    Word::Small("states", "N", REACH_STATES_HELP),
    Word::Text("both", "NAME", REACH_BOTH_HELP),
    Word::Number("gap", "MS", REACH_GAP_HELP),
    Word::Texts("assume", "EXPRESSION", SCANS_ASSUME_HELP),
    Word::Flag("assumed", SCANS_ASSUMED_HELP),
    Word::Flag("progress", REACH_PROGRESS_HELP),
    Word::Flag("why", EXPLAIN_HELP),
    Word::Place("file", "FILE", FILE_HELP),
    Word::Place("name", "NAME", REACH_NAME_HELP),
    Word::List("inputs", "INPUT", REACH_INPUTS_HELP),
];

const DIFF: &[Word] = &[
    Word::Text("state", "STATE", DIFF_STATE_HELP),
    Word::Text("new-state", "STATE", NEW_STATE_HELP),
    Word::Number("at", "MS", DIFF_AT_HELP),
    Word::Number("after", "N", DIFF_AFTER_HELP),
    Word::Number("upto", "N", DIFF_UPTO_HELP),
    Word::Number("limit", "N", LIMIT_HELP),
    Word::Number("scans", "N", DIFF_SCANS_HELP),
    Word::Number("for", "MS", FOR_HELP),
    Word::Number("every", "MS", EVERY_HELP),
    Word::Texts("assume", "EXPRESSION", DIFF_ASSUME_HELP),
    Word::Flag("assumed", DIFF_ASSUMED_HELP),
    Word::Flag("grouped", DIFF_GROUPED_HELP),
    Word::Flag("terms", DIFF_TERMS_HELP),
    Word::Flag("st", DIFF_STATEMENT_HELP),
    Word::Text("order", "ORDER", DIFF_ORDER_HELP),
    Word::Small("looks", "N", DIFF_LOOKS_HELP),
    Word::Flag("reachable", DIFF_REACHABLE_HELP),
    Word::Flag("runs", DIFF_RUNS_HELP),
    Word::Small("states", "N", DIFF_STATES_HELP),
    Word::Text("save", "FOLDER", DIFF_SAVE_HELP),
    Word::Flag("all-inputs", DIFF_ALL_HELP),
    Word::Flag("progress", DIFF_PROGRESS_HELP),
    Word::Flag("quiet", QUIET_HELP),
    Word::Flag("aliases", ALIASES_HELP),
    Word::Flag("why", EXPLAIN_HELP),
    Word::Place("old", "OLD", OLD_HELP),
    Word::Place("new", "NEW", NEW_HELP),
    Word::FreePlace("coil", "COIL", DIFF_COIL_HELP),
    Word::List("inputs", "INPUT", DIFF_INPUTS_HELP),
];

const CAUSES: &[Word] = &[
    Word::Text("state", "STATE", STATE_HELP),
    Word::Number("at", "MS", AT_HELP),
    Word::Number("after", "N", AFTER_HELP),
    Word::Number("upto", "N", UPTO_HELP),
    Word::Number("limit", "N", LIMIT_HELP),
    Word::Number("scans", "N", SCANS_HELP),
    Word::Number("for", "MS", FOR_HELP),
    Word::Number("every", "MS", EVERY_HELP),
    Word::Texts("assume", "EXPRESSION", ASSUME_HELP),
    Word::Flag("assumed", ASSUMED_HELP),
    Word::Flag("grouped", GROUPED_HELP),
    Word::Flag("terms", TERMS_HELP),
    Word::Flag("st", STATEMENT_HELP),
    Word::Text("order", "ORDER", ORDER_HELP),
    Word::Flag("any", ANY_HELP),
    Word::Flag("off", OFF_HELP),
    Word::Flag("must", MUST_HELP),
    Word::Flag("reachable", REACHABLE_HELP),
    Word::Small("looks", "N", LOOKS_HELP),
    Word::Flag("runs", RUNS_HELP),
    Word::Small("states", "N", RUN_STATES_HELP),
    Word::Flag("relevant", RELEVANT_HELP),
    Word::Flag("all-inputs", ALL_HELP),
    Word::Text("all-coils", "FOLDER", ALL_COILS_HELP),
    Word::Flag("progress", PROGRESS_HELP),
    Word::Flag("quiet", QUIET_HELP),
    Word::Flag("aliases", ALIASES_HELP),
    Word::Flag("why", EXPLAIN_HELP),
    Word::Place("file", "FILE", FILE_HELP),
    Word::FreePlace("coil", "COIL", COIL_HELP),
    Word::List("inputs", "INPUT", INPUTS_HELP),
];

const SHOW: &[Word] = &[
    Word::Text("state", "STATE", STATE_HELP),
    Word::Number("at", "MS", AT_HELP),
    Word::Number("number", "N", NUMBER_HELP),
    Word::Texts("assume", "EXPRESSION", SHOW_ASSUME_HELP),
    Word::Flag("assumed", SHOW_ASSUMED_HELP),
    Word::Flag("html", HTML_HELP),
    Word::Text("stimulus", "STIMULUS", FILM_HELP),
    Word::Text("coil", "COIL", WHY_HELP),
    Word::Flag("all-inputs", ALL_HELP),
    Word::Flag("aliases", ALIASES_HELP),
    Word::Flag("why", EXPLAIN_HELP),
    Word::Place("file", "FILE", FILE_HELP),
    Word::List("inputs", "INPUT", SHOWN_HELP),
];

const SIM: &[Word] = &[
    Word::Text("state", "STATE", STATE_HELP),
    Word::Text("save", "STATE", SAVE_HELP),
    Word::Positive("every", "MS", HOLD_HELP),
    Word::Texts("watch", "NAME", WATCH_HELP),
    Word::Flag("watch-all", WATCH_ALL_HELP),
    Word::Flag("changes", CHANGES_HELP),
    Word::Text("expect", "TRACE", EXPECT_HELP),
    Word::Flag("progress", SIM_PROGRESS_HELP),
    Word::Flag("vcd", WAVES_HELP),
    Word::Flag("aliases", ALIASES_HELP),
    Word::Flag("why", EXPLAIN_HELP),
    Word::Place("file", "FILE", FILE_HELP),
    Word::Place("stimulus", "STIMULUS", STIMULUS_HELP),
];

const IMPORT: &[Word] = &[
    Word::Flag("open", OPEN_HELP),
    Word::Text("control", "CONTROL", CONTROL_HELP),
    Word::Text("hal", "FILE", HAL_HELP),
    Word::Text("pou", "NAME", POU_HELP),
    Word::Flag("why", EXPLAIN_HELP),
    Word::Place("file", "PROJECT", PROJECT_HELP),
];

const DRAW: &[Word] = &[
    Word::Flag("why", EXPLAIN_HELP),
    Word::Place("file", "FILE", STATEMENTS_HELP),
];

const EXPORT: &[Word] = &[
    Word::Flag("st", EXPORT_STATEMENTS_HELP),
    Word::Flag("xml", EXPORT_DIAGRAM_HELP),
    Word::Text("name", "NAME", EXPORT_NAME_HELP),
    Word::Flag("bits", BITS_HELP),
    Word::Flag("codesys", CODESYS_HELP),
    Word::Flag("aliases", EXPORT_ALIASES_HELP),
    Word::Flag("why", EXPLAIN_HELP),
    Word::Place("file", "FILE", FILE_HELP),
];

const EXPLAIN: &[Word] = &[Word::List("codes", "CODE", CODES_HELP)];

/// The subcommands, in four tables: the proof of a function that names a table goes through all of it.
const FIRST_SUBCOMMANDS: &[Subcommand] = &[
    Subcommand {
        name: "check",
        about: CHECK_ABOUT,
        words: CHECK,
        examples: examples::CHECK,
    },
    Subcommand {
        name: "causes",
        about: CAUSES_ABOUT,
        words: CAUSES,
        examples: examples::CAUSES,
    },
];

const VIEW_SUBCOMMANDS: &[Subcommand] = &[
    Subcommand {
        name: "show",
        about: SHOW_ABOUT,
        words: SHOW,
        examples: examples::SHOW,
    },
    Subcommand {
        name: "sim",
        about: SIM_ABOUT,
        words: SIM,
        examples: examples::SIM,
    },
    Subcommand {
        name: "uses",
        about: USES_ABOUT,
        words: USES,
        examples: examples::USES,
    },
    Subcommand {
        name: "never",
        about: NEVER_ABOUT,
        words: NEVER,
        examples: examples::NEVER,
    },
];

const SEARCH_SUBCOMMANDS: &[Subcommand] = &[
    Subcommand {
        name: "reach",
        about: REACH_ABOUT,
        words: REACH,
        examples: examples::REACH,
    },
    Subcommand {
        name: "diff",
        about: DIFF_ABOUT,
        words: DIFF,
        examples: examples::DIFF,
    },
];

const OTHER_SUBCOMMANDS: &[Subcommand] = &[
    Subcommand {
        name: "draw",
        about: DRAW_ABOUT,
        words: DRAW,
        examples: examples::DRAW,
    },
    Subcommand {
        name: "export",
        about: EXPORT_ABOUT,
        words: EXPORT,
        examples: examples::EXPORT,
    },
    Subcommand {
        name: "import",
        about: IMPORT_ABOUT,
        words: IMPORT,
        examples: examples::IMPORT,
    },
    Subcommand {
        name: "explain",
        about: EXPLAIN_ABOUT,
        words: EXPLAIN,
        examples: examples::EXPLAIN,
    },
];

/// The argument of `clap` for one word of a subcommand.
fn arg_of<'a>(alloc: Global, word: &'a Word) -> Arg<'a>
    ensures rule { rule_of result ≡ word_rule word.now }
    ensures global { result.global ≡ false }
{
    match word {
        Word::Place(id, value, help) => Arg::new(alloc, id)
            .required(true)
            .value_name(value)
            .help(help),
        Word::FreePlace(id, value, help) => Arg::new(alloc, id).value_name(value).help(help),
        Word::Text(id, value, help) => Arg::new(alloc, id).long(id).value_name(value).help(help),
        Word::Number(id, value, help) => Arg::new(alloc, id)
            .long(id)
            .value_parser(value_parser!(u64))
            .value_name(value)
            .help(help),
        Word::Positive(id, value, help) => Arg::new(alloc, id)
            .long(id)
            .value_parser(value_parser!(u64).range(1..))
            .value_name(value)
            .help(help),
        Word::Small(id, value, help) => Arg::new(alloc, id)
            .long(id)
            .value_parser(value_parser!(u64).range(1..=4_294_967_295))
            .value_name(value)
            .help(help),
        Word::Texts(id, value, help) => Arg::new(alloc, id)
            .long(id)
            .action(ArgAction::Append)
            .value_name(value)
            .help(help),
        Word::Flag(id, help) => Arg::new(alloc, id)
            .long(id)
            .action(ArgAction::SetTrue)
            .help(help),
        Word::List(id, value, help) => Arg::new(alloc, id)
            .action(ArgAction::Append)
            .value_name(value)
            .help(help),
    }
}

/// The subcommand of `clap` with its words in their order.
fn subcommand_of<'a>(alloc: Global, sub: &'a Subcommand) -> Result<Command<'a>, AllocError>
    ensures { IfOk result (IsApp (taking sub.now.name.now (map word_rule sub.now.words.now))) }
{
    let mut command = Command::new(alloc, sub.name)
        .about(sub.about)
        .after_help(sub.examples);
    for word in sub.words {
        command = command.arg(arg_of(alloc, word))?;
    }
    Ok(command)
}

/// The command `ladder` of `clap`, without its subcommands.
fn top<'a>(alloc: Global) -> Command<'a>
    ensures { app_of result ≡ bare_app }
{
    Command::new(alloc, "ladder")
        .version(VERSION)
        .arg_required_else_help(true)
        .subcommand_required(true)
        .about(LADDER_ABOUT)
        .after_help(FAULTS)
}

/// A command of `clap` with these subcommands added.
fn with_subcommands<'a>(
    alloc: Global,
    command: Command<'a>,
    subs: &'a [Subcommand],
) -> Result<Command<'a>, AllocError>
    ensures { (app : App) → app_of command.entry ≡ app → IfOk result (λ c. app_of c ≡ with_all app subs.now) }
{
    let mut all = command;
    for sub in subs {
        all = all.subcommand(subcommand_of(alloc, sub)?)?;
    }
    Ok(all)
}

/// The command with the first of its subcommands.
fn begun<'a>(alloc: Global) -> Result<Command<'a>, AllocError>
    ensures { IfOk result (λ c. app_of c ≡ record ladder_app { subs = check_app.top ∷ causes_app.top ∷ [] }) }
{
    with_subcommands(alloc, top(alloc), FIRST_SUBCOMMANDS)
}

/// The command with those of its subcommands that show something as well.
fn continued<'a>(alloc: Global) -> Result<Command<'a>, AllocError>
    ensures { IfOk result (λ c. app_of c ≡ record ladder_app { subs = check_app.top ∷ causes_app.top ∷ show_app.top ∷ sim_app.top ∷ uses_app.top ∷ never_app.top ∷ [] }) }
{
    with_subcommands(alloc, begun(alloc)?, VIEW_SUBCOMMANDS)
}

/// The command with those of its subcommands that search for something as well.
fn searching<'a>(alloc: Global) -> Result<Command<'a>, AllocError>
    ensures { IfOk result (λ c. app_of c ≡ record ladder_app { subs = check_app.top ∷ causes_app.top ∷ show_app.top ∷ sim_app.top ∷ uses_app.top ∷ never_app.top ∷ reach_app.top ∷ diff_app.top ∷ [] }) }
{
    with_subcommands(alloc, continued(alloc)?, SEARCH_SUBCOMMANDS)
}

/// The whole command line of the program `ladder`, with all subcommands.
///
/// # Errors
///
/// An error when out of memory.
pub fn ladder<'a>(alloc: Global) -> Result<Command<'a>, AllocError>
    ensures { IfOk result (λ c. app_of c ≡ ladder_app) }
{
    with_subcommands(alloc, searching(alloc)?, OTHER_SUBCOMMANDS)
}
