//! The rules of each subcommand.

use crate::rule::{Rule, Term};

const CAUSES: &[Rule] = &[
    Rule::Wants(
        &[Term::Place("file", "causes FILE")],
        &[Term::Place("coil", "COIL"), Term::Valued("all-coils")],
    ),
    // Any state is meant, at any moment, and one scan from it; the list has its rows from the first one on.
    Rule::Excludes(
        &[Term::Flag("any")],
        &[
            Term::Valued("at"),
            Term::Valued("after"),
            Term::Valued("upto"),
            Term::Flag("progress"),
            Term::Valued("scans"),
            Term::Valued("for"),
            Term::Valued("every"),
            Term::Flag("relevant"),
            Term::Flag("terms"),
            Term::Flag("st"),
            Term::Value("order", "auto"),
        ],
    ),
    Rule::Wants(&[Term::Flag("off")], &[Term::Flag("any")]),
    Rule::Wants(&[Term::Flag("must")], &[Term::Flag("any")]),
    Rule::Wants(&[Term::Flag("reachable")], &[Term::Flag("any")]),
    Rule::Wants(&[Term::Valued("looks")], &[Term::Flag("any")]),
    // A run comes to one combination: to no group, not from every state, with any inputs before, and the coil may be ON before.
    Rule::Wants(&[Term::Flag("runs")], &[Term::Flag("any")]),
    Rule::Wants(&[Term::Valued("states")], &[Term::Flag("runs")]),
    Rule::Wants(
        &[Term::Valued("state"), Term::Flag("any")],
        &[Term::Flag("runs")],
    ),
    Rule::Excludes(
        &[Term::Flag("runs")],
        &[Term::Flag("off"), Term::Flag("must"), Term::Flag("grouped")],
    ),
    // The inputs are found, and matter in one scan; their list has no part.
    Rule::Excludes(
        &[Term::Flag("relevant")],
        &[
            Term::Valued("scans"),
            Term::Valued("for"),
            Term::Valued("every"),
            Term::Valued("upto"),
            Term::Flag("progress"),
            Term::Flag("all-inputs"),
            Term::Place("inputs", "INPUT"),
        ],
    ),
    // With `--all-coils` no coil is named, so what is in its place is the first input.
    Rule::Excludes(
        &[Term::Flag("relevant"), Term::Valued("all-coils")],
        &[Term::Place("coil", "INPUT")],
    ),
    Rule::Excludes(
        &[Term::Flag("all-inputs"), Term::Valued("all-coils")],
        &[Term::Place("coil", "INPUT")],
    ),
    Rule::Excludes(
        &[Term::Flag("all-inputs")],
        &[Term::Place("inputs", "INPUT")],
    ),
];

const SHOW: &[Rule] = &[
    // Each record has its moment and its inputs.
    Rule::Excludes(
        &[Term::Valued("stimulus")],
        &[
            Term::Valued("at"),
            Term::Valued("number"),
            Term::Flag("all-inputs"),
            Term::Place("inputs", "INPUT"),
            Term::Valued("assume"),
            Term::Flag("assumed"),
        ],
    ),
    // A page doesn't name what is assumed.
    Rule::Excludes(
        &[Term::Flag("html")],
        &[Term::Valued("assume"), Term::Flag("assumed")],
    ),
    Rule::Excludes(
        &[Term::Flag("all-inputs")],
        &[Term::Place("inputs", "INPUT")],
    ),
];

const SIM: &[Rule] = &[
    // A waveform has all that can be watched, and a state is saved beside a trace.
    Rule::Excludes(
        &[Term::Flag("vcd")],
        &[
            Term::Valued("save"),
            Term::Valued("watch"),
            Term::Flag("watch-all"),
            Term::Flag("changes"),
            Term::Valued("expect"),
            Term::Flag("progress"),
        ],
    ),
    Rule::Excludes(&[Term::Flag("watch-all")], &[Term::Valued("watch")]),
];

const NEVER: &[Rule] = &[Rule::Excludes(&[Term::Flag("off")], &[Term::Flag("pairs")])];

const REACH: &[Rule] = &[
    Rule::Wants(&[Term::Valued("scans")], &[Term::Valued("every")]),
    Rule::Excludes(&[Term::Valued("gap")], &[Term::Valued("every")]),
];

const IMPORT: &[Rule] = &[Rule::Wants(&[Term::Valued("control")], &[Term::Value("control", "on")])];

const DIFF: &[Rule] = &[
    // A list is of one state of each program, and complete, however many scans it takes.
    Rule::Excludes(&[Term::Valued("looks")], &[Term::Place("coil", "COIL")]),
    Rule::Excludes(&[Term::Flag("reachable")], &[Term::Place("coil", "COIL")]),
    Rule::Excludes(&[Term::Flag("runs")], &[Term::Place("coil", "COIL")]),
    Rule::Excludes(&[Term::Valued("states")], &[Term::Place("coil", "COIL")]),
    Rule::Excludes(&[Term::Valued("save")], &[Term::Place("coil", "COIL")]),
    // Without a coil all names are judged, from all states or in all runs.
    Rule::Wants(&[Term::Valued("state")], &[Term::Place("coil", "COIL")]),
    Rule::Wants(&[Term::Valued("new-state")], &[Term::Place("coil", "COIL")]),
    Rule::Wants(&[Term::Valued("at")], &[Term::Place("coil", "COIL")]),
    Rule::Wants(&[Term::Valued("after")], &[Term::Place("coil", "COIL")]),
    Rule::Wants(&[Term::Valued("upto")], &[Term::Place("coil", "COIL")]),
    Rule::Wants(&[Term::Valued("limit")], &[Term::Place("coil", "COIL")]),
    Rule::Wants(&[Term::Flag("progress")], &[Term::Place("coil", "COIL")]),
    Rule::Wants(&[Term::Valued("scans")], &[Term::Place("coil", "COIL")]),
    Rule::Wants(&[Term::Valued("for")], &[Term::Place("coil", "COIL")]),
    Rule::Wants(&[Term::Valued("every")], &[Term::Place("coil", "COIL")]),
    Rule::Wants(&[Term::Flag("grouped")], &[Term::Place("coil", "COIL")]),
    Rule::Wants(&[Term::Flag("terms")], &[Term::Place("coil", "COIL")]),
    Rule::Wants(&[Term::Flag("st")], &[Term::Place("coil", "COIL")]),
    Rule::Wants(
        &[Term::Value("order", "auto")],
        &[Term::Place("coil", "COIL")],
    ),
    Rule::Wants(&[Term::Flag("all-inputs")], &[Term::Place("coil", "COIL")]),
    Rule::Wants(&[Term::Valued("states")], &[Term::Flag("runs")]),
    // Runs begin in the fresh states, so no state is looked at alone.
    Rule::Excludes(
        &[Term::Flag("runs")],
        &[Term::Valued("looks"), Term::Flag("reachable")],
    ),
    Rule::Excludes(
        &[Term::Flag("grouped")],
        &[
            Term::Valued("scans"),
            Term::Valued("for"),
            Term::Valued("every"),
        ],
    ),
    Rule::Excludes(
        &[Term::Flag("all-inputs")],
        &[Term::Place("inputs", "INPUT")],
    ),
];

/// The rules of several scans and of groups, for causes and for differences.
const FORMS: &[Rule] = &[
    Rule::Wants(
        &[Term::Valued("order")],
        &[Term::Value("order", "auto"), Term::Value("order", "given")],
    ),
    // A group has no number.
    Rule::Excludes(
        &[Term::Flag("grouped")],
        &[
            Term::Valued("after"),
            Term::Valued("upto"),
            Term::Flag("progress"),
        ],
    ),
    Rule::Wants(&[Term::Flag("terms")], &[Term::Flag("grouped")]),
    Rule::Wants(&[Term::Flag("st")], &[Term::Flag("grouped")]),
    Rule::Wants(&[Term::Value("order", "auto")], &[Term::Flag("grouped")]),
    Rule::Excludes(&[Term::Flag("terms")], &[Term::Flag("st")]),
    // A statement that is cut off says something else, and an alias is no name of Structured Text.
    Rule::Excludes(
        &[Term::Flag("st")],
        &[Term::Valued("limit"), Term::Flag("aliases")],
    ),
    Rule::Excludes(&[Term::Valued("scans")], &[Term::Valued("for")]),
    Rule::Wants(
        &[Term::Valued("every")],
        &[Term::Valued("scans"), Term::Valued("for")],
    ),
    // Groups over several scans have one form.
    Rule::Excludes(
        &[Term::Valued("scans")],
        &[
            Term::Valued("after"),
            Term::Valued("upto"),
            Term::Flag("progress"),
            Term::Flag("terms"),
            Term::Flag("st"),
            Term::Value("order", "auto"),
        ],
    ),
    Rule::Excludes(
        &[Term::Valued("for")],
        &[
            Term::Valued("after"),
            Term::Valued("upto"),
            Term::Flag("progress"),
            Term::Flag("terms"),
            Term::Flag("st"),
            Term::Value("order", "auto"),
        ],
    ),
];

const EXPORT: &[Rule] = &[
    Rule::Wants(
        &[Term::Place("file", "export FILE")],
        &[Term::Flag("st"), Term::Flag("xml")],
    ),
    // A program is written in one language.
    Rule::Excludes(&[Term::Flag("st")], &[Term::Flag("xml")]),
];

/// The rules of a subcommand; none where there is no such subcommand.
pub fn rules_of(name: &str) -> &'static [Rule] {
    match name {
        "causes" => CAUSES,
        "diff" => DIFF,
        "show" => SHOW,
        "sim" => SIM,
        "never" => NEVER,
        "reach" => REACH,
        "import" => IMPORT,
        "export" => EXPORT,
        _ => &[],
    }
}

/// The rules of a subcommand that it shares with another one.
pub fn shared_rules_of(name: &str) -> &'static [Rule] {
    match name {
        "causes" | "diff" => FORMS,
        _ => &[],
    }
}
