//! What the arguments of a command line ask for.

use cli_usage::Broken;
use thiserror::Error;

/// The form in which groups are written.
#[derive(Clone, Copy, Debug, PartialEq, Eq)]
pub enum GroupFormat {
    /// A record for each group, with its number of causes.
    Table,
    /// A line for each group: the inputs that matter, joined by `AND`.
    Terms,
    /// One statement in Structured Text.
    Statement,
}

/// The order in which the listed inputs are looked at.
#[derive(Clone, Copy, Debug, PartialEq, Eq)]
pub enum InputOrder {
    /// That of the list.
    Given,
    /// The one that sifting leaves, in which there are fewer groups or as many.
    Sifted,
}

/// How causes are grouped.
#[derive(Clone, Copy, Debug, PartialEq, Eq)]
pub struct Grouping {
    /// How the groups are written.
    pub form: GroupFormat,
    /// By which order of the inputs they are.
    pub order: InputOrder,
}

/// How a drawing is written.
#[derive(Clone, Copy, Debug, PartialEq, Eq)]
pub enum Medium {
    /// As text, with marks in the place of characters.
    Text,
    /// As a page of HTML.
    Page,
}

/// What a request for a list of causes names: the scan, the coil and the inputs, and how the list is written.
#[derive(Drop)]
pub struct ListRequest {
    /// The file of the state in which the scan begins; the fresh one where there is none.
    pub state: Option<String>,
    /// The moment of the scan, in ms; the stored one where there is none.
    pub moment: Option<u64>,
    /// How many rows are written at most.
    pub limit: Option<u64>,
    /// Whether the line of counts is left out.
    pub quiet: bool,
    /// The file of the program text.
    pub file: String,
    /// The name of the coil's variable.
    pub coil: String,
    /// Whether all inputs are listed; otherwise they are named.
    pub all_inputs: bool,
    /// The names of the listed inputs, the first one most significant.
    pub inputs: Vec<String>,
    /// The expressions of the inputs that are assumed to be true, in the order given.
    pub assumed: Vec<String>,
}

/// What a request for a list of any state names of runs, where it asks of each row whether one comes to it.
#[derive(Drop)]
pub struct RunsWanted {
    /// The file of the state in which runs begin; the fresh one where there is none.
    pub state: Option<String>,
    /// How many states the search for a run to one row keeps at most, where it is said.
    pub states: Option<u64>,
}

/// What a request for a list of any state names: the states, the coil and the inputs, and how the list is written.
#[derive(Drop)]
pub struct PossibleRequest {
    /// Whether only states count in which the coil is OFF.
    pub off: bool,
    /// Whether every state that counts is to leave the coil ON, in place of some one.
    pub must: bool,
    /// Whether only states count in which it is so what stays so in each state that the machine reaches.
    pub reachable: bool,
    /// How many scans a search for one row makes at most, where it is said.
    pub looks: Option<u64>,
    /// Which runs are to come to each row, where that is asked; then each state counts, some one is to leave the coil ON, and
    /// there are no groups.
    pub runs: Option<RunsWanted>,
    /// Whether rows are those of groups, with the inputs that don't matter in each.
    pub grouped: bool,
    /// How many rows are written at most.
    pub limit: Option<u64>,
    /// Whether the line of counts is left out.
    pub quiet: bool,
    /// The file of the program text.
    pub file: String,
    /// The name of the coil's variable.
    pub coil: String,
    /// Whether all inputs are listed; otherwise they are named.
    pub all_inputs: bool,
    /// The names of the listed inputs, the first one most significant.
    pub inputs: Vec<String>,
    /// The expressions of the inputs that are assumed to be true, in the order given.
    pub assumed: Vec<String>,
}

/// What is shut out for ever by what is listed.
#[derive(Clone, Copy, Debug, PartialEq, Eq)]
pub enum Excluded {
    /// That a name comes ON.
    On,
    /// That a name goes OFF.
    Off,
    /// That both names of a pair are ON.
    BothOn,
}

/// What a request for what never changes names.
#[derive(Drop)]
pub struct NeverRequest {
    /// The file of the state from which on it is asked; the fresh one where there is none.
    pub state: Option<String>,
    /// What is to be shut out for ever.
    pub excluded: Excluded,
    /// Whether the line with the number of rows is left out.
    pub quiet: bool,
    /// The file of the program text.
    pub file: String,
    /// The expressions of the inputs that are assumed to be true, in the order given.
    pub assumed: Vec<String>,
}

/// What a request for the drawing of one scan names.
#[derive(Drop)]
pub struct ShowRequest {
    /// The file of the state in which the scan begins; the fresh one where there is none.
    pub state: Option<String>,
    /// The moment of the scan, in ms; the stored one where there is none.
    pub moment: Option<u64>,
    /// The number of the assignment of the listed inputs; 0 where there is none.
    pub number: Option<u64>,
    /// How the drawing is written.
    pub medium: Medium,
    /// The name of the variable of whose coils it is written why they have power, or none.
    pub coil: Option<String>,
    /// The file of the program text.
    pub file: String,
    /// Whether all inputs are listed; otherwise they are named.
    pub all_inputs: bool,
    /// The names of the listed inputs, the first one most significant.
    pub inputs: Vec<String>,
    /// The expressions of the inputs that are assumed to be true, in the order given.
    pub assumed: Vec<String>,
}

/// What a request for the drawings of a stimulus names.
#[derive(Drop)]
pub struct FilmRequest {
    /// The file of the state in which the first scan begins; the fresh one where there is none.
    pub state: Option<String>,
    /// How the drawings are written.
    pub medium: Medium,
    /// The name of the variable of whose coils it is written why they have power, or none.
    pub coil: Option<String>,
    /// The file of the program text.
    pub file: String,
    /// The file of the stimulus.
    pub stimulus: String,
}

/// What a request for the trace of a stimulus names.
#[derive(Drop)]
pub struct SimRequest {
    /// The file of the state in which the first scan begins; the fresh one where there is none.
    pub state: Option<String>,
    /// The file that the state after the last scan is written to.
    pub save: Option<String>,
    /// The time between two scans while a record is held, in ms; where there is none each record has one scan.
    pub every: Option<u64>,
    /// The file of the program text.
    pub file: String,
    /// The file of the stimulus.
    pub stimulus: String,
}

/// What a request for the trace of a stimulus names where something is watched, only changes are written, or lines tell how far it is.
#[derive(Drop)]
pub struct WatchRequest {
    /// What it names besides.
    pub sim: SimRequest,
    /// Whether all memory variables and all instances are watched; otherwise they are named.
    pub all: bool,
    /// The names of the variables and instances that are watched.
    pub names: Vec<String>,
    /// Whether of the rows after the first those are written that aren't like the row before but for the moment.
    pub changes: bool,
    /// Whether lines tell how far the simulation is.
    pub progress: bool,
}

/// What a request names for the comparison of a trace with one that is expected.
#[derive(Drop)]
pub struct ExpectRequest {
    /// What it names for the trace.
    pub watch: WatchRequest,
    /// The file of the trace that is expected.
    pub expected: String,
}

/// What a request for the waveform of a stimulus names.
#[derive(Drop)]
pub struct WavesRequest {
    /// The file of the state in which the first scan begins; the fresh one where there is none.
    pub state: Option<String>,
    /// The time between two scans while a record is held, in ms; where there is none each record has one scan.
    pub every: Option<u64>,
    /// The file of the program text.
    pub file: String,
    /// The file of the stimulus.
    pub stimulus: String,
}

/// When the scans of a run are.
#[derive(Clone, Copy, Debug, PartialEq, Eq)]
pub enum Pace {
    /// At any moments that don't fall.
    AnyMoments {
        /// How far apart they are where they can be, in ms, where it is said.
        gap: Option<u64>,
    },
    /// In a rhythm.
    Every {
        /// The time from each scan to the next, in ms.
        every: u64,
        /// How many scans there are at most, where it is said.
        scans: Option<u64>,
    },
}

/// What a request for a run names that switches something on.
#[derive(Drop)]
pub struct ReachRequest {
    /// The file of the state in which the first scan begins; the fresh one where there is none.
    pub state: Option<String>,
    /// The moment from which on the scans are, in ms; the stored one where there is none.
    pub moment: Option<u64>,
    /// When the scans are.
    pub pace: Pace,
    /// How many states the search keeps at most, where it is said.
    pub states: Option<u64>,
    /// The name of what is to be ON too, where there is one.
    pub both: Option<String>,
    /// Whether lines tell how far the search is.
    pub progress: bool,
    /// The file of the program text.
    pub file: String,
    /// The name of the variable, or of the output of an instance, that is to come ON.
    pub name: String,
    /// The names of the inputs that change; all do where none is named.
    pub inputs: Vec<String>,
    /// The expressions of the inputs that are assumed to be true, in the order given.
    pub assumed: Vec<String>,
}

/// What two programs do differently, and how it is written.
#[derive(Clone, Copy, Debug, PartialEq, Eq)]
pub enum DiffForm {
    /// A row for each combination of the listed inputs.
    Rows {
        /// The number to begin after.
        after: Option<u64>,
        /// The number to end at; the last one where there is none.
        upto: Option<u64>,
    },
    /// The same rows, and lines that tell how far they are.
    Progress {
        /// The number to begin after.
        after: Option<u64>,
        /// The number to end at; the last one where there is none.
        upto: Option<u64>,
    },
    /// A row for each combination that, held over several scans, first switches the coil on in another scan.
    Held {
        /// How many scans there are.
        scans: u64,
        /// The time from each scan to the next, in ms.
        every: u64,
    },
    /// A row for each group.
    Groups(Grouping),
}

/// What a request names for what two programs do differently with a coil.
#[derive(Drop)]
pub struct DiffRequest {
    /// The file of the state of the old program in which the scan begins; the fresh one where there is none.
    pub state: Option<String>,
    /// The file of the state of the new program; where there is none, that of the old one is carried over, if one is named.
    pub new_state: Option<String>,
    /// The moment of the scan of both, in ms; the one that each state stores where there is none.
    pub moment: Option<u64>,
    /// How the rows are written.
    pub form: DiffForm,
    /// How many rows are written at most.
    pub limit: Option<u64>,
    /// Whether the line of counts is left out.
    pub quiet: bool,
    /// The file of the program text before the change.
    pub old: String,
    /// The file of the program text after it.
    pub new: String,
    /// The name of the coil's variable.
    pub coil: String,
    /// Whether all inputs are listed that both programs have; otherwise they are named.
    pub all_inputs: bool,
    /// The names of the listed inputs, the first one most significant.
    pub inputs: Vec<String>,
    /// Whether aliases are printed in place of names.
    pub aliases: bool,
    /// Whether a fault is explained, after its line.
    pub why: bool,
    /// The expressions of the inputs that are assumed to be true, in the order given.
    pub assumed: Vec<String>,
    /// Whether what comments of each program text assume of its inputs is assumed too.
    pub takes_comments: bool,
}

/// What a request names for what two programs do differently, name by name.
#[derive(Drop)]
pub struct VerdictRequest {
    /// How many scans of each program a verdict takes at most, where it is said.
    pub looks: Option<u64>,
    /// Whether only states count in which it is so what stays so in each state that the programs reach.
    pub reachable: bool,
    /// The folder in which states are saved that show each difference, where there is one.
    pub save: Option<String>,
    /// Whether the line of counts is left out.
    pub quiet: bool,
    /// The file of the program text before the change.
    pub old: String,
    /// The file of the program text after it.
    pub new: String,
    /// Whether aliases are printed in place of names.
    pub aliases: bool,
    /// Whether a fault is explained, after its line.
    pub why: bool,
    /// The expressions of the inputs that are assumed to be true, in the order given.
    pub assumed: Vec<String>,
    /// Whether what comments of each program text assume of its inputs is assumed too.
    pub takes_comments: bool,
}

/// What a request names for what two programs do differently in runs from their fresh states, name by name.
#[derive(Drop)]
pub struct DiffRunsRequest {
    /// How many states a search keeps at most, where it is said.
    pub states: Option<u64>,
    /// The folder in which runs are saved that show each difference, where there is one.
    pub save: Option<String>,
    /// Whether the line of counts is left out.
    pub quiet: bool,
    /// The file of the program text before the change.
    pub old: String,
    /// The file of the program text after it.
    pub new: String,
    /// Whether aliases are printed in place of names.
    pub aliases: bool,
    /// Whether a fault is explained, after its line.
    pub why: bool,
    /// The expressions of the inputs that are assumed to be true in each scan, in the order given.
    pub assumed: Vec<String>,
    /// Whether what comments of each program text assume of its inputs is assumed too.
    pub takes_comments: bool,
}

/// What a request for the program text of a project names.
#[derive(Drop)]
pub struct ImportRequest {
    /// Whether numbers and sequential charts are opened.
    pub opened: bool,
    /// Whether a timer without a control input has it ON.
    pub control_on: bool,
    /// The file of the project.
    pub file: String,
    /// The HAL file after whose signals inputs and outputs are named.
    pub hal: Option<String>,
    /// The name of the program that is meant, where the project is in PLCopen XML; its only one where there is none.
    pub pou: Option<String>,
}

/// The language in which a program is written.
#[derive(Clone, Copy, Debug, PartialEq, Eq)]
pub enum Language {
    /// Structured Text.
    Statements,
    /// A ladder diagram in PLCopen XML.
    Diagram,
}

/// What a request for a program in a language of controllers names.
#[derive(Drop)]
pub struct ExportRequest {
    /// The language in which it is written.
    pub language: Language,
    /// The name of the program in the text, where it is given.
    pub name: Option<String>,
    /// Whether an address with one number is written by byte and bit.
    pub bits: bool,
    /// Whether the inputs of bistables are spelled as CODESYS has them.
    pub codesys: bool,
    /// The file of the program text.
    pub file: String,
}

/// What the arguments ask for.
#[derive(Drop)]
pub enum Request {
    /// Whether a program text breaks no rule, and what it has.
    Check {
        /// The file of the program text.
        file: String,
        /// Whether it is warned of what breaks no rule and is most likely not meant.
        warns: bool,
    },
    /// The causes of a coil: which assignments of the listed inputs switch it on.
    Causes {
        list: ListRequest,
        /// The number to begin after.
        after: Option<u64>,
        /// The number to end at; the last one where there is none.
        upto: Option<u64>,
    },
    /// The causes of a coil, with lines of how far the list is.
    Progress {
        list: ListRequest,
        /// The number to begin after.
        after: Option<u64>,
        /// The number to end at; the last one where there is none.
        upto: Option<u64>,
    },
    /// The causes of a coil over several scans, with the inputs held.
    Held {
        list: ListRequest,
        /// How many scans there are.
        scans: u64,
        /// The time from each scan to the next, in ms.
        every: u64,
        /// Whether rows are those of groups, with the inputs that don't matter in each.
        grouped: bool,
    },
    /// The causes of a coil in groups, with the inputs that don't matter in each.
    Groups {
        list: ListRequest,
        /// Which groups, and how they are written.
        grouping: Grouping,
    },
    /// The causes of a coil over the inputs that matter to it, in groups where these are asked for; no input is named.
    Relevant {
        list: ListRequest,
        /// The number to begin after, where there are no groups.
        after: Option<u64>,
        /// Which groups, and how they are written.
        grouping: Option<Grouping>,
    },
    /// What happens from any state: the assignments of the listed inputs with which some state, or every one, leaves a coil ON, at any moment.
    Possible(PossibleRequest),
    /// The drawing with the power flow of one scan.
    Show(ShowRequest),
    /// The drawings of a stimulus: one scan, with its power flow, for each of its records.
    Film(FilmRequest),
    /// The trace of a stimulus: one scan for each of its records, and those between them.
    Sim(SimRequest),
    /// The trace of a stimulus, with the variables and instances that are watched beside its outputs, whole or of changes.
    Watch(WatchRequest),
    /// The trace of a stimulus beside one that is expected: where they differ.
    Expect(ExpectRequest),
    /// The waveform of a stimulus: what each of its scans changes.
    Waves(WavesRequest),
    /// The cross-reference: where each variable and each instance is drawn.
    Uses {
        /// The file of the program text.
        file: String,
    },
    /// What never changes from a state on.
    Never(NeverRequest),
    /// A run that switches something on, or that there is none.
    Reach(ReachRequest),
    /// The program text of a project.
    Import(ImportRequest),
    /// The drawing of a program in Structured Text.
    Draw {
        /// The file of the text.
        file: String,
    },
    /// The program in a language of controllers.
    Export(ExportRequest),
}

/// What a command line asks for.
#[derive(Drop)]
pub enum Task {
    /// To perform a request.
    Perform(CommandLine),
    /// To perform a request for each coil of its program.
    PerformAll(AllCoils),
    /// To compare what two programs do with a coil.
    Compare(DiffRequest),
    /// To judge of each name whether two programs leave it alike.
    Judge(VerdictRequest),
    /// To say of each name what two programs do differently in runs.
    JudgeRuns(DiffRunsRequest),
    /// To say what the faults with these codes mean, or to list all faults where none is named.
    Explain(Vec<String>),
}

/// A request, with the flags of every subcommand that makes one.
#[derive(Drop)]
pub struct CommandLine {
    pub request: Request,
    /// Whether what comments of the program text assume of the inputs is assumed too.
    pub assumed: bool,
    /// Whether aliases are printed in place of names; an import and a drawing have none.
    pub aliases: bool,
    /// Whether a fault is explained, after its line.
    pub why: bool,
}

/// A request for a list of causes that is made of each coil of a program.
#[derive(Drop)]
pub struct AllCoils {
    /// The folder in which each coil has a file.
    pub folder: String,
    /// The request, in which the name of the coil is empty.
    pub line: CommandLine,
}

/// Why the arguments are no request.
#[derive(Debug, Drop, Error)]
pub enum WordFault {
    #[error("the arguments are no request")]
    Usage,
    /// They break this rule, of those that `clap` doesn't know.
    #[error("the arguments don't go together")]
    Broken(Broken),
    /// This is the code of no fault.
    #[error("there is no fault {0}")]
    NoCode(String),
    /// `clap` finds a fault in them, and this is what it says of it.
    #[error("{0}")]
    Mistake(String),
    /// They ask for help or for the version, and this is its text.
    #[error("{0}")]
    Help(String),
    #[error("out of memory")]
    Memory,
}
