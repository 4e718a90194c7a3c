//! Reads the words of a command line into a request.
#![tactic(auto)]

mod causes;
mod comparing;
mod found;
mod grouping;
mod lasting;
mod parts;
mod reaching;
mod request;
mod runs;
mod showing;
mod simulating;
mod words;

pub use request::{
    AllCoils, CommandLine, DiffForm, DiffRequest, DiffRunsRequest, Excluded, ExpectRequest,
    ExportRequest, FilmRequest, GroupFormat, Grouping, ImportRequest, InputOrder, Language,
    ListRequest, Medium, NeverRequest, Pace, PossibleRequest, ReachRequest, Request, RunsWanted,
    ShowRequest, SimRequest, Task, VerdictRequest, WatchRequest, WavesRequest, WordFault,
};
pub use words::read_words;
