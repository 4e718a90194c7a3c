//! Why an element is refused.

/// Why an element can't be carried over.
#[derive(Clone, Copy)]
pub enum Reason {
    /// A counter: it counts up and down, round at 9999, and is done at its preset alone.
    Counter,
    /// A compare block: there are no numbers in the language.
    Compare,
    /// An operate block: there are no numbers in the language.
    Operate,
    /// A call of a subroutine.
    Call,
    /// This kind of element isn't known, or is inside a block.
    Unknown,
    /// A contact on a step of a sequential chart.
    Step,
    /// A contact on the running output of a timer.
    RunningContact,
    /// A contact on a variable that a program can't have.
    OtherContact,
    /// A coil writes an input.
    WritesInput,
    /// A coil writes a variable that a program can't write.
    OtherCoil,
    /// Its number is larger than 99999.
    LargeNumber,
    /// An output must be in the last column, and a contact before it.
    OutOfPlace,
    /// Something that writes or jumps is below this jump.
    BelowJump,
    /// This block isn't drawn as a block.
    BlockPlaces,
    /// The control input of this timer isn't joined with its input.
    Switched,
    /// This block has no preset that a program can have.
    NoPreset,
    /// This block is drawn twice.
    Twice,
    /// A contact reads a block that comes before it in its rung.
    ReadsLate,
    /// No power can come to this coil, and it writes nevertheless.
    NoPower,
    /// The running output of a timer leads here.
    Running,
    /// A jump to a rung that isn't a later one of its section.
    Elsewhere,
}
