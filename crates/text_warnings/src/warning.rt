//! The kinds of warnings.

ghost use Rattle.std.specs.Prelude.{◌≡◌};
ghost use Rattle.text_warnings.specs.Warnings.{warning_word};

/// What a drawing that breaks no rule has, and most likely does not mean.
#[derive(Clone, Copy, Debug, PartialEq, Eq)]
pub enum Warning {
    /// Two joints `+`, one over the other, with no `|` between them.
    LooseCrossing,
    /// A row that nothing joins with the rows above it.
    Apart,
    /// A contact from which power gets to nothing that uses it.
    LeadsNowhere,
    /// A coil on a variable that an earlier coil writes.
    WrittenTwice,
    /// A contact that reads what nothing gives a value.
    NeverWritten,
    /// A coil on a memory variable that no contact reads.
    NeverRead,
    /// A rung that no scan reaches.
    NeverReached,
}

impl Warning {
    /// All, in the order in which they are reported at one place.
    pub const ALL: [Warning; 7] = [
        Warning::LooseCrossing,
        Warning::Apart,
        Warning::LeadsNowhere,
        Warning::WrittenTwice,
        Warning::NeverWritten,
        Warning::NeverRead,
        Warning::NeverReached,
    ];

    /// The word that a warning has in its row.
    pub(crate) fn word(self) -> &'static [u8]
        ensures { result.now ≡ warning_word self }
    {
        match self {
            Warning::LooseCrossing => b"loose_crossing",
            Warning::Apart => b"apart",
            Warning::LeadsNowhere => b"leads_nowhere",
            Warning::WrittenTwice => b"written_twice",
            Warning::NeverWritten => b"never_written",
            Warning::NeverRead => b"never_read",
            Warning::NeverReached => b"never_reached",
        }
    }
}
