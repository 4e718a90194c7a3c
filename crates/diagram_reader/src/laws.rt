//! Laws over the definitions: functions that do nothing, and whose clauses are the laws.

ghost use Rattle.std.specs.Prelude.{ℕ, List};
ghost use Rattle.diagram_page.specs.Page.{Page};
ghost use Rattle.diagram_program.specs.Program.{Drawing};
ghost use Rattle.diagram_reader.specs.Reading.{IsDrawn, IsProgram};
ghost use Rattle.diagram_reader.specs.Agreement.{SameGroups, SameFeeding, FeedsDashes, FeedsCells};

/// Groups and feeding are the same in the picture of a page, by its characters, and in its program, by its cells.
pub fn power_flow()
    ensures groups { (page : Page) (d : Drawing) → IsDrawn page d → SameGroups page d }
    ensures feeding { (page : Page) (d : Drawing) → IsDrawn page d → SameFeeding page d }
{}

/// Where no rule is broken, some row feeds each cell past the first column that wants power on its left.
pub fn fed_cells()
    ensures dashes { (page : Page) (d : Drawing) → IsDrawn page d → FeedsDashes page d }
    ensures cells { (text : List ℕ) (d : Drawing) → IsProgram text d → FeedsCells d }
{}
