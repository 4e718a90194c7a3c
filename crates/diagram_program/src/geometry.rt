//! The geometry of a drawing: how many rungs, rows and columns there are, and where a cell is in its lines.

ghost use Rattle.std.specs.Prelude.{◌≡◌, ◌<◌, ◌+◌, ◌*◌, ◌-◌, ◌/◌, ◌%◌};
ghost use Rattle.diagram_program.specs.declared.geometry.TheConstants.{RUNGS, ROWS, COLUMNS, PLACES};
ghost use Rattle.diagram_program.specs.Geometry.{place};
ghost use Rattle.diagram_program.specs.AllPlaces.{reading_place};

/// The most rungs of a program.
pub const RUNGS: usize = 100;

/// The rows of a rung, each with a name line and a wire line.
pub const ROWS: usize = 6;

/// The columns of a rung.
pub const COLUMNS: usize = 10;

/// The places of a rung.
pub const PLACES: usize = ROWS * COLUMNS;

/// The most lines of a rung.
pub const LINES: usize = 2 * ROWS;

/// The characters of a cell.
pub const CELL: usize = 11;

/// From a column to the next: a cell and the joint on its left.
pub const PITCH: usize = CELL + 1;

/// The place of the right rail in a line.
pub const RAIL: usize = PITCH * COLUMNS;

/// A place of a drawing: a cell by its rung, its row and its column.
#[derive(Clone, Copy)]
pub struct Place {
    pub rung: usize,
    pub row: usize,
    pub column: usize,
    ghost few: { rung < RUNGS },
    ghost rows: { row < ROWS },
    ghost columns: { column < COLUMNS },
}

impl Place {
    /// The place with this number among all, by rung, column and row.
    pub fn from_number(n: usize) -> Place
        requires { n < PLACES * RUNGS }
        ensures { (result.rung ≡ n / PLACES) × (result.row ≡ n % PLACES % ROWS) × (result.column ≡ n % PLACES / ROWS) }
    {
        let within = n % PLACES;
        Place {
            rung: n / PLACES,
            row: within % ROWS,
            column: within / ROWS,
        }
    }

    /// The place with this number in the order of reading: by rung, row and column.
    pub fn read_at(n: usize) -> Place
        requires { n < PLACES * RUNGS }
        ensures { (result.rung ≡ n / PLACES) × (result.row ≡ n % PLACES / COLUMNS) × (result.column ≡ n % PLACES % COLUMNS) }
    {
        let within = n % PLACES;
        Place {
            rung: n / PLACES,
            row: within / COLUMNS,
            column: within % COLUMNS,
        }
    }

    /// The number of the place among all, by rung, column and row.
    pub fn number(self) -> usize
        ensures { result ≡ place self.rung self.row self.column }
    {
        PLACES * self.rung + (ROWS * self.column + self.row)
    }

    /// The number of the place in the order of reading.
    pub fn reading_number(self) -> usize
        ensures { result ≡ reading_place self.rung self.row self.column }
    {
        PLACES * self.rung + (COLUMNS * self.row + self.column)
    }

    /// The place of this row in the same rung and column.
    pub fn in_row(self, row: usize) -> Place
        requires { row < ROWS }
        ensures { (result.rung ≡ self.rung) × (result.row ≡ row) × (result.column ≡ self.column) }
    {
        Place {
            rung: self.rung,
            row,
            column: self.column,
        }
    }

    /// The place in the column before; the place itself in the first column.
    pub fn before(self) -> Place
        ensures { (result.rung ≡ self.rung) × (result.row ≡ self.row) × (result.column ≡ self.column - 1) }
    {
        Place {
            rung: self.rung,
            row: self.row,
            column: self.column.saturating_sub(1),
        }
    }
}
